//! Elements of DER, each appended with its content, and how many bytes each may add.
ghost use Rattle.std.specs.Prelude.{◌≡◌, ◌+◌, ◌^◌, ◌<◌, ◌≤◌, [], ◌++◌, length, IfOk, OnOk};
ghost use Rattle.der_text.specs.Tree.{element};

use der_text::{a_head_is_short as a_head_has_six_bytes, a_head_is_shorter};
use gate_base::NoMemory;
use std::alloc::Global;

/// Appends an element with this content.
pub fn push_element(tag: u8, content: &[u8], out: &mut Vec<u8>) -> Result<(), NoMemory>
    requires { length content.now < 2 ^ 20 }
    ensures ok { OnOk result (out.new.items ≡ out.old.items ++ element tag content.now) }
    ensures six { OnOk result (length out.new.items ≤ length out.old.items + (6 + length content.now)) }
    ensures four { OnOk result (length content.now < 2 ^ 16
        → length out.new.items ≤ length out.old.items + (4 + length content.now)) }
    ensures three { OnOk result (length content.now < 2 ^ 8
        → length out.new.items ≤ length out.old.items + (3 + length content.now)) }
{
    a_head_has_six_bytes();
    a_head_is_shorter();
    der_text::push_element(tag, content, out)
}

/// Appends an element whose parts have these spellings, one after another.
pub fn push_wrapped(tag: u8, parts: &[u8], out: &mut Vec<u8>) -> Result<(), NoMemory>
    requires { length parts.now < 2 ^ 20 }
    ensures ok { OnOk result (out.new.items ≡ out.old.items ++ element tag (parts.now ++ [])) }
    ensures few { OnOk result (length out.new.items ≤ length out.old.items + (6 + length parts.now)) }
{
    push_element(tag, parts, out)
}

/// The element whose parts have these spellings, one after another.
pub fn wrapped(alloc: Global, tag: u8, parts: &[u8]) -> Result<Vec<u8>, NoMemory>
    requires { length parts.now < 2 ^ 20 }
    ensures ok { IfOk result (λ whole. whole.items ≡ element tag (parts.now ++ [])) }
    ensures few { IfOk result (λ whole. length whole.items ≤ 6 + length parts.now) }
{
    let mut whole = Vec::new(alloc);
    push_wrapped(tag, parts, &mut whole)?;
    Ok(whole)
}
