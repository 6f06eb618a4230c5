//! Elements by their tag and content.
ghost use Rattle.std.specs.Prelude.{◌≡◌, ◌+◌, ◌<◌, ◌≤◌, ◌^◌, ◌++◌, length, take, OnOk, OnErr};
ghost use Rattle.der_text.specs.Tree.{length_octets, head_of, element, element_length};

use gate_base::NoMemory;

/// How many bytes stand before a content of such a length.
#[tactic(auto, unfolding(crate::specs::Tree::length_octets))]
pub fn head_len(len: usize) -> usize
    ensures exact { result ≡ 1 + length (length_octets len) }
    ensures few { result ≤ 6 }
{
    match len {
        0..0x80 => 2,
        0x80..0x100 => 3,
        0x100..0x1_0000 => 4,
        0x1_0000..0x100_0000 => 5,
        _ => 6,
    }
}

/// How many bytes an element has whose content has so many.
pub fn element_len(content_len: usize) -> usize
    requires { content_len < 2 ^ 32 }
    ensures { result ≡ element_length content_len }
{
    head_len(content_len) + content_len
}

/// Appends the octets of a length.
#[tactic(auto, unfolding(crate::specs::Tree::length_octets))]
fn write_length(len: usize, out: &mut Vec<u8>) -> Result<(), NoMemory>
    requires { len < 2 ^ 32 }
    ensures ok { OnOk result (out.new.items ≡ out.old.items ++ length_octets len) }
    ensures kept { take (length out.old.items) out.new.items ≡ out.old.items }
{
    let third = (len / 0x1_0000 % 0x100) as u8;
    let second = (len / 0x100 % 0x100) as u8;
    let first = (len % 0x100) as u8;
    match len {
        0..0x80 => out.push(first)?,
        0x80..0x100 => out.extend_from_slice(&[0x81, first])?,
        0x100..0x1_0000 => out.extend_from_slice(&[0x82, second, first])?,
        0x1_0000..0x100_0000 => out.extend_from_slice(&[0x83, third, second, first])?,
        _ => out.extend_from_slice(&[0x84, (len / 0x100_0000) as u8, third, second, first])?,
    }
    Ok(())
}

/// Appends what stands before a content of such a length, or a part of it where memory runs out.
pub fn write_head(tag: u8, len: usize, out: &mut Vec<u8>) -> Result<(), NoMemory>
    requires { len < 2 ^ 32 }
    ensures ok { OnOk result (out.new.items ≡ out.old.items ++ head_of tag len) }
    ensures kept { take (length out.old.items) out.new.items ≡ out.old.items }
{
    out.push(tag)?;
    write_length(len, out)
}

/// Appends an element, or a part of it where memory runs out.
pub fn write_primitive(tag: u8, content: &[u8], out: &mut Vec<u8>) -> Result<(), NoMemory>
    requires { length content.now < 2 ^ 32 }
    ensures ok { OnOk result (out.new.items ≡ out.old.items ++ element tag content.now) }
    ensures kept { take (length out.old.items) out.new.items ≡ out.old.items }
{
    write_head(tag, content.len(), out)?;
    out.extend_from_slice(content)?;
    Ok(())
}

/// Appends what stands before a content of so many bytes: the tag and the length. Without memory nothing is appended.
pub fn push_head(tag: u8, len: usize, out: &mut Vec<u8>) -> Result<(), NoMemory>
    requires { len < 2 ^ 32 }
    ensures ok { OnOk result (out.new.items ≡ out.old.items ++ head_of tag len) }
    ensures err { OnErr result (out.new.items ≡ out.old.items) }
{
    let before = out.len();
    let written = write_head(tag, len, out);
    if written.is_err() {
        out.truncate(before);
    }
    written
}

/// Appends an element with this tag and content. Without memory nothing is appended.
pub fn push_element(tag: u8, content: &[u8], out: &mut Vec<u8>) -> Result<(), NoMemory>
    requires { length content.now < 2 ^ 32 }
    ensures ok { OnOk result (out.new.items ≡ out.old.items ++ element tag content.now) }
    ensures err { OnErr result (out.new.items ≡ out.old.items) }
{
    let before = out.len();
    let written = write_primitive(tag, content, out);
    if written.is_err() {
        out.truncate(before);
    }
    written
}
