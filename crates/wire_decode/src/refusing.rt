//! The bytes by which a message is answered that is no command of a caller.
ghost use Rattle.std.specs.Prelude.{◌≡◌, ◌++◌, IfOk, OnOk, OnErr, string_bytes};
ghost use Rattle.wire_decode.specs.Fault.{status_of, json_of, fault_text};

use crate::fault::WireFault;
use crate::response::response_of;
use gate_base::NoMemory;
use std::alloc::{AllocError, Global};

/// Appends the answer to a message that is no command of a caller, as the bytes of an HTTP/1.1 response.
pub fn fault_bytes(fault: &WireFault, out: &mut Vec<u8>) -> Result<(), NoMemory>
    ensures ok { OnOk result (out.new.items ≡ out.old.items ++ fault_text fault.now) }
    ensures err { OnErr result (out.new.items ≡ out.old.items) }
{
    let text = fault_text(*out.allocator(), fault)?;
    out.extend_from_slice(text.as_bytes())?;
    Ok(())
}

#[tactic(auto, unfolding(crate::specs::Fault::fault_text))]
fn fault_text(alloc: Global, fault: &WireFault) -> Result<String, AllocError>
    ensures { IfOk result (λ text. string_bytes text ≡ fault_text fault.now) }
{
    let json = json_of(alloc, fault)?;
    response_of(alloc, status_of(fault), json.as_str())
}

fn status_of(fault: &WireFault) -> u16
    ensures { result ≡ status_of fault.now }
{
    match fault {
        WireFault::BadForm(_) => 400,
        WireFault::NoCaller => 401,
        WireFault::NotFound => 404,
        WireFault::TooLarge => 413,
        WireFault::NotOffered => 501,
    }
}

fn json_of(alloc: Global, fault: &WireFault) -> Result<String, AllocError>
    ensures { IfOk result (λ json. string_bytes json ≡ json_of fault.now) }
{
    match fault {
        WireFault::BadForm(rule) => format!(in alloc; "{{\"reply\":\"bad_form\",\"rule\":{rule}}}"),
        WireFault::NoCaller => String::from_str(alloc, "{\"reply\":\"no_caller\"}"),
        WireFault::NotFound => String::from_str(alloc, "{\"reply\":\"not_found\"}"),
        WireFault::TooLarge => String::from_str(alloc, "{\"reply\":\"too_large\"}"),
        WireFault::NotOffered => String::from_str(alloc, "{\"reply\":\"not_offered\"}"),
    }
}
