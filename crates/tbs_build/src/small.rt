//! The small body, which names a serial number and targets alone.
ghost use Rattle.std.specs.Prelude.{◌≡◌, ◌+◌, ◌*◌, ◌^◌, ◌<◌, ◌≤◌, ◌++◌, length, IfOk};
ghost use Rattle.std.specs.List.{AllByRecursion};
ghost use Rattle.der_text.specs.Tree.{element, IsDer};
ghost use Rattle.tbs_build.specs.Small.{small_body_tree, IsSerial, IsShort};

use crate::element::push_element;
use crate::names::names_of;
use der_text::tag::{INTEGER, SEQUENCE};
use gate_base::{Bytes, NoMemory, Sixteen, Targets};
use std::alloc::Global;

/// The content of the body.
fn content_of(alloc: Global, serial: &[u8], names: &[u8]) -> Result<Vec<u8>, NoMemory>
    requires serial { length serial.now ≤ 16 }
    requires names { length names.now ≤ 256 * 255 }
    ensures content { IfOk result (λ content. content.items ≡ element 2 serial.now ++ element 48 names.now) }
    ensures few { IfOk result (λ content. length content.items ≤ 23 + 256 * 255) }
{
    let mut content = Vec::new(alloc);
    push_element(INTEGER, serial, &mut content)?;
    push_element(SEQUENCE, names, &mut content)?;
    Ok(content)
}

/// The bytes of the small body.
pub fn small_body(alloc: Global, serial: &Sixteen, targets: &Targets) -> Result<Bytes, NoMemory>
    requires serial { IsSerial serial.now.0 }
    requires count { length targets.now ≤ 255 }
    requires short { AllByRecursion IsShort targets.now }
    ensures der { IfOk result (λ body. IsDer body (small_body_tree serial.now.0 targets.now)) }
    // A number of two bytes counts them.
    ensures few { IfOk result (λ body. length body < 2 ^ 16) }
{
    let names = names_of(alloc, targets.as_slice())?;
    let content = content_of(alloc, &serial.0, &names)?;
    let mut body = Vec::new(alloc);
    push_element(SEQUENCE, &content, &mut body)?;
    Ok(Bytes::from_vec(body))
}
