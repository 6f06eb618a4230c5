//! The rules on the request of an order, and the key in it.
ghost use Rattle.std.specs.Prelude.{◌≡◌, ◌↔◌, ℕ, List, None, IsTrue, IfOk, IfNone};
ghost use Rattle.gate_machine.specs.Commands.Order as spec;
ghost use Rattle.gate_machine.specs.Commands.Order.{IsOther, HasFault, RequestBreaks, IsGoodOrder};
ghost use Rattle.gate_machine.specs.Rules.{TellsLeast};
ghost use Rattle.gate_machine.specs.Sends.{IsOrderKey, IsKeyIn};

use crate::names::is_same_set;
use csr10::{CsrFault, one_reading, read_request};
use gate_base::{NoMemory, Target, Targets};
use gate_entries::What;
use std::alloc::Global;

/// F07: the request is no DER.
const DER: u8 = 7;

/// F08: it is no certificate request.
const SHAPE: u8 = 8;

/// F09: its version isn't 0.
const VERSION: u8 = 9;

/// F10: its key is none that is certified.
const UNCERTIFIED_KEY: u8 = 10;

/// F11: it has two subjectAltName extensions.
const TWO_SANS: u8 = 11;

/// F12: a name of its subjectAltName is none.
const BAD_SAN: u8 = 12;

/// F13: its subjectAltName has other names than the order.
const OTHER_NAMES: u8 = 13;

/// The least number of a rule that the request of an order for these targets breaks.
pub fn broken_by_request(
    alloc: Global,
    request: &[u8],
    targets: &[Target],
) -> Result<Option<u8>, NoMemory>
    ensures { IfOk result (TellsLeast (RequestBreaks request.now targets.now)) }
{
    one_reading();
    match read_request(alloc, request) {
        Ok(fields) => Ok(broken_by_san(&fields.san, targets)),
        Err(fault) => rule_of(fault),
    }
}

fn broken_by_san(san: &Option<Targets>, targets: &[Target]) -> Option<u8>
    ensures { TellsLeast (λ rule. (rule ≡ 13) × IsOther san.now targets.now) result }
{
    if has_other_names(san, targets) {
        Some(OTHER_NAMES)
    } else {
        None
    }
}

/// Whether there are names, and others than these.
fn has_other_names(san: &Option<Targets>, targets: &[Target]) -> bool
    ensures { IsTrue result ↔ IsOther san.now targets.now }
{
    match san {
        Some(names) => !is_same_set(names.as_slice(), targets),
        None => false,
    }
}

/// The rule's number of a request's fault.
fn rule_of(fault: CsrFault) -> Result<Option<u8>, NoMemory>
    ensures exact { IfOk result (λ rule. rule ≡ spec.rule_of fault) }
    ensures some { IfOk result (λ rule. IfNone rule ⊥) }
{
    match fault {
        CsrFault::Der(_) => Ok(Some(DER)),
        CsrFault::Shape => Ok(Some(SHAPE)),
        CsrFault::Version => Ok(Some(VERSION)),
        CsrFault::Key => Ok(Some(UNCERTIFIED_KEY)),
        CsrFault::SanTwice => Ok(Some(TWO_SANS)),
        CsrFault::SanName(_) => Ok(Some(BAD_SAN)),
        CsrFault::NoMemory => Err(NoMemory),
    }
}

/// The bytes of an order's key, as they stand in its request.
pub fn key_of(alloc: Global, what: &What) -> Result<&[u8], NoMemory>
    requires kept { IsGoodOrder what.now }
    ensures key { IfOk result (λ key. IsOrderKey what.now key.now) }
    ensures only { IfOk result (λ key. (other : List ℕ) → IsOrderKey what.now other → other ≡ key.now) }
{
    match what {
        What::Order { request, .. } => key_in(alloc, request.as_slice()),
        _ => unreachable!(),
    }
}

fn key_in(alloc: Global, request: &[u8]) -> Result<&[u8], NoMemory>
    requires kept { (rule : ℕ) → ¬ (HasFault request.now rule) }
    ensures key { IfOk result (λ key. IsKeyIn request.now key.now) }
    ensures only { IfOk result (λ key. (other : List ℕ) → IsKeyIn request.now other → other ≡ key.now) }
{
    one_reading();
    match read_request(alloc, request) {
        Ok(fields) => Ok(fields.spki),
        Err(fault) => Err(want_of_memory(fault)),
    }
}

/// A fault that breaks no rule is out of memory.
fn want_of_memory(fault: CsrFault) -> NoMemory
    requires { spec.rule_of fault ≡ None }
{
    match fault {
        CsrFault::NoMemory => NoMemory,
        _ => unreachable!(),
    }
}
