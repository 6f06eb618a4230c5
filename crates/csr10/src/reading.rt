//! A request as a whole.
ghost use Rattle.std.specs.Prelude.{◌≡◌, ◌∷◌, [], ◌↔◌, map, IsTrue, IfOk, IfErr};
ghost use Rattle.std.specs.List.{AllByRecursion};
ghost use Rattle.csr10.specs.Csr.{IsSan, AreFields, IsCsr, HasFault, IsFirstFault, SpellsSequence};
ghost use Rattle.csr10.specs.View as view;
ghost use Rattle.csr10.specs.Told.{IsSanFault};

use crate::fault::CsrFault;
use crate::fields::CsrFields;
use crate::name::{read_names, targets_of};
use crate::shape::{Request, read_parts};
use gate_base::{KeyKind, Targets};
use public_key::read_key_kind;
use std::alloc::Global;

fn is_zero(version: &[u8]) -> bool
    ensures { IsTrue result ↔ (version.now ≡ 0 ∷ []) }
{
    match version {
        [] => false,
        [first] => *first == 0,
        [_, _, ..] => false,
    }
}

/// The targets of the only subjectAltName.
fn san_of(alloc: Global, request: &Request<'_>) -> Result<Option<Targets>, CsrFault>
    requires { AllByRecursion SpellsSequence (view.request request.now).sans }
    ensures ok { IfOk result (λ san. IsSan (view.request request.now).sans san) }
    ensures err { IfErr result (λ e. IsSanFault (view.request request.now) e) }
{
    match request.sans.as_slice() {
        [] => Ok(None),
        [value] => {
            let names = read_names(alloc, value)?;
            Ok(Some(targets_of(alloc, names.as_slice())?))
        }
        [_, _, ..] => Err(CsrFault::SanTwice),
    }
}

/// The fields of a request.
fn fields_of<'a>(alloc: Global, request: &Request<'a>) -> Result<CsrFields<'a>, CsrFault>
    requires { AllByRecursion SpellsSequence (view.request request.now).sans }
    ensures ok { IfOk result (λ fields. AreFields (view.request request.now) (view.fields fields)) }
    ensures err { IfErr result (λ e. HasFault (view.request request.now) e) }
{
    if !is_zero(request.version) {
        return Err(CsrFault::Version);
    }
    let Some(kind) = read_key_kind(alloc, request.spki)? else {
        return Err(CsrFault::Key);
    };
    let san = san_of(alloc, request)?;
    Ok(CsrFields {
        spki: request.spki,
        kind,
        san,
    })
}

/// The fields of the request that the bytes are, or the first fault of bytes that are none.
pub fn read_request<'a>(alloc: Global, bytes: &'a [u8]) -> Result<CsrFields<'a>, CsrFault>
    // What is read are the fields of the bytes.
    ensures ok { IfOk result (λ fields. IsCsr bytes.now (view.fields fields)) }
    // Otherwise it is their first fault.
    ensures fault { IfErr result (λ fault. IsFirstFault bytes.now fault) }
{
    let request = read_parts(alloc, bytes)?;
    fields_of(alloc, &request)
}
