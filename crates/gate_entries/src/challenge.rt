//! Challenges in the journal.
ghost use Rattle.std.specs.Prelude.{◌≡◌, [], ◌∷◌, ◌++◌, IsTrue, ◌↔◌, IfOk, OnOk};
ghost use Rattle.gate_entries.specs.declared.entry.What.TheVariants.{Challenge};
ghost use Rattle.gate_entries.specs.Field.{Gives, Within};
ghost use Rattle.gate_entries.specs.Challenge.{method_number, method_with, method_at, is_thumb_of, thumb_at, challenge_bytes, IsChallenge, challenge_at};

use crate::entry::What;
use crate::fault::FieldFault;
use crate::field::{Field, put_counted8, put_u64, read_counted8, read_sixteen, read_u64};
use gate_base::{Bytes, Method, NoMemory, Plain, Sixteen, Target};
use std::alloc::Global;

pub fn put_challenge(
    key: &Bytes,
    order: u64,
    method: Method,
    target: &Target,
    value: Sixteen,
    thumb: &Bytes,
    out: &mut Vec<u8>,
) -> Result<(), NoMemory>
    requires { IsChallenge key.now order method target.now value thumb.now }
    ensures { OnOk result (out.new.items ≡ out.old.items ++ challenge_bytes key.now order method target.now value thumb.now) }
{
    put_counted8(key, out)?;
    put_u64(order, out)?;
    out.push(number_of(method))?;
    target.put(out)?;
    out.extend_from_slice(&value.0)?;
    put_counted8(thumb, out)
}

fn number_of(method: Method) -> u8
    ensures { result ≡ method_number method }
{
    match method {
        Method::DnsChange => 1,
        Method::WebChange => 2,
        Method::AcmeHttp => 3,
    }
}

#[tactic(auto, unfolding(crate::specs::Challenge::challenge_at))]
pub fn read_challenge(alloc: Global, bytes: &[u8]) -> Result<(What, &[u8]), FieldFault>
    ensures exact { Gives (λ x. (x.0, x.1.now)) result (challenge_at bytes.now) }
    ensures within { Within (λ x. x.1.now) bytes.now result }
{
    let (key, rest) = read_counted8(alloc, bytes)?;
    let (order, rest) = read_u64(rest)?;
    let (method, rest) = read_method(rest)?;
    let (target, rest) = Target::read(alloc, rest)?;
    let (value, rest) = read_sixteen(rest)?;
    let (thumb, rest) = read_thumb(alloc, method, rest)?;
    let challenge = What::Challenge {
        key,
        order,
        method,
        target,
        value,
        thumb,
    };
    Ok((challenge, rest))
}

#[tactic(auto, unfolding(crate::specs::Field::one_of_at))]
fn read_method(bytes: &[u8]) -> Result<(Method, &[u8]), FieldFault>
    ensures exact { Gives (λ x. (x.0, x.1.now)) result (method_at bytes.now) }
    ensures within { Within (λ x. x.1.now) bytes.now result }
{
    match bytes {
        [] => Err(FieldFault::Left(0)),
        [number, rest @ ..] => match method_with(*number) {
            Some(method) => Ok((method, rest)),
            None => Err(FieldFault::Left(bytes.len())),
        },
    }
}

fn method_with(number: u8) -> Option<Method>
    ensures { result ≡ method_with number }
{
    match number {
        1 => Some(Method::DnsChange),
        2 => Some(Method::WebChange),
        3 => Some(Method::AcmeHttp),
        _ => None,
    }
}

/// The thumbprint of an account's key stands with `AcmeHttp` alone.
#[tactic(auto, unfolding(crate::specs::Challenge::thumb_at))]
fn read_thumb(alloc: Global, method: Method, bytes: &[u8]) -> Result<(Bytes, &[u8]), FieldFault>
    ensures exact { Gives (λ x. (x.0, x.1.now)) result (thumb_at method bytes.now) }
    ensures within { Within (λ x. x.1.now) bytes.now result }
{
    let (thumb, rest) = read_counted8(alloc, bytes)?;
    if !is_thumb_of(method, &thumb) {
        return Err(FieldFault::Left(bytes.len()));
    }
    Ok((thumb, rest))
}

fn is_thumb_of(method: Method, thumb: &Bytes) -> bool
    ensures { result ≡ is_thumb_of method thumb.now }
{
    match method {
        Method::DnsChange | Method::WebChange => thumb.len() == 0,
        Method::AcmeHttp => true,
    }
}

pub fn copied_challenge(
    alloc: Global,
    key: &Bytes,
    order: u64,
    method: Method,
    target: &Target,
    value: Sixteen,
    thumb: &Bytes,
) -> Result<What, NoMemory>
    ensures { IfOk result (λ what. what ≡ Challenge key.now order method target.now value thumb.now) }
{
    Ok(What::Challenge {
        key: key.copied(alloc)?,
        order,
        method,
        target: target.copied(alloc)?,
        value,
        thumb: thumb.copied(alloc)?,
    })
}

/// Whether what an entry says is this challenge.
pub fn is_challenge(
    what: &What,
    key: &Bytes,
    order: u64,
    method: Method,
    target: &Target,
    value: Sixteen,
    thumb: &Bytes,
) -> bool
    ensures { IsTrue result ↔ (Challenge key.now order method target.now value thumb.now ≡ what.now) }
{
    match what {
        What::Challenge {
            key: other_key,
            order: other_order,
            method: other_method,
            target: other_target,
            value: other_value,
            thumb: other_thumb,
        } => {
            order == *other_order
                && method == *other_method
                && value == *other_value
                && key.is_same(other_key)
                && target.is_same(other_target)
                && thumb.is_same(other_thumb)
        }
        _ => false,
    }
}
