ghost use Rattle.std.specs.Prelude.{◌≡◌, ◌++◌, OnOk, OnErr};
ghost use Rattle.gate_entries.specs.Spelling.{what_bytes, entry_bytes, IsWhat, IsEntry};

use crate::blocked::put_blocked;
use crate::caa_answer::put_caa;
use crate::challenge::put_challenge;
use crate::entry::{Entry, What};
use crate::field::{put_counted16, put_counted32, put_u64};
use crate::kind::put_kind;
use crate::numbered::put_numbered;
use crate::observation::put_observation;
use crate::order::put_order;
use gate_base::NoMemory;

/// Appends the one spelling of an entry.
pub fn write_entry(e: &Entry, out: &mut Vec<u8>) -> Result<(), NoMemory>
    requires { IsEntry e.now }
    ensures ok { OnOk result (out.new.items ≡ out.old.items ++ entry_bytes e.now) }
    ensures err { OnErr result (out.new.items ≡ out.old.items) }
{
    let mut spelled = Vec::new(*out.allocator());
    put_entry(e, &mut spelled)?;
    out.extend_from_slice(&spelled)?;
    Ok(())
}

fn put_entry(e: &Entry, out: &mut Vec<u8>) -> Result<(), NoMemory>
    requires { IsEntry e.now }
    ensures ok { OnOk result (out.new.items ≡ out.old.items ++ entry_bytes e.now) }
{
    put_kind(&e.what, out)?;
    put_u64(e.number, out)?;
    put_u64(e.moment.0, out)?;
    put_counted16(&e.caller, out)?;
    put_what(&e.what, out)?;
    Ok(())
}

fn put_what(what: &What, out: &mut Vec<u8>) -> Result<(), NoMemory>
    requires { IsWhat what.now }
    ensures ok { OnOk result (out.new.items ≡ out.old.items ++ what_bytes what.now) }
{
    match what {
        What::Settings { bytes } => put_counted32(bytes, out),
        What::Order {
            key,
            common,
            days,
            targets,
            request,
        } => put_order(key, *common, *days, targets, request, out),
        What::Challenge {
            key,
            order,
            method,
            target,
            value,
            thumb,
        } => put_challenge(key, *order, *method, target, *value, thumb, out),
        What::Observation {
            key,
            challenge,
            seen_at,
            seen,
        } => put_observation(key, *challenge, *seen_at, seen, out),
        What::CaaAnswer {
            key,
            order,
            target,
            seen_at,
            answers,
        } => put_caa(key, *order, target, *seen_at, answers, out),
        What::Send { order, body } => put_numbered(*order, body, out),
        What::Signed { order, signature } => put_numbered(*order, signature, out),
        What::Blocked { key, spki } => put_blocked(key, spki, out),
    }
}
