//! CAA answers in the journal.
ghost use Rattle.std.specs.Prelude.{◌≡◌, ◌++◌, IsTrue, ◌↔◌, IfOk, OnOk};
ghost use Rattle.gate_entries.specs.declared.entry.What.TheVariants as whats;
ghost use Rattle.gate_entries.specs.Field.{Gives, Within};
ghost use Rattle.gate_entries.specs.CaaAnswer.{caa_bytes, IsCaa, caa_at};

use crate::entry::What;
use crate::fault::FieldFault;
use crate::field::{Field, put_counted8, put_u64, read_counted8, read_u64};
use crate::list::{put_list, read_list};
use gate_base::{Bytes, CaaAnswer, CaaSeen, NoMemory, Plain, Target};
use std::alloc::Global;

pub fn put_caa(
    key: &Bytes,
    order: u64,
    target: &Target,
    seen_at: u64,
    caa: &CaaSeen,
    out: &mut Vec<u8>,
) -> Result<(), NoMemory>
    requires { IsCaa key.now order target.now seen_at caa.now }
    ensures { OnOk result (out.new.items ≡ out.old.items ++ caa_bytes key.now order target.now seen_at caa.now) }
{
    put_counted8(key, out)?;
    put_u64(order, out)?;
    target.put(out)?;
    put_u64(seen_at, out)?;
    put_list(&caa.answers, out)
}

#[tactic(auto, unfolding(crate::specs::CaaAnswer::caa_at))]
pub fn read_caa(alloc: Global, bytes: &[u8]) -> Result<(What, &[u8]), FieldFault>
    ensures exact { Gives (λ x. (x.0, x.1.now)) result (caa_at bytes.now) }
    ensures within { Within (λ x. x.1.now) bytes.now result }
{
    let (key, rest) = read_counted8(alloc, bytes)?;
    let (order, rest) = read_u64(rest)?;
    let (target, rest) = Target::read(alloc, rest)?;
    let (seen_at, rest) = read_u64(rest)?;
    let (answers, rest) = read_list::<CaaAnswer>(alloc, rest)?;
    let answer = What::CaaAnswer {
        key,
        order,
        target,
        seen_at,
        answers: CaaSeen { answers },
    };
    Ok((answer, rest))
}

pub fn copied_caa(
    alloc: Global,
    key: &Bytes,
    order: u64,
    target: &Target,
    seen_at: u64,
    caa: &CaaSeen,
) -> Result<What, NoMemory>
    ensures { IfOk result (λ what. what ≡ whats.CaaAnswer key.now order target.now seen_at caa.now) }
{
    Ok(What::CaaAnswer {
        key: key.copied(alloc)?,
        order,
        target: target.copied(alloc)?,
        seen_at,
        answers: caa.copied(alloc)?,
    })
}

/// Whether what an entry says are these CAA answers.
pub fn is_caa(
    what: &What,
    key: &Bytes,
    order: u64,
    target: &Target,
    seen_at: u64,
    caa: &CaaSeen,
) -> bool
    ensures { IsTrue result ↔ (whats.CaaAnswer key.now order target.now seen_at caa.now ≡ what.now) }
{
    match what {
        What::CaaAnswer {
            key: other_key,
            order: other_order,
            target: other_target,
            seen_at: other_seen_at,
            answers: other_caa,
        } => {
            order == *other_order
                && seen_at == *other_seen_at
                && key.is_same(other_key)
                && target.is_same(other_target)
                && caa.is_same(other_caa)
        }
        _ => false,
    }
}
