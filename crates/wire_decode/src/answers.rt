//! The CAA answers that a perspective found.
ghost use Rattle.std.specs.Prelude.{◌≡◌, IfOk};
ghost use Rattle.serde_json.specs.View.{view};
ghost use Rattle.gate_entries.specs.Command.{HasNames};
ghost use Rattle.gate_entries.specs.Target.{IsTarget};
ghost use Rattle.wire_decode.specs.Judgement.{both, judged};
ghost use Rattle.wire_decode.specs.Bodies as spec;

use crate::item::{FromItem, each_at};
use crate::judged::{Judged, both};
use crate::member::{exactly, object_of, u8_at, u32_at, u64_at};
use crate::words::{target_at, text_at};
use gate_base::{Bytes, CaaAnswer, CaaAnswers, CaaRow, CaaRows, CaaSeen, NoMemory, Target};
use gate_entries::Command;
use serde_json::Value;
use std::alloc::Global;

#[tactic(auto, unfolding(crate::specs::Bodies::caa_in))]
pub fn caa_in(alloc: Global, body: &Value) -> Result<Judged<Command>, NoMemory>
    ensures exact { IfOk result (λ read. read ≡ spec.caa_in (view body.now)) }
    ensures names { IfOk result (λ read. IfOk read HasNames) }
{
    let answers = each_at::<CaaAnswer>(alloc, body, "answers")?;
    let key = text_at(alloc, body, "key")?;
    let target = target_at(alloc, body, "name")?;
    let numbers = both(u64_at(body, "order"), u64_at(body, "seen_at"));
    let read = caa_from(answers, key, target, numbers);
    Ok(exactly(body, 5, read))
}

fn caa_from(
    answers: Judged<CaaAnswers>,
    key: Judged<Bytes>,
    target: Judged<Target>,
    numbers: Judged<(u64, u64)>,
) -> Judged<Command>
    requires { IfOk target IsTarget }
    ensures exact { result ≡ judged spec.caa_from (both (both answers key) (both target numbers)) }
    ensures names { IfOk result HasNames }
{
    caa_with(both(both(answers, key), both(target, numbers)))
}

#[tactic(auto, unfolding(crate::specs::Judgement::judged))]
fn caa_with(read: Judged<((CaaAnswers, Bytes), (Target, (u64, u64)))>) -> Judged<Command>
    requires { IfOk read (λ x. IsTarget x.1.0) }
    ensures exact { result ≡ judged spec.caa_from read }
    ensures names { IfOk result HasNames }
{
    match read {
        Ok(((answers, key), (target, (order, seen_at)))) => Ok(Command::ObserveCaa {
            key,
            order,
            target,
            seen_at,
            caa: CaaSeen { answers },
        }),
        Err(rule) => Err(rule),
    }
}

/// An answer; null stands for a question that was not answered.
fn answer_in(alloc: Global, value: &Value) -> Result<Judged<CaaAnswer>, NoMemory>
    ensures { IfOk result (λ read. read ≡ spec.answer_in (view value.now)) }
{
    if value.is_null() {
        return Ok(Ok(CaaAnswer::Failed));
    }
    match object_of(value) {
        Ok(members) => set_members(alloc, members),
        Err(rule) => Ok(Err(rule)),
    }
}

#[tactic(auto, unfolding(crate::specs::Bodies::set_members))]
fn set_members(alloc: Global, value: &Value) -> Result<Judged<CaaAnswer>, NoMemory>
    ensures { IfOk result (λ read. read ≡ spec.set_members (view value.now)) }
{
    let rows = each_at::<CaaRow>(alloc, value, "rows")?;
    let read = set_from(rows, u32_at(value, "ttl"));
    Ok(exactly(value, 2, read))
}

#[tactic(auto, unfolding(crate::specs::Judgement::judged))]
fn set_from(rows: Judged<CaaRows>, ttl: Judged<u32>) -> Judged<CaaAnswer>
    ensures { result ≡ judged spec.set_from (both rows ttl) }
{
    let (rows, ttl) = both(rows, ttl)?;
    Ok(CaaAnswer::Set { ttl, rows })
}

fn row_in(alloc: Global, value: &Value) -> Result<Judged<CaaRow>, NoMemory>
    ensures { IfOk result (λ read. read ≡ spec.row_in (view value.now)) }
{
    match object_of(value) {
        Ok(members) => row_members(alloc, members),
        Err(rule) => Ok(Err(rule)),
    }
}

#[tactic(auto, unfolding(crate::specs::Bodies::row_members))]
fn row_members(alloc: Global, value: &Value) -> Result<Judged<CaaRow>, NoMemory>
    ensures { IfOk result (λ read. read ≡ spec.row_members (view value.now)) }
{
    let flags = u8_at(value, "flags");
    let tag = text_at(alloc, value, "tag")?;
    let found = text_at(alloc, value, "value")?;
    let read = row_from(flags, tag, found);
    Ok(exactly(value, 3, read))
}

#[tactic(auto, unfolding(crate::specs::Judgement::judged))]
fn row_from(flags: Judged<u8>, tag: Judged<Bytes>, value: Judged<Bytes>) -> Judged<CaaRow>
    ensures { result ≡ judged spec.row_from (both flags (both tag value)) }
{
    let (flags, (tag, value)) = both(flags, both(tag, value))?;
    Ok(CaaRow { flags, tag, value })
}

impl FromItem for CaaRow {
    ghost use Rattle.wire_decode.specs.Bodies.{row_in};

    ghost item_in = { row_in };

    ghost IsItem = { λ _. Unit {0} };

    fn from_item(alloc: Global, value: &Value) -> Result<Judged<CaaRow>, NoMemory> {
        row_in(alloc, value)
    }
}

impl FromItem for CaaAnswer {
    ghost use Rattle.wire_decode.specs.Bodies.{answer_in};

    ghost item_in = { answer_in };

    ghost IsItem = { λ _. Unit {0} };

    fn from_item(alloc: Global, value: &Value) -> Result<Judged<CaaAnswer>, NoMemory> {
        answer_in(alloc, value)
    }
}
