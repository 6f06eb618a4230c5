//! What accounts and operators ask: orders, challenges and blocked keys.
ghost use Rattle.std.specs.Prelude.{◌≡◌, IfOk};
ghost use Rattle.serde_json.specs.View.{view};
ghost use Rattle.gate_entries.specs.Command.{HasNames};
ghost use Rattle.gate_entries.specs.Target.{IsTarget};
ghost use Rattle.std.specs.List.{AllByRecursion};
ghost use Rattle.wire_decode.specs.Judgement.{both, judged};
ghost use Rattle.wire_decode.specs.Bodies as spec;

use crate::item::each_at;
use crate::judged::{Judged, both};
use crate::member::{exactly, truth_at, u16_at};
use crate::words::{base64_at, method_at, target_at, text_at};
use gate_base::{Bytes, Method, NoMemory, Target, Targets};
use gate_entries::Command;
use serde_json::Value;
use std::alloc::Global;

#[tactic(auto, unfolding(crate::specs::Bodies::order_in))]
pub fn order_in(alloc: Global, body: &Value) -> Result<Judged<Command>, NoMemory>
    ensures exact { IfOk result (λ read. read ≡ spec.order_in (view body.now)) }
    ensures names { IfOk result (λ read. IfOk read HasNames) }
{
    let terms = both(truth_at(body, "common"), u16_at(body, "days"));
    let key = text_at(alloc, body, "key")?;
    let names = each_at::<Target>(alloc, body, "names")?;
    let request = base64_at(alloc, body, "request")?;
    let read = order_from(terms, key, names, request);
    Ok(exactly(body, 5, read))
}

#[tactic(auto, using(crate::proofs::Judgements::both_said), unfolding(crate::specs::Judgement::judged))]
fn order_from(
    terms: Judged<(bool, u16)>,
    key: Judged<Bytes>,
    names: Judged<Targets>,
    request: Judged<Bytes>,
) -> Judged<Command>
    requires { IfOk names (AllByRecursion IsTarget) }
    ensures exact { result ≡ judged spec.order_from (both terms (both key (both names request))) }
    ensures names { IfOk result HasNames }
{
    let ((common, days), (key, (targets, request))) = both(terms, both(key, both(names, request)))?;
    Ok(Command::Order {
        key,
        targets,
        days,
        common,
        request,
    })
}

#[tactic(auto, unfolding(crate::specs::Bodies::challenge_in))]
pub fn challenge_in(alloc: Global, order: u64, body: &Value) -> Result<Judged<Command>, NoMemory>
    ensures exact { IfOk result (λ read. read ≡ spec.challenge_in order (view body.now)) }
    ensures names { IfOk result (λ read. IfOk read HasNames) }
{
    let key = text_at(alloc, body, "key")?;
    let method = method_at(body, "method");
    let target = target_at(alloc, body, "name")?;
    let read = challenge_from(order, key, method, target);
    Ok(exactly(body, 3, read))
}

fn challenge_from(
    order: u64,
    key: Judged<Bytes>,
    method: Judged<Method>,
    target: Judged<Target>,
) -> Judged<Command>
    requires { IfOk target IsTarget }
    ensures exact { result ≡ judged (spec.challenge_from order) (both key (both method target)) }
    ensures names { IfOk result HasNames }
{
    challenge_with(order, both(key, both(method, target)))
}

#[tactic(auto, unfolding(crate::specs::Judgement::judged))]
fn challenge_with(order: u64, read: Judged<(Bytes, (Method, Target))>) -> Judged<Command>
    requires { IfOk read (λ x. IsTarget x.1.1) }
    ensures exact { result ≡ judged (spec.challenge_from order) read }
    ensures names { IfOk result HasNames }
{
    match read {
        Ok((key, (method, target))) => Ok(Command::Challenge {
            key,
            order,
            target,
            method,
        }),
        Err(rule) => Err(rule),
    }
}

#[tactic(auto, unfolding(crate::specs::Bodies::block_in))]
pub fn block_in(alloc: Global, body: &Value) -> Result<Judged<Command>, NoMemory>
    ensures exact { IfOk result (λ read. read ≡ spec.block_in (view body.now)) }
    ensures names { IfOk result (λ read. IfOk read HasNames) }
{
    let key = text_at(alloc, body, "key")?;
    let spki = base64_at(alloc, body, "spki")?;
    let read = block_from(key, spki);
    Ok(exactly(body, 2, read))
}

#[tactic(auto, unfolding(crate::specs::Judgement::judged))]
fn block_from(key: Judged<Bytes>, spki: Judged<Bytes>) -> Judged<Command>
    ensures exact { result ≡ judged spec.block_from (both key spki) }
    ensures names { IfOk result HasNames }
{
    let (key, spki) = both(key, spki)?;
    Ok(Command::Block { key, spki })
}
