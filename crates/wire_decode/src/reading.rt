//! Which command the body of a message says.
ghost use Rattle.std.specs.Prelude.{◌≡◌, IfOk};
ghost use Rattle.serde_json.specs.View.{view};
ghost use Rattle.gate_entries.specs.Command.{HasNames, IsCommand};
ghost use Rattle.wire_decode.specs.Decode.{Fitted, command_in, members_in};
ghost use Rattle.wire_decode.specs.Judgement.{viewed};
ghost use Rattle.wire_decode.specs.Words as spec;

use crate::answers::caa_in;
use crate::judged::Judged;
use crate::observations::observation_in;
use crate::orders::{block_in, challenge_in, order_in};
use crate::route::Route;
use crate::rule::Rule;
use gate_base::NoMemory;
use gate_entries::Command;
use serde_json::Value;
use std::alloc::Global;

#[tactic(auto, using(crate::proofs::JsonLemmas::json_of_read, crate::proofs::JsonLemmas::no_json))]
fn json_of(alloc: Global, bytes: &[u8]) -> Result<Judged<Value>, NoMemory>
    ensures { IfOk result (λ read. viewed view read ≡ spec.json_of bytes.now) }
{
    match Value::from_slice(alloc, bytes) {
        Ok(value) => Ok(Ok(value)),
        Err(fault) if fault.is_memory() => Err(NoMemory),
        Err(_) => Ok(Err(Rule::W01)),
    }
}

/// What a body says by its route; one that is sent to a route without one is not judged.
fn command_in(alloc: Global, route: Route, body: &[u8]) -> Result<Judged<Command>, NoMemory>
    ensures exact { IfOk result (λ read. read ≡ command_in route body.now) }
    ensures names { IfOk result (λ read. IfOk read HasNames) }
{
    if let Route::Finalize { order } = route {
        return Ok(Ok(Command::Finalize { order }));
    }
    match json_of(alloc, body)? {
        Ok(value) => members_in(alloc, route, &value),
        Err(rule) => Ok(Err(rule)),
    }
}

/// What the members of a body say.
fn members_in(alloc: Global, route: Route, body: &Value) -> Result<Judged<Command>, NoMemory>
    ensures exact { IfOk result (λ read. read ≡ members_in route (view body.now)) }
    ensures names { IfOk result (λ read. IfOk read HasNames) }
{
    match route {
        Route::Orders => order_in(alloc, body),
        Route::Challenges { order } => challenge_in(alloc, order, body),
        Route::Finalize { order } => Ok(Ok(Command::Finalize { order })),
        Route::Observations => observation_in(alloc, body),
        Route::Caa => caa_in(alloc, body),
        Route::Blocks => block_in(alloc, body),
    }
}

/// The command, where an entry can spell its sizes.
fn fitted(read: Judged<Command>) -> Judged<Command>
    requires { IfOk read HasNames }
    ensures fits { Fitted read result }
    ensures command { IfOk result IsCommand }
{
    let command = read?;
    if command.fits() {
        Ok(command)
    } else {
        Err(Rule::W06)
    }
}

/// The command that a body says by its route, or the first rule that it breaks.
pub fn read_command(alloc: Global, route: Route, body: &[u8]) -> Result<Judged<Command>, NoMemory>
    ensures exact { IfOk result (λ read. Fitted (command_in route body.now) read) }
    ensures command { IfOk result (λ read. IfOk read IsCommand) }
{
    let read = command_in(alloc, route, body)?;
    Ok(fitted(read))
}
