//! Which command of which caller a message is.
ghost use Rattle.std.specs.Prelude.{◌≡◌, IfOk, IfErr, IfSome, option_copied, option_map};
ghost use Rattle.gate_entries.specs.Command.{IsCommand, IsCaller};
ghost use Rattle.wire_decode.specs.Decode as spec;
ghost use Rattle.wire_decode.specs.Decode.{Decodes, HaveIds, IfAsk};

use crate::fault::WireFault;
use crate::reading::read_command;
use crate::routing::find_route;
use gate_base::{Bytes, NoMemory, Plain};
use gate_entries::{Caller, Command};
use gate_settings::{CallerRow, Callers};
use http_frames::Message;
use std::alloc::Global;

/// What a message is.
#[derive(Debug, Drop)]
pub enum Decoded {
    /// A command of a caller.
    Ask(Caller, Command),
    /// The first fault that it has.
    Fault(WireFault),
    NoMemory,
}

/// The command that a message is, and its caller; or the first fault that it has.
pub fn decode(alloc: Global, message: &Message, callers: &Callers) -> Decoded
    ensures exact { Decodes message.now callers.now result }
    // The command's targets and sizes have a spelling in an entry,
    ensures command { IfAsk (λ _ command. IsCommand command) result }
    // and the caller's id has, where the ids of all callers have.
    ensures caller { HaveIds callers.now → IfAsk (λ caller _. IsCaller caller) result }
{
    let Some(route) = find_route(message.method.as_slice(), message.path.as_slice()) else {
        return Decoded::Fault(WireFault::NotFound);
    };
    let Some(row) = row_of(&message.token, callers) else {
        return Decoded::Fault(WireFault::NoCaller);
    };
    let Ok(caller) = caller_from(alloc, row) else {
        return Decoded::NoMemory;
    };
    match read_command(alloc, route, message.body.as_slice()) {
        Ok(Ok(command)) => Decoded::Ask(caller, command),
        Ok(Err(rule)) => Decoded::Fault(WireFault::BadForm(rule.number())),
        Err(NoMemory) => Decoded::NoMemory,
    }
}

/// The row of the caller with this token.
fn row_of<'a>(token: &Option<Bytes>, callers: &'a Callers) -> Option<&'a CallerRow>
    ensures exact { option_copied result ≡ spec.row_of token.now callers.now }
    ensures id { HaveIds callers.now → IfSome result (λ row. IsCaller (spec.caller_from row.now)) }
{
    match token {
        Some(token) => callers.find(token.as_slice()),
        None => None,
    }
}

fn caller_from(alloc: Global, row: &CallerRow) -> Result<Caller, NoMemory>
    ensures { IfOk result (λ caller. caller ≡ spec.caller_from row.now) }
{
    Ok(Caller {
        id: row.id.copied(alloc)?,
        role: row.role,
    })
}
