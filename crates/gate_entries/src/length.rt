//! How long an entry's spelling is.
ghost use Rattle.std.specs.Prelude.{◌≡◌, ◌≤◌, length};
ghost use Rattle.gate_entries.specs.Spelling.{what_bytes, entry_bytes, IsWhat, IsEntry};

use crate::entry::{Entry, What};
use crate::field::Field;
use crate::list::list_len;

/// How many bytes `write_entry` appends.
#[tactic(auto, unfolding(crate::specs::Spelling::entry_bytes))]
pub fn entry_len(e: &Entry) -> u64
    requires { IsEntry e.now }
    ensures { result ≡ length (entry_bytes e.now) }
{
    19 + e.caller.len() as u64 + what_len(&e.what)
}

fn what_len(what: &What) -> u64
    requires is { IsWhat what.now }
    requires size { length (what_bytes what.now) ≤ 1_114_112 }
    ensures { result ≡ length (what_bytes what.now) }
{
    match what {
        What::Settings { bytes } => 4 + bytes.len() as u64,
        What::Order {
            key,
            targets,
            request,
            ..
        } => 6 + key.len() as u64 + list_len(targets.as_slice()) + request.len() as u64,
        What::Challenge {
            key,
            target,
            thumb,
            ..
        } => 27 + key.len() as u64 + target.len() + thumb.len() as u64,
        What::Observation { key, seen, .. } => 17 + key.len() as u64 + seen.len(),
        What::CaaAnswer {
            key,
            target,
            answers,
            ..
        } => 17 + key.len() as u64 + target.len() + list_len(answers.answers.as_slice()),
        What::Send { body, .. } => 10 + body.len() as u64,
        What::Signed { signature, .. } => 10 + signature.len() as u64,
        What::Blocked { key, spki } => 3 + key.len() as u64 + spki.len() as u64,
    }
}
