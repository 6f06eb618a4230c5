//! The payloads that the bytes of a file say.
ghost use Rattle.std.specs.Prelude.{◌≡◌, ℕ, ◌+◌, ◌*◌, ◌≤◌, ◌∷◌, [], ◌++◌, length, IfOk, IfErr, OnOk};
ghost use Rattle.journal_core.specs.Journal.{no_chain, chain_after, gate_place};
ghost use Rattle.journal_core.specs.Mounting.{RefusesRest, EndsShut};

use crate::fault::MountFault;
use crate::group::{CHAIN_BYTES, OPEN, first_chain, read_group};
use crate::head::HEAD_BYTES;
use gate_base::{Bytes, NoMemory, Payloads};
use std::alloc::Global;

/// What stands before the first closed gate.
#[derive(Debug, Drop)]
pub struct Groups {
    pub payloads: Payloads,
    /// The place of the closed gate.
    pub at: u64,
    /// The chain of the last group.
    pub chain: [u8; CHAIN_BYTES],
}

fn push_payload(alloc: Global, payloads: &mut Payloads, payload: &[u8]) -> Result<(), NoMemory>
    ensures { OnOk result (payloads.new ≡ payloads.old ++ payload.now ∷ []) }
{
    payloads.push(Bytes::from_slice(alloc, payload)?)
}

/// The groups at the front of the bytes behind the head, up to the first closed gate.
pub fn read_groups(alloc: Global, bytes: &[u8]) -> Result<Groups, MountFault>
    requires some { 1 ≤ length bytes.now }
    requires fits { 16 + length bytes.now ≤ 67_108_864 }
    ensures ends { IfOk result (λ found. EndsShut found.payloads bytes.now) }
    ensures place { IfOk result (λ found. found.at ≡ gate_place found.payloads) }
    ensures chain { IfOk result (λ found. found.chain ≡ chain_after no_chain found.payloads) }
    ensures count { IfOk result (λ found. 38 * length found.payloads ≤ length bytes.now) }
    ensures within { IfOk result (λ found. found.at + 1 ≤ 16 + length bytes.now) }
    ensures fault { IfErr result (λ fault. RefusesRest fault bytes.now) }
{
    let mut payloads = Payloads::new(alloc);
    let mut chain = first_chain();
    let mut rest = bytes;
    while rest[0] == OPEN {
        let (_, behind) = rest.split_at(1);
        match read_group(&chain, behind) {
            Some(group) => {
                push_payload(alloc, &mut payloads, group.payload)?;
                chain = group.chain;
                rest = group.behind;
            }
            None => {
                let at = HEAD_BYTES + (bytes.len() - rest.len());
                return Err(MountFault::BadHead { at: at as u64 });
            }
        }
    }
    let at = HEAD_BYTES + (bytes.len() - rest.len());
    Ok(Groups {
        payloads,
        at: at as u64,
        chain,
    })
}
