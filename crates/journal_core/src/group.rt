//! Groups as bytes: four bytes of length, a chain and a payload.
ghost use Rattle.std.specs.Prelude.{◌≡◌, ◌+◌, ◌≤◌, ◌∷◌, [], ◌++◌, length, take, drop, vec_len, vec_capacity, IsOk, IfOk, IfSome, IfNone, OnOk};
ghost use Rattle.std.specs.Int.{w32, to_be_bytes};
ghost use Rattle.journal_core.specs.Journal.{IsPayload, no_chain, chained, group, group_total as group_total_of, length_at_front, LacksGroup};

use crate::head::is_same;
use gate_base::NoMemory;
use sha2::{Digest, Sha256};

/// The greatest length of a payload.
pub const MAX_PAYLOAD: usize = 1_114_112;

/// The byte of an open gate. A gate with any other byte is closed.
pub const OPEN: u8 = 1;

/// The byte that is written as a closed gate.
pub const CLOSED: u8 = 0;

/// The bytes of a group's length.
const LENGTH_BYTES: usize = 4;

/// The bytes of a chain.
pub const CHAIN_BYTES: usize = 32;

/// The bytes of a group and its gate, without the payload.
pub const BARE_BYTES: u64 = 37;

/// The bytes that the group of a payload of this length takes, its gate included.
pub fn group_total(count: u64) -> u64
    requires { count ≤ MAX_PAYLOAD }
    ensures { result ≡ group_total_of count }
{
    BARE_BYTES + count
}

/// The chain before the first group.
#[tactic(auto, unfolding(crate::specs::Journal::no_chain))]
pub fn first_chain() -> [u8; CHAIN_BYTES]
    ensures { result ≡ no_chain }
{
    [0; CHAIN_BYTES]
}

/// The chain of a payload behind a chain.
pub fn chain_of(chain: &[u8], payload: &[u8]) -> [u8; CHAIN_BYTES]
    ensures { result ≡ chained chain.now payload.now }
{
    let mut hasher = Sha256::new();
    hasher.update(chain);
    hasher.update(payload);
    hasher.finalize()
}

/// Writes a group and the closed gate behind it, and tells its chain.
#[tactic(auto, unfolding(crate::specs::Journal::group))]
pub fn push_group(
    bytes: &mut Vec<u8>,
    chain: &[u8],
    payload: &[u8],
) -> Result<[u8; CHAIN_BYTES], NoMemory>
    requires { IsPayload payload.now }
    ensures ok { OnOk result (bytes.new.items ≡ bytes.old.items ++ (group chain.now payload.now ++ 0 ∷ [])) }
    ensures chain { IfOk result (λ next. next ≡ chained chain.now payload.now) }
    ensures capacity { vec_capacity bytes.old ≤ vec_capacity bytes.new }
    ensures succeeds { vec_len bytes.old + (37 + length payload.now) ≤ vec_capacity bytes.old → IsOk result }
{
    let next = chain_of(chain, payload);
    bytes.extend_from_slice(&(payload.len() as u32).to_be_bytes())?;
    bytes.extend_from_slice(&next)?;
    bytes.extend_from_slice(payload)?;
    bytes.push(CLOSED)?;
    Ok(next)
}

/// The number that the four bytes at the front spell.
fn read_number(bytes: &[u8]) -> u32
    requires { 4 ≤ length bytes.now }
    ensures number { result ≡ length_at_front bytes.now }
    ensures spelled { to_be_bytes w32 result ≡ take 4 bytes.now }
{
    u32::from_be_bytes([bytes[0], bytes[1], bytes[2], bytes[3]])
}

/// A group that stands at the front.
#[derive(Debug, Drop)]
pub struct Group<'a> {
    pub payload: &'a [u8],
    pub chain: [u8; CHAIN_BYTES],
    /// The bytes from the next gate on.
    pub behind: &'a [u8],
}

/// The group at the front of the bytes behind an open gate, where one stands.
pub fn read_group<'a>(chain: &[u8], bytes: &'a [u8]) -> Option<Group<'a>>
    ensures payload { IfSome result (λ found. IsPayload found.payload.now) }
    ensures whole { IfSome result (λ found. bytes.now ≡ group chain.now found.payload.now ++ found.behind.now) }
    ensures chain { IfSome result (λ found. found.chain ≡ chained chain.now found.payload.now) }
    ensures gate { IfSome result (λ found. 1 ≤ length found.behind.now) }
    ensures lacks { IfNone result (LacksGroup chain.now bytes.now) }
{
    if bytes.len() < LENGTH_BYTES {
        return None;
    }
    let count = read_number(bytes) as usize;
    let (_, rest) = bytes.split_at(LENGTH_BYTES);
    if count < 1 || count > MAX_PAYLOAD || rest.len() < CHAIN_BYTES + count + 1 {
        return None;
    }
    let (kept, rest) = rest.split_at(CHAIN_BYTES);
    let (payload, behind) = rest.split_at(count);
    let next = chain_of(chain, payload);
    if !is_same(kept, &next) {
        return None;
    }
    Some(Group {
        payload,
        chain: next,
        behind,
    })
}
