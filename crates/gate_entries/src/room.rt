//! A signature's entry, spelled into the room that was made for it.
ghost use Rattle.std.specs.Prelude.{◌≡◌, ◌+◌, ◌<◌, ◌≤◌, ◌^◌, [], ◌∷◌, ◌++◌, length, vec_len, vec_capacity, IsOk, OnOk};
ghost use Rattle.std.specs.Int.{w16, w64, to_be_bytes};
ghost use Rattle.gate_entries.specs.Field.{counted};
ghost use Rattle.gate_entries.specs.Spelling.{entry_bytes};
ghost use Rattle.gate_entries.specs.Command.{entry_with};

use crate::entry::What;
use gate_base::{Moment, NoMemory};

/// The kind of a signature's entry.
const SIGNED: u8 = 7;

/// Puts the spelling of a signature's entry into the room for it. It takes no memory.
#[tactic(auto, unfolding(crate::specs::Spelling::entry_bytes))]
pub fn put_signed(
    number: u64,
    moment: Moment,
    caller: &[u8],
    order: u64,
    signature: &[u8],
    out: &mut Vec<u8>,
)
    requires caller { length caller.now < 2 ^ 16 }
    requires signature { length signature.now < 2 ^ 16 }
    requires empty { out.old.items ≡ [] }
    requires room { length (entry_bytes (entry_with number moment caller.now (What.Signed order signature.now))) ≤ vec_capacity out.old }
    ensures { out.new.items ≡ entry_bytes (entry_with number moment caller.now (What.Signed order signature.now)) }
{
    match push_signed(number, moment, caller, order, signature, out) {
        Ok(()) => {}
        Err(_) => unreachable!(),
    }
}

fn push_signed(
    number: u64,
    moment: Moment,
    caller: &[u8],
    order: u64,
    signature: &[u8],
    out: &mut Vec<u8>,
) -> Result<(), NoMemory>
    requires caller { length caller.now < 2 ^ 16 }
    requires signature { length signature.now < 2 ^ 16 }
    ensures ok { OnOk result (out.new.items ≡ out.old.items ++ ((SIGNED ∷ []) ++ to_be_bytes w64 number ++ to_be_bytes w64 moment.0 ++ counted w16 caller.now
        ++ to_be_bytes w64 order ++ counted w16 signature.now)) }
    ensures succeeds { vec_len out.old + (29 + length caller.now + length signature.now) ≤ vec_capacity out.old → IsOk result }
{
    out.push(SIGNED)?;
    push_u64(number, out)?;
    push_u64(moment.0, out)?;
    push_counted(caller, out)?;
    push_u64(order, out)?;
    push_counted(signature, out)?;
    Ok(())
}

fn push_u64(number: u64, out: &mut Vec<u8>) -> Result<(), NoMemory>
    ensures ok { OnOk result (out.new.items ≡ out.old.items ++ to_be_bytes w64 number) }
    ensures capacity { vec_capacity out.old ≤ vec_capacity out.new }
    ensures succeeds { vec_len out.old + 8 ≤ vec_capacity out.old → IsOk result }
{
    out.extend_from_slice(&number.to_be_bytes())?;
    Ok(())
}

fn push_counted(bytes: &[u8], out: &mut Vec<u8>) -> Result<(), NoMemory>
    requires { length bytes.now < 2 ^ 16 }
    ensures ok { OnOk result (out.new.items ≡ out.old.items ++ counted w16 bytes.now) }
    ensures capacity { vec_capacity out.old ≤ vec_capacity out.new }
    ensures succeeds { vec_len out.old + (2 + length bytes.now) ≤ vec_capacity out.old → IsOk result }
{
    out.extend_from_slice(&(bytes.len() as u16).to_be_bytes())?;
    out.extend_from_slice(bytes)?;
    Ok(())
}
