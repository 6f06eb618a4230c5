ghost use Rattle.std.specs.Prelude.{◌≡◌, ◌<◌, ◌==◌, [], ◌∷◌, ◌++◌, length, if◌then◌else◌, IfSome, IfNone, IfOk, OnOk, OnErr};
ghost use Rattle.std.specs.List.{join_with_byte, position, slice_split};

use gate_base::{Bytes, NoMemory};
use std::alloc::Global;

fn first_at(bytes: &[u8], byte: u8) -> Option<usize>
    ensures { result ≡ position (λ b. b == byte) bytes.now }
{
    bytes.iter().position(|b| *b == byte)
}

/// What stands before the first such byte, and what behind it.
pub fn cut_at(bytes: &[u8], byte: u8) -> Option<(&[u8], &[u8])>
    ensures parts { IfSome result (λ parts. slice_split (λ b. b == byte) bytes.now ≡ parts.0.now ∷ slice_split (λ b. b == byte) parts.1.now) }
    ensures shorter { IfSome result (λ parts. length parts.1.now < length bytes.now) }
    ensures whole { IfNone result (slice_split (λ b. b == byte) bytes.now ≡ bytes.now ∷ []) }
{
    match first_at(bytes, byte) {
        Some(at) => Some((&bytes[..at], &bytes[at + 1..])),
        None => None,
    }
}

pub fn append(out: &mut Vec<u8>, piece: &[u8]) -> Result<(), NoMemory>
    ensures ok { OnOk result (out.new.items ≡ out.old.items ++ piece.now) }
    ensures err { OnErr result (out.new.items ≡ out.old.items) }
{
    out.extend_from_slice(piece)?;
    Ok(())
}

fn append_part(out: &mut Vec<u8>, at: usize, byte: u8, part: &[u8]) -> Result<(), NoMemory>
    ensures { OnOk result (out.new.items ≡ out.old.items ++ (if at == 0 then [] else byte ∷ []) ++ part.now) }
{
    if at > 0 {
        out.push(byte)?;
    }
    append(out, part)
}

/// The parts in a row, with the byte between each two.
pub fn joined(alloc: Global, parts: &[Bytes], byte: u8) -> Result<Vec<u8>, NoMemory>
    ensures { IfOk result (λ text. text.items ≡ join_with_byte byte parts.now) }
{
    let mut text = Vec::new(alloc);
    for (at, part) in parts.iter().enumerate() {
        append_part(&mut text, at, byte, part.as_slice())?;
    }
    Ok(text)
}
