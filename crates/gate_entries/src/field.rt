//! Fields of an entry: values with one spelling.
ghost use Rattle.std.specs.Prelude.{◌≡◌, ℕ, ◌<◌, ◌≤◌, ◌^◌, List, ◌∷◌, ◌++◌, length, OnOk};
ghost use Rattle.std.specs.Int.{w8, w16, w32, w64, to_be_bytes};
ghost use Rattle.gate_entries.specs.Field.{counted, Read, Gives, Within, bytes_at, number_at, counted_at, truth_at};
ghost use Rattle.gate_entries.specs.Observation.{text_bytes, text_at, IsText};

use crate::fault::FieldFault;
use gate_base::{Bytes, NoMemory, Sixteen};
use std::alloc::Global;

/// The most bytes or items that are counted by one byte.
pub const MOST_COUNTED8: usize = 255;

/// The most bytes that are counted by two bytes.
pub const MOST_COUNTED16: usize = 65_535;

/// A field that stands in lists.
pub trait Field {
    /// Its bytes.
    ghost spelling: { Self → List ℕ };

    /// Each count in it fits.
    ghost HasSpelling: { Self → Type 0 };

    /// What bytes read as.
    ghost reading: { List ℕ → Read Self };

    /// Appends the field's bytes.
    fn put(&self, out: &mut Vec<u8>) -> Result<(), NoMemory>
        requires { HasSpelling self.now }
        ensures { OnOk result (out.new.items ≡ out.old.items ++ spelling self.now) };

    /// The field at the front, and the bytes behind it.
    fn read(alloc: Global, bytes: &[u8]) -> Result<(Self, &[u8]), FieldFault>
    where
        Self: Sized,
        ensures exact { Gives (λ x. (x.0, x.1.now)) result (reading bytes.now) }
        ensures within { Within (λ x. x.1.now) bytes.now result };

    /// How many bytes the field takes.
    fn len(&self) -> u64
        requires is { HasSpelling self.now }
        requires size { length (spelling self.now) ≤ 2 ^ 40 }
        ensures { result ≡ length (spelling self.now) };
}

/// A text, counted by two bytes.
impl Field for Bytes {
    ghost spelling = { text_bytes };

    ghost HasSpelling = { IsText };

    ghost reading = { text_at };

    fn put(&self, out: &mut Vec<u8>) -> Result<(), NoMemory> {
        put_counted16(self, out)
    }

    #[tactic(auto, unfolding(crate::specs::Observation::text_at))]
    fn read(alloc: Global, bytes: &[u8]) -> Result<(Bytes, &[u8]), FieldFault> {
        read_counted16(alloc, bytes)
    }

    fn len(&self) -> u64 {
        2 + self.as_slice().len() as u64
    }
}

pub fn put_u64(number: u64, out: &mut Vec<u8>) -> Result<(), NoMemory>
    ensures ok { OnOk result (out.new.items ≡ out.old.items ++ to_be_bytes w64 number) }
{
    out.extend_from_slice(&number.to_be_bytes())?;
    Ok(())
}

pub fn put_counted8(bytes: &Bytes, out: &mut Vec<u8>) -> Result<(), NoMemory>
    requires { length bytes.now < 2 ^ 8 }
    ensures ok { OnOk result (out.new.items ≡ out.old.items ++ counted w8 bytes.now) }
{
    out.extend_from_slice(&(bytes.len() as u8).to_be_bytes())?;
    out.extend_from_slice(bytes.as_slice())?;
    Ok(())
}

pub fn put_counted16(bytes: &Bytes, out: &mut Vec<u8>) -> Result<(), NoMemory>
    requires { length bytes.now < 2 ^ 16 }
    ensures ok { OnOk result (out.new.items ≡ out.old.items ++ counted w16 bytes.now) }
{
    out.extend_from_slice(&(bytes.len() as u16).to_be_bytes())?;
    out.extend_from_slice(bytes.as_slice())?;
    Ok(())
}

pub fn put_counted32(bytes: &Bytes, out: &mut Vec<u8>) -> Result<(), NoMemory>
    requires { length bytes.now < 2 ^ 32 }
    ensures ok { OnOk result (out.new.items ≡ out.old.items ++ counted w32 bytes.now) }
{
    out.extend_from_slice(&(bytes.len() as u32).to_be_bytes())?;
    out.extend_from_slice(bytes.as_slice())?;
    Ok(())
}

#[tactic(auto, unfolding(crate::specs::Field::truth_at))]
pub fn read_truth(bytes: &[u8]) -> Result<(bool, &[u8]), FieldFault>
    ensures exact { Gives (λ x. (x.0, x.1.now)) result (truth_at bytes.now) }
    ensures within { Within (λ x. x.1.now) bytes.now result }
{
    match bytes {
        [] => Err(FieldFault::Left(0)),
        [0, rest @ ..] => Ok((false, rest)),
        [1, rest @ ..] => Ok((true, rest)),
        [_, ..] => Err(FieldFault::Left(bytes.len())),
    }
}

pub fn read_counted8(alloc: Global, bytes: &[u8]) -> Result<(Bytes, &[u8]), FieldFault>
    ensures exact { Gives (λ x. (x.0, x.1.now)) result (counted_at w8 bytes.now) }
    ensures within { Within (λ x. x.1.now) bytes.now result }
{
    let (counted, rest) = counted8(bytes)?;
    Ok((Bytes::from_slice(alloc, counted)?, rest))
}

#[tactic(auto, unfolding(crate::specs::Field::counted_at))]
pub fn counted8(bytes: &[u8]) -> Result<(&[u8], &[u8]), FieldFault>
    ensures exact { Gives (λ x. (x.0.now, x.1.now)) result (counted_at w8 bytes.now) }
    ensures within { Within (λ x. x.1.now) bytes.now result }
{
    let (count, rest) = read_u8(bytes)?;
    let count = usize::from(count);
    if rest.len() < count {
        return Err(FieldFault::Left(bytes.len()));
    }
    Ok(rest.split_at(count))
}

pub fn read_counted16(alloc: Global, bytes: &[u8]) -> Result<(Bytes, &[u8]), FieldFault>
    ensures exact { Gives (λ x. (x.0, x.1.now)) result (counted_at w16 bytes.now) }
    ensures within { Within (λ x. x.1.now) bytes.now result }
{
    let (counted, rest) = counted16(bytes)?;
    Ok((Bytes::from_slice(alloc, counted)?, rest))
}

#[tactic(auto, unfolding(crate::specs::Field::counted_at))]
fn counted16(bytes: &[u8]) -> Result<(&[u8], &[u8]), FieldFault>
    ensures exact { Gives (λ x. (x.0.now, x.1.now)) result (counted_at w16 bytes.now) }
    ensures within { Within (λ x. x.1.now) bytes.now result }
{
    let (count, rest) = read_u16(bytes)?;
    let count = usize::from(count);
    if rest.len() < count {
        return Err(FieldFault::Left(bytes.len()));
    }
    Ok(rest.split_at(count))
}

pub fn read_counted32(alloc: Global, bytes: &[u8]) -> Result<(Bytes, &[u8]), FieldFault>
    ensures exact { Gives (λ x. (x.0, x.1.now)) result (counted_at w32 bytes.now) }
    ensures within { Within (λ x. x.1.now) bytes.now result }
{
    let (counted, rest) = counted32(bytes)?;
    Ok((Bytes::from_slice(alloc, counted)?, rest))
}

#[tactic(auto, unfolding(crate::specs::Field::counted_at))]
fn counted32(bytes: &[u8]) -> Result<(&[u8], &[u8]), FieldFault>
    ensures exact { Gives (λ x. (x.0.now, x.1.now)) result (counted_at w32 bytes.now) }
    ensures within { Within (λ x. x.1.now) bytes.now result }
{
    let (count, rest) = read_u32(bytes)?;
    let count = count as usize;
    if rest.len() < count {
        return Err(FieldFault::Left(bytes.len()));
    }
    Ok(rest.split_at(count))
}

pub fn read_u8(bytes: &[u8]) -> Result<(u8, &[u8]), FieldFault>
    ensures exact { Gives (λ x. (x.0, x.1.now)) result (number_at w8 bytes.now) }
    ensures within { Within (λ x. x.1.now) bytes.now result }
{
    if bytes.len() < 1 {
        return Err(FieldFault::Left(bytes.len()));
    }
    let (front, rest) = bytes.split_at(1);
    let number = u8::from_be_bytes([front[0]]);
    Ok((number, rest))
}

pub fn read_u16(bytes: &[u8]) -> Result<(u16, &[u8]), FieldFault>
    ensures exact { Gives (λ x. (x.0, x.1.now)) result (number_at w16 bytes.now) }
    ensures within { Within (λ x. x.1.now) bytes.now result }
{
    if bytes.len() < 2 {
        return Err(FieldFault::Left(bytes.len()));
    }
    let (front, rest) = bytes.split_at(2);
    let number = u16::from_be_bytes([front[0], front[1]]);
    Ok((number, rest))
}

pub fn read_u32(bytes: &[u8]) -> Result<(u32, &[u8]), FieldFault>
    ensures exact { Gives (λ x. (x.0, x.1.now)) result (number_at w32 bytes.now) }
    ensures within { Within (λ x. x.1.now) bytes.now result }
{
    if bytes.len() < 4 {
        return Err(FieldFault::Left(bytes.len()));
    }
    let (front, rest) = bytes.split_at(4);
    let number = u32::from_be_bytes([front[0], front[1], front[2], front[3]]);
    Ok((number, rest))
}

pub fn read_u64(bytes: &[u8]) -> Result<(u64, &[u8]), FieldFault>
    ensures exact { Gives (λ x. (x.0, x.1.now)) result (number_at w64 bytes.now) }
    ensures within { Within (λ x. x.1.now) bytes.now result }
{
    if bytes.len() < 8 {
        return Err(FieldFault::Left(bytes.len()));
    }
    let (front, rest) = bytes.split_at(8);
    let number = u64::from_be_bytes([
        front[0], front[1], front[2], front[3], front[4], front[5], front[6], front[7],
    ]);
    Ok((number, rest))
}

pub fn sixteen(octets: &[u8]) -> [u8; 16]
    requires { length octets.now ≡ 16 }
    ensures { result ≡ octets.now }
{
    let mut all = [0; 16];
    all.copy_from_slice(octets);
    all
}

/// Sixteen bytes.
pub fn read_sixteen(bytes: &[u8]) -> Result<(Sixteen, &[u8]), FieldFault>
    ensures exact { Gives (λ x. (x.0.0, x.1.now)) result (bytes_at 16 bytes.now) }
    ensures within { Within (λ x. x.1.now) bytes.now result }
{
    if bytes.len() < 16 {
        return Err(FieldFault::Left(bytes.len()));
    }
    let (front, rest) = bytes.split_at(16);
    Ok((Sixteen(sixteen(front)), rest))
}
