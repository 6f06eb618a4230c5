//! Answers for CAA records, as fields of an entry.
ghost use Rattle.std.specs.Prelude.{◌≡◌, ◌<◌, ◌≤◌, ◌^◌, ◌++◌, ◌↔◌, length, IsTrue};
ghost use Rattle.std.specs.List.{AllByRecursion};
ghost use Rattle.gate_entries.specs.Field.{AreItems, Gives, Within};
ghost use Rattle.gate_entries.specs.CaaAnswer.{row_bytes, answer_bytes, IsRow, IsAnswer, row_at, set_at, answer_at};

use crate::fault::FieldFault;
use crate::field::{
    Field, MOST_COUNTED8, MOST_COUNTED16, put_counted8, put_counted16, read_counted8,
    read_counted16, read_u8, read_u32,
};
use crate::list::{list_len, put_list, read_list};
use gate_base::{Bytes, CaaAnswer, CaaAnswers, CaaRow, CaaRows, NoMemory};
use std::alloc::Global;

impl Field for CaaRow {
    ghost spelling = { row_bytes };

    ghost HasSpelling = { IsRow };

    ghost reading = { row_at };

    fn put(&self, out: &mut Vec<u8>) -> Result<(), NoMemory> {
        out.extend_from_slice(&self.flags.to_be_bytes())?;
        put_counted8(&self.tag, out)?;
        put_counted16(&self.value, out)
    }

    #[tactic(auto, unfolding(crate::specs::CaaAnswer::row_at))]
    fn read(alloc: Global, bytes: &[u8]) -> Result<(CaaRow, &[u8]), FieldFault> {
        let (flags, rest) = read_u8(bytes)?;
        let (tag, rest) = read_counted8(alloc, rest)?;
        let (value, rest) = read_counted16(alloc, rest)?;
        Ok((CaaRow { flags, tag, value }, rest))
    }

    fn len(&self) -> u64 {
        4 + self.tag.len() as u64 + self.value.len() as u64
    }
}

impl Field for CaaAnswer {
    ghost spelling = { answer_bytes };

    ghost HasSpelling = { IsAnswer };

    ghost reading = { answer_at };

    fn put(&self, out: &mut Vec<u8>) -> Result<(), NoMemory> {
        match self {
            CaaAnswer::Failed => {
                out.push(0)?;
                Ok(())
            }
            CaaAnswer::Set { ttl, rows } => {
                out.push(1)?;
                out.extend_from_slice(&ttl.to_be_bytes())?;
                put_list(rows, out)
            }
        }
    }

    #[tactic(auto, unfolding(crate::specs::CaaAnswer::answer_at))]
    fn read(alloc: Global, bytes: &[u8]) -> Result<(CaaAnswer, &[u8]), FieldFault> {
        match bytes {
            [] => Err(FieldFault::Left(0)),
            [0, rest @ ..] => Ok((CaaAnswer::Failed, rest)),
            [1, rest @ ..] => read_set(alloc, rest),
            [_, ..] => Err(FieldFault::Left(bytes.len())),
        }
    }

    fn len(&self) -> u64 {
        match self {
            CaaAnswer::Failed => 1,
            CaaAnswer::Set { rows, .. } => 5 + list_len(rows.as_slice()),
        }
    }
}

#[tactic(auto, unfolding(crate::specs::CaaAnswer::set_at))]
fn read_set(alloc: Global, bytes: &[u8]) -> Result<(CaaAnswer, &[u8]), FieldFault>
    ensures exact { Gives (λ x. (x.0, x.1.now)) result (set_at bytes.now) }
    ensures within { Within (λ x. x.1.now) bytes.now result }
{
    let (ttl, rest) = read_u32(bytes)?;
    let (rows, rest) = read_list::<CaaRow>(alloc, rest)?;
    Ok((CaaAnswer::Set { ttl, rows }, rest))
}

/// Whether each count in the answers fits.
pub fn answers_fit(answers: &CaaAnswers) -> bool
    ensures { IsTrue result ↔ AreItems IsAnswer answers.now }
{
    answers.len() <= MOST_COUNTED8 && each_answer_fits(answers.as_slice())
}

fn each_answer_fits(answers: &[CaaAnswer]) -> bool
    ensures { IsTrue result ↔ AllByRecursion IsAnswer answers.now }
{
    answers.iter().all(|answer| answer_fits(answer))
}

fn answer_fits(answer: &CaaAnswer) -> bool
    ensures { IsTrue result ↔ IsAnswer answer.now }
{
    match answer {
        CaaAnswer::Failed => true,
        CaaAnswer::Set { ttl, rows } => set_fits(*ttl, rows),
    }
}

fn set_fits(ttl: u32, rows: &CaaRows) -> bool
    ensures { IsTrue result ↔ ((ttl < 2 ^ 32) × AreItems IsRow rows.now) }
{
    rows_fit(rows)
}

fn rows_fit(rows: &CaaRows) -> bool
    ensures { IsTrue result ↔ AreItems IsRow rows.now }
{
    rows.len() <= MOST_COUNTED8 && each_row_fits(rows.as_slice())
}

fn each_row_fits(rows: &[CaaRow]) -> bool
    ensures { IsTrue result ↔ AllByRecursion IsRow rows.now }
{
    rows.iter().all(|row| row_fits(row))
}

fn row_fits(row: &CaaRow) -> bool
    ensures { IsTrue result ↔ IsRow row.now }
{
    record_fits(row.flags, &row.tag, &row.value)
}

fn record_fits(flags: u8, tag: &Bytes, value: &Bytes) -> bool
    ensures { IsTrue result ↔ ((flags < 2 ^ 8) × (length tag.now < 2 ^ 8) × (length value.now < 2 ^ 16)) }
{
    tag.len() <= MOST_COUNTED8 && value.len() <= MOST_COUNTED16
}
