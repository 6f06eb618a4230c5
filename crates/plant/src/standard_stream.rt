//! Sources and sinks over any reader and writer of std; they tell what those tell.
ghost use Rattle.std.specs.Prelude.{◌<◌, ◌≤◌, length, take, IfOk, OnOk, OnErr};
ghost use Rattle.std.specs.Io.KnownBytes.{Appends, Keeps};
ghost use Rattle.plant.specs.Stream.{AppendsFront};

use crate::fault::{PutFault, TakeFault};
use crate::stream::{Sink, Source};
use std::io::{self, ErrorKind, Read, Write};

#[derive(Drop)]
pub struct StdSource<R> {
    reader: R,
    last_fault: Option<io::Error>,
    faults: u64,
}

impl<R: Read> StdSource<R> {
    pub fn new(reader: R) -> StdSource<R> {
        StdSource {
            reader,
            last_fault: None,
            faults: 0,
        }
    }

    /// The error of the last read that failed.
    pub fn last_fault(&self) -> Option<io::Error> {
        self.last_fault
    }
}

impl<R: Read> Source for StdSource<R> {
    ghost use Rattle.std.specs.Prelude.{None};

    ghost told = { λ s. record { left = R.remaining s.reader; faults = s.faults } };

    ghost beside = { λ s. record { held = None; faults = 0 } };

    fn take(&mut self, out: &mut [u8]) -> Result<usize, TakeFault> {
        match self.reader.read(out) {
            Ok(count) => Ok(count),
            Err(error) => {
                self.faults = self.faults.saturating_add(1);
                self.last_fault = Some(error);
                Err(TakeFault)
            }
        }
    }
}

#[derive(Drop)]
pub struct StdSink<W> {
    writer: W,
    last_fault: Option<io::Error>,
    faults: u64,
}

impl<W: Write> StdSink<W> {
    pub fn new(writer: W) -> StdSink<W> {
        StdSink {
            writer,
            last_fault: None,
            faults: 0,
        }
    }

    /// The error of the last put that failed.
    pub fn last_fault(&self) -> Option<io::Error> {
        self.last_fault
    }
}

impl<W: Write> Sink for StdSink<W> {
    ghost use Rattle.std.specs.Prelude.{None};

    ghost told = { λ s. record { held = W.contents s.writer; faults = s.faults } };

    ghost beside = { λ s. record { left = None; faults = 0 } };

    fn put(&mut self, bytes: &[u8]) -> Result<(), PutFault> {
        match write_whole(&mut self.writer, bytes) {
            Ok(()) => Ok(()),
            Err(error) => {
                self.faults = self.faults.saturating_add(1);
                self.last_fault = Some(error);
                Err(PutFault)
            }
        }
    }

    fn end(&mut self) {}
}

/// Writes some of the bytes, at least one.
#[tactic(auto, using(crate::proofs::Pieces::none_written))]
fn write_some<W: Write>(writer: &mut W, bytes: &[u8]) -> io::Result<usize>
    ensures some { IfOk result (λ count. (0 < count) × (count ≤ length bytes.now)) }
    ensures ok { IfOk result (λ count. Appends (W.contents writer.old) (W.contents writer.new) (take count bytes.now)) }
    ensures err { OnErr result (Keeps (W.contents writer.old) (W.contents writer.new)) }
{
    match writer.write(bytes) {
        Ok(0) => Err(io::Error::from(ErrorKind::WriteZero)),
        Ok(count) => Ok(count),
        Err(error) => Err(error),
    }
}

/// Writes all the bytes, and hands them on.
#[tactic(auto, using(crate::proofs::Pieces::wrote_more))]
pub fn write_whole<W: Write>(writer: &mut W, bytes: &[u8]) -> io::Result<()>
    ensures ok { OnOk result (Appends (W.contents writer.old) (W.contents writer.new) bytes.now) }
    ensures err { OnErr result (AppendsFront (W.contents writer.old) (W.contents writer.new) bytes.now) }
{
    let mut rest = bytes;
    while !rest.is_empty() {
        match write_some(writer, rest) {
            Ok(count) => rest = rest.split_at(count).1,
            Err(error) => return Err(error),
        }
    }
    match writer.flush() {
        Ok(()) => Ok(()),
        Err(error) => Err(error),
    }
}
