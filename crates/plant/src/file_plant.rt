ghost use Rattle.std.specs.Prelude.{◌≡◌, OnOk};
ghost use Rattle.std.specs.Result.{result_ok};
ghost use Rattle.plant.specs.Causes.{HasCause};

use crate::device::Plant;
use crate::fault::{DiskFault, SignerFault};
use crate::journal_file::{FileFault, JournalFile};
use crate::loopback::sign_at;
use crate::memory_plant::put_stand_in;
use gate_base::Bytes;
use std::net::Net;
use std::rt;

/// What signs.
#[derive(Debug, Drop)]
pub enum Signer {
    /// The stand-in with its secret: SHA-256 of the secret and the body. It is not a real signature.
    StandIn(Bytes),
    /// A device at this port of 127.0.0.1. It takes four bytes of length, high byte first, and the body, answers
    /// two bytes of length and the signature, of 1 to 1,024 bytes, and closes the connection, all in 30 seconds.
    Loopback { port: u16 },
}

/// A file, and what signs. It tells nothing of what the file holds.
pub struct FilePlant<'a, R: Net + rt::Clock> {
    rt: &'a R,
    file: JournalFile,
    last_fault: Option<FileFault>,
    signer: Signer,
    disk_faults: u64,
    signer_faults: u64,
}

impl<R: Net + rt::Clock> Drop for FilePlant<'_, R> {
    fn drop(self) {
        let FilePlant {
            rt: _,
            file: _file,
            last_fault: _,
            signer: _signer,
            disk_faults: _,
            signer_faults: _,
        } = self;
    }
}

impl<'a, R: Net + rt::Clock> FilePlant<'a, R> {
    pub fn new(rt: &'a R, file: JournalFile, signer: Signer) -> FilePlant<'a, R> {
        FilePlant {
            rt,
            file,
            last_fault: None,
            signer,
            disk_faults: 0,
            signer_faults: 0,
        }
    }

    /// Why the last of the calls of the disk that failed did so.
    pub fn last_fault(&self) -> Option<FileFault> {
        self.last_fault
    }
}

/// Counts a fault of the file, and keeps why it came.
fn counted<T: Drop>(
    outcome: Result<T, FileFault>,
    faults: &mut u64,
    last: &mut Option<FileFault>,
) -> Result<T, DiskFault>
    ensures cause { HasCause faults.old faults.new result }
{
    match outcome {
        Ok(value) => Ok(value),
        Err(fault) => {
            *faults = faults.saturating_add(1);
            *last = Some(fault);
            Err(DiskFault)
        }
    }
}

impl<R: Net + rt::Clock> Plant for FilePlant<'_, R> {
    ghost use Rattle.std.specs.Prelude.{None};
    ghost use Rattle.plant.specs.Stops.{no_stops};

    ghost told = { λ p. record {
      disk = record { bytes = None; faults = p.disk_faults };
      signer = record { sent = None; answers = None; faults = p.signer_faults };
    } };

    ghost stops = { λ p. no_stops };

    ghost reads = { λ p bytes told. cc told };

    ghost beside = { λ p image list left. absurd left };

    fn length(&mut self) -> Result<u64, DiskFault> {
        let length = self.file.length();
        counted(length, &mut self.disk_faults, &mut self.last_fault)
    }

    fn read_at(&mut self, at: u64, out: &mut [u8]) -> Result<(), DiskFault> {
        let read = self.file.read_at(at, out);
        counted(read, &mut self.disk_faults, &mut self.last_fault)
    }

    fn write_at(&mut self, at: u64, piece: &[u8]) -> Result<(), DiskFault> {
        let written = self.file.write_at(at, piece);
        counted(written, &mut self.disk_faults, &mut self.last_fault)
    }

    fn sync(&mut self) -> Result<(), DiskFault> {
        let synced = self.file.sync();
        counted(synced, &mut self.disk_faults, &mut self.last_fault)
    }

    fn sign(&mut self, body: &[u8], out: &mut [u8]) -> Result<usize, SignerFault> {
        let signed = match &self.signer {
            Signer::StandIn(secret) => Ok(put_stand_in(secret, body, out)),
            Signer::Loopback { port } => sign_at(self.rt, *port, body, out),
        };
        match signed {
            Ok(count) => Ok(count),
            Err(SignerFault) => {
                self.signer_faults = self.signer_faults.saturating_add(1);
                Err(SignerFault)
            }
        }
    }
}
