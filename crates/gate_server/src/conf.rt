//! The settings' source: its bytes, and the settings that they say.
ghost use Rattle.std.specs.Prelude.{◌≡◌, ◌≤◌, Some, IfOk, IfErr};
ghost use Rattle.gate_settings.specs.Meaning.{settings_of};
ghost use Rattle.gate_server.specs.Conf.{Gave, Accepts, RefusesSettings, most_read};

use crate::status::Status;
use gate_settings::{Settings, SettingsFault, one_settings, read_settings};
use plant::{Source, TakeFault};
use std::alloc::Global;

/// One byte more is read than settings may have.
const MOST_READ: usize = 1_048_577;

/// A piece that the source is asked for.
const PIECE_LEN: usize = 4_096;

/// Readable settings: their bytes, and what they say.
#[derive(Drop)]
pub struct Conf {
    pub bytes: Vec<u8>,
    pub settings: Settings,
}

/// Reads the settings' source to its end, or until it has given more bytes than settings may have.
pub fn read_conf<F: Source>(alloc: Global, conf: &mut F) -> Result<Conf, Status>
    ensures accepts { IfOk result (λ read. Accepts (F.told conf.old) read.bytes.items) }
    ensures says { IfOk result (λ read. settings_of read.bytes.items ≡ Some read.settings) }
    ensures refuses { IfErr result (λ status. RefusesSettings (F.told conf.old) (F.told conf.new) status) }
{
    one_settings();
    let bytes = take_all(alloc, conf)?;
    match read_settings(alloc, &bytes) {
        Ok(settings) => Ok(Conf { bytes, settings }),
        Err(SettingsFault::Rule { rule, item }) => Err(Status::SettingsBad { rule, item }),
        Err(SettingsFault::NoMemory) => Err(Status::NoMemory),
    }
}

/// The bytes up to the source's end, or the first so many.
#[tactic(auto, using(crate::proofs::Taken::consumes_none, crate::proofs::Taken::consumes_more, crate::proofs::Taken::gave_all, crate::proofs::Taken::gave_front))]
fn take_all<F: Source>(alloc: Global, conf: &mut F) -> Result<Vec<u8>, Status>
    ensures gave { IfOk result (λ bytes. Gave (F.told conf.old) bytes.items) }
    ensures refuses { IfErr result (λ status. RefusesSettings (F.told conf.old) (F.told conf.new) status) }
{
    let mut bytes = Vec::new(alloc);
    let mut piece = [0; PIECE_LEN];
    while bytes.len() < MOST_READ {
        let room = PIECE_LEN.min(MOST_READ - bytes.len());
        let count = match conf.take(&mut piece[..room]) {
            Ok(0) => return Ok(bytes),
            Ok(count) => count,
            Err(TakeFault) => return Err(Status::ReadFault { settings: true }),
        };
        if bytes.extend_from_slice(&piece[..count]).is_err() {
            return Err(Status::NoMemory);
        }
    }
    Ok(bytes)
}
