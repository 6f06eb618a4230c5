ghost use Rattle.std.specs.Prelude.{◌≡◌, IfOk};

use gate_base::{Bytes, NoMemory};
use std::alloc::Global;

/// The service region of a regional Internet registry.
#[derive(Clone, Copy, Debug, PartialEq, Eq)]
pub enum Region {
    Afrinic,
    Apnic,
    Arin,
    Lacnic,
    Ripe,
}

/// A place in the network from which control of names is checked.
#[derive(Debug, PartialEq, Eq, Drop)]
pub struct Perspective {
    pub id: Bytes,
    pub primary: bool,
    pub region: Region,
    /// Where it stands, in kilometres from the centre of the earth.
    pub x: i64,
    pub y: i64,
    pub z: i64,
}

impl Perspective {
    /// The same perspective once more.
    pub(crate) fn copied(&self, alloc: Global) -> Result<Perspective, NoMemory>
        ensures { IfOk result (λ copy. copy ≡ self.now) }
    {
        let id = Bytes::from_slice(alloc, self.id.as_slice())?;
        Ok(Perspective {
            id,
            primary: self.primary,
            region: self.region,
            x: self.x,
            y: self.y,
            z: self.z,
        })
    }
}
