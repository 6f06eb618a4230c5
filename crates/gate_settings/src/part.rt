ghost use Rattle.std.specs.Prelude.{◌≡◌};

use gate_base::NoMemory;

/// Why a part of a file gives no value.
#[derive(Clone, Copy, Debug, PartialEq, Eq)]
pub enum PartFault {
    /// It is missing, or isn't as it should be.
    Refused,
    NoMemory,
}

impl From<NoMemory> for PartFault {
    ghost use Rattle.gate_settings.specs.declared.part.PartFault.TheVariants as faults;

    ghost from_gives = { λ _ e. e ≡ faults.NoMemory };

    fn from(_: NoMemory) -> PartFault {
        PartFault::NoMemory
    }
}
