ghost use Rattle.std.specs.Result.{result_ok};
ghost use Rattle.plant.specs.Clock.{ClockTold, Reads};

use crate::fault::ClockFault;

/// A clock, in seconds since 1970-01-01T00:00:00Z.
pub trait Clock {
    ghost told: { Self → ClockTold };

    fn now(&mut self) -> Result<u64, ClockFault>
        ensures { Reads (told self.old) (told self.new) (result_ok result) };
}
