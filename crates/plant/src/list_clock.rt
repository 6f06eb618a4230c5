ghost use Rattle.std.specs.Prelude.{◌≡◌};

use crate::clock::Clock;
use crate::fault::ClockFault;
use gate_base::Sequence;
use std::marker::Model;

/// Readings in order; None is a fault.
pub type Readings = Sequence<Option<u64>>;

/// A clock that gives a list of readings, and then its last one for ever.
#[derive(Debug, Drop)]
pub struct ListClock {
    readings: Readings,
    next: usize,
    faults: u64,
}

impl Model for ListClock {
    ghost use Rattle.std.specs.Prelude.{Some, drop};
    ghost use Rattle.plant.specs.Clock.{ClockTold};

    ghost Value = { ClockTold };

    ghost view = { λ c. record { coming = Some (drop c.next c.readings); faults = c.faults } };
}

impl ListClock {
    ghost use Rattle.std.specs.Prelude.{Some};

    pub fn new(readings: Readings) -> ListClock
        ensures { result ≡ record { coming = Some readings; faults = 0 } }
    {
        ListClock {
            readings,
            next: 0,
            faults: 0,
        }
    }
}

impl Clock for ListClock {
    ghost told = { λ c. c };

    fn now(&mut self) -> Result<u64, ClockFault> {
        let reading = self.readings.as_slice().get(self.next).copied();
        if self.next < self.readings.len().saturating_sub(1) {
            self.next += 1;
        }
        match reading {
            Some(Some(seconds)) => Ok(seconds),
            Some(None) | None => {
                self.faults = self.faults.saturating_add(1);
                Err(ClockFault)
            }
        }
    }
}
