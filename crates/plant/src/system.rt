//! The system's clock and random bytes. They tell nothing of what they give.

use crate::clock::Clock;
use crate::entropy::Entropy;
use crate::fault::{ClockFault, EntropyFault};
use gate_base::Sixteen;
use std::random::RandomSource;
use std::rt;
use std::time::{SystemTime, UNIX_EPOCH};

pub struct SystemClock<'a, R: rt::Clock> {
    rt: &'a R,
    faults: u64,
}

impl<R: rt::Clock> Drop for SystemClock<'_, R> {
    fn drop(self) {
        let SystemClock { rt: _, faults: _ } = self;
    }
}

impl<'a, R: rt::Clock> SystemClock<'a, R> {
    pub fn new(rt: &'a R) -> SystemClock<'a, R> {
        SystemClock { rt, faults: 0 }
    }
}

impl<R: rt::Clock> Clock for SystemClock<'_, R> {
    ghost use Rattle.std.specs.Prelude.{None};

    ghost told = { λ c. record { coming = None; faults = c.faults } };

    fn now(&mut self) -> Result<u64, ClockFault> {
        match seconds(self.rt) {
            Some(seconds) => Ok(seconds),
            None => {
                self.faults = self.faults.saturating_add(1);
                Err(ClockFault)
            }
        }
    }
}

/// Seconds since 1970, where the clock answers and isn't before.
fn seconds(rt: &impl rt::Clock) -> Option<u64> {
    let now = SystemTime::now(rt).ok()?;
    let since = now.duration_since(UNIX_EPOCH).ok()?;
    Some(since.as_secs())
}

pub struct SystemEntropy<'a, R: RandomSource> {
    rt: &'a R,
    faults: u64,
}

impl<R: RandomSource> Drop for SystemEntropy<'_, R> {
    fn drop(self) {
        let SystemEntropy { rt: _, faults: _ } = self;
    }
}

impl<'a, R: RandomSource> SystemEntropy<'a, R> {
    pub fn new(rt: &'a R) -> SystemEntropy<'a, R> {
        SystemEntropy { rt, faults: 0 }
    }
}

impl<R: RandomSource> Entropy for SystemEntropy<'_, R> {
    ghost use Rattle.std.specs.Prelude.{None};

    ghost told = { λ e. record { coming = None; faults = e.faults } };

    fn draw16(&mut self) -> Result<Sixteen, EntropyFault> {
        let mut bytes = [0; 16];
        match self.rt.fill_bytes(&mut bytes) {
            Ok(()) => Ok(Sixteen(bytes)),
            Err(_) => {
                self.faults = self.faults.saturating_add(1);
                Err(EntropyFault)
            }
        }
    }
}
