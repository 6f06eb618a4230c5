ghost use Rattle.std.specs.Prelude.{◌≡◌};

use crate::entropy::Entropy;
use crate::fault::EntropyFault;
use gate_base::{Sequence, Sixteen};
use std::marker::Model;

/// Draws in order; None is a fault.
pub type Draws = Sequence<Option<Sixteen>>;

/// Random bytes from a list; after its end each draw fails.
#[derive(Debug, Drop)]
pub struct ListEntropy {
    draws: Draws,
    next: usize,
    faults: u64,
}

impl Model for ListEntropy {
    ghost use Rattle.std.specs.Prelude.{Some, drop};
    ghost use Rattle.plant.specs.Entropy.{EntropyTold};

    ghost Value = { EntropyTold };

    ghost view = { λ e. record { coming = Some (drop e.next e.draws); faults = e.faults } };
}

impl ListEntropy {
    ghost use Rattle.std.specs.Prelude.{Some};

    pub fn new(draws: Draws) -> ListEntropy
        ensures { result ≡ record { coming = Some draws; faults = 0 } }
    {
        ListEntropy {
            draws,
            next: 0,
            faults: 0,
        }
    }
}

impl Entropy for ListEntropy {
    ghost told = { λ e. e };

    fn draw16(&mut self) -> Result<Sixteen, EntropyFault> {
        let draw = self.draws.as_slice().get(self.next).copied();
        if self.next < self.draws.len() {
            self.next += 1;
        }
        match draw {
            Some(Some(drawn)) => Ok(drawn),
            Some(None) | None => {
                self.faults = self.faults.saturating_add(1);
                Err(EntropyFault)
            }
        }
    }
}
