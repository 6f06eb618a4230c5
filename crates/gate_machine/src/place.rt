//! Where the next entry stands.
ghost use Rattle.std.specs.Prelude.{◌≡◌};
ghost use Rattle.gate_machine.specs.Answer.{IsInRange};
ghost use Rattle.gate_machine.specs.History.{Legal, IsNextPlace};
ghost use Rattle.gate_machine.specs.Sight as sight;

use gate_base::Moment;
use gate_entries::Entry;

/// The first moment that a clock may give, 2025-09-15T00:00:00Z.
pub const FIRST_MOMENT: u64 = 1_757_894_400;

/// The last one, 2099-12-31T23:59:59Z.
pub const LAST_MOMENT: u64 = 4_102_444_799;

/// The number and the moment of an entry.
#[derive(Clone, Copy, Debug)]
pub struct Place {
    pub number: u64,
    pub moment: Moment,
}

/// The moment of the last entry; 0 where there is none.
pub fn last_moment(history: &[Entry]) -> u64
    ensures { result ≡ sight.moment_of history.now }
{
    match history.last() {
        Some(entry) => entry.moment.0,
        None => 0,
    }
}

/// Behind the last entry, at the reading or at the moment of the last entry where that is later.
#[tactic(auto, using(crate::proofs::Histories::next_place))]
pub fn place_of(history: &[Entry], reading: u64) -> Place
    requires legal { Legal history.now }
    requires in_range { IsInRange reading }
    ensures place { result ≡ sight.place_of history.now reading }
    ensures next { IsNextPlace history.now result }
{
    Place {
        number: history.len() as u64 + 1,
        moment: Moment(reading.max(last_moment(history))),
    }
}
