//! What a call answered.
ghost use Rattle.std.specs.Prelude.{◌≡◌};

use gate_entries::Reply;
use std::marker::Model;

/// A reply, and how many entries its call added at the end of the history.
#[derive(Debug, Drop)]
pub struct Said {
    pub(crate) reply: Reply,
    pub(crate) wrote: u64,
}

impl Model for Said {
    ghost use Rattle.gate_engine.specs.Gate.{Answered};

    ghost Value = { Answered };

    ghost view = { λ said. record { reply = said.reply; wrote = said.wrote } };

    ghost invariant = { λ said. Unit {0} };
}

impl Said {
    pub fn reply(&self) -> &Reply
        ensures { result.now ≡ self.now.reply }
    {
        &self.reply
    }

    /// How many entries the call added, 0 to 2; one that was loose and came back isn't counted.
    pub fn wrote(&self) -> u64
        ensures { result ≡ self.now.wrote }
    {
        self.wrote
    }
}
