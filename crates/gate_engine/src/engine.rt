ghost use Rattle.std.specs.Prelude.{◌≡◌, length};

use gate_entries::Entry;
use journal_core::Journal;
use std::alloc::Global;
use std::marker::Model;

/// A history, its journal, and the entry whose commit failed, if there is one.
#[derive(Drop)]
pub struct Engine {
    pub(crate) alloc: Global,
    pub(crate) journal: Journal,
    pub(crate) history: Vec<Entry>,
    pub(crate) loose: Option<Entry>,
}

impl Model for Engine {
    ghost use Rattle.gate_machine.specs.Move.{Held};
    ghost use Rattle.gate_engine.specs.Engine.{Sound};

    ghost Value = { Held };

    ghost view = { λ e. record { history = e.history.items; loose = e.loose } };

    ghost invariant = { λ e. Sound e.journal e.history.items e.loose };
}

impl Engine {
    /// The length of the history, a loose entry left out.
    pub fn count(&self) -> u64
        ensures { result ≡ length self.now.history }
    {
        self.history.len() as u64
    }
}
