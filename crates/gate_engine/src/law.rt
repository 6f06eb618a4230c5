//! What holds of all journals, and of what recovery finds over a run of calls, for those who read what a start or a remount tells.
ghost use Rattle.std.specs.Prelude.{◌≡◌, ◌≢◌, ℕ, List, [], Some};
ghost use Rattle.plant.specs.Joining.{Stays};
ghost use Rattle.journal_core.specs.Journal.{IsJournal};
ghost use Rattle.gate_entries.specs.declared.entry.Entry.{Entry as EntryValue};
ghost use Rattle.gate_machine.specs.History.{payloads_of, Legal};
ghost use Rattle.gate_machine.specs.Move.{Held as HeldValue, IsSound, Settles, Extends};
ghost use Rattle.gate_engine.specs.Engine.{IsBadAt};
ghost use Rattle.gate_engine.specs.Kept.{Stands, IsSentOf, Kept, KeepsBetween, KeepsLegal};
ghost use Rattle.gate_engine.specs.Justified.{JustifiesSince, IsLeftBehind};

use gate_entries::one_spelling;
use gate_machine::{fronts_are_legal, one_entry_more, what_is_sent_is_recorded};
use journal_core::{one_break, one_group_more, one_reading};
use plant::{Plant, runs_join};

/// Bytes are the journal of one legal history at most, and then they are bad at no place.
pub fn one_history()
    ensures one { (bytes : List ℕ) (left right : List EntryValue) → Legal left → Legal right → IsJournal (payloads_of left) bytes
        → IsJournal (payloads_of right) bytes → left ≡ right }
    ensures good { (bytes : List ℕ) (history : List EntryValue) (at : ℕ) → Legal history → IsJournal (payloads_of history) bytes → IsBadAt bytes at → ⊥ }
{
    one_spelling();
    one_reading();
    one_break();
}

/// What a stop leaves is justified where it stays as it was, over a call of the engine, and over two runs, one behind the other.
pub fn what_a_run_keeps<P: Plant>()
    ensures still { (held : HeldValue) (old new : P) → IsSound held → Stands held (P.stops old) → Stays (P.stops old) (P.stops new)
        → JustifiesSince (IsSentOf held.history (P.stops old)) held.history (P.stops old) (P.stops new) }
    ensures legal { (held after : HeldValue) (old new : P) → KeepsLegal (IsSentOf held.history (P.stops old)) held after (P.stops old) (P.stops new)
        → JustifiesSince (IsSentOf held.history (P.stops old)) held.history (P.stops old) (P.stops new) }
    ensures on { (held mid : HeldValue) (old then new : P) → Extends held.history mid.history
        → (IsSentOf held.history (P.stops old) → IsSentOf mid.history (P.stops then))
        → JustifiesSince (IsSentOf held.history (P.stops old)) held.history (P.stops old) (P.stops then)
        → JustifiesSince (IsSentOf mid.history (P.stops then)) mid.history (P.stops then) (P.stops new)
        → JustifiesSince (IsSentOf held.history (P.stops old)) held.history (P.stops old) (P.stops new) }
    // From what a gate left.
    ensures kept { (before : HeldValue) (old new : P) → IsSound before → Kept before (P.stops old) → Stays (P.stops old) (P.stops new)
        → JustifiesSince (Unit {0}) before.history (P.stops old) (P.stops new) }
    ensures begun { (before found : HeldValue) (old then new : P) → IsSound before → Kept before (P.stops old) → Stays (P.stops old) (P.stops then)
        → Settles before found.history → IsSentOf found.history (P.stops then)
        → JustifiesSince (IsSentOf found.history (P.stops then)) found.history (P.stops then) (P.stops new)
        → JustifiesSince (Unit {0}) before.history (P.stops old) (P.stops new) }
    ensures left { (before : HeldValue) (old new : P) → IsSound before → Kept before (P.stops old) → Stays (P.stops old) (P.stops new)
        → IsLeftBehind before.history (P.stops new) }
    // From what a gate left, over a start that mounts and then writes.
    ensures started { (before found after : HeldValue) (old then new : P) → IsSound before → Kept before (P.stops old) → Stays (P.stops old) (P.stops then)
        → Settles before found.history → (IsSentOf before.history (P.stops old) → IsSentOf found.history (P.stops then)) → IsSound after
        → KeepsBetween (IsSentOf found.history (P.stops then)) found.history after (P.stops then) (P.stops new)
        → JustifiesSince (Unit {0}) before.history (P.stops old) (P.stops new) }
    // From what a gate left, over such a start and then over a run of calls.
    ensures asked { (before found : HeldValue) (old then new : P) → Extends before.history found.history → IsSentOf found.history (P.stops then)
        → JustifiesSince (Unit {0}) before.history (P.stops old) (P.stops then)
        → JustifiesSince (IsSentOf found.history (P.stops then)) found.history (P.stops then) (P.stops new)
        → JustifiesSince (Unit {0}) before.history (P.stops old) (P.stops new) }
    // Then the disk isn't empty.
    ensures some { (before : HeldValue) (plant : P) (bytes : List ℕ) → Kept before (P.stops plant) → (P.told plant).disk.bytes ≡ Some bytes → bytes ≢ [] }
{
    one_entry_more();
    fronts_are_legal();
    one_group_more();
    what_is_sent_is_recorded();
    runs_join::<P>();
}
