//! What holds of all histories, moves and steps, for the proofs above.
ghost use Rattle.std.specs.Prelude.{◌≡◌, ◌≢◌, ℕ, ◌+◌, List, [], ◌∷◌, ◌++◌, None, true, slice_get};
ghost use Rattle.std.specs.Option.{IsSomeAnd};
ghost use Rattle.gate_settings.specs.Meaning.{IsReadable};
ghost use Rattle.evidence_index.specs.Lookups.{is_settings};
ghost use Rattle.evidence_index.specs.Noting.{AreSound};
ghost use Rattle.gate_entries.specs.Command.{settings_entry};
ghost use Rattle.gate_machine.specs.Answer.{IsInRange};
ghost use Rattle.gate_machine.specs.Commands.Settings.{AreInForce};
ghost use Rattle.gate_machine.specs.Renewal.{first_history};
ghost use Rattle.plant.specs.Causes.{Rose};
ghost use Rattle.gate_entries.specs.declared.entry.Entry.{Entry as EntryValue};
ghost use Rattle.gate_entries.specs.declared.caller.Caller.{Caller as CallerValue};
ghost use Rattle.gate_entries.specs.declared.command.Command.{Command as CommandValue};
ghost use Rattle.gate_entries.specs.declared.reply.Reply.{Reply as ReplyValue};
ghost use Rattle.gate_entries.specs.declared.reply.Reply.TheVariants as replies;
ghost use Rattle.gate_entries.specs.Spelling.{IsEntry};
ghost use Rattle.gate_machine.specs.Move.{Held as HeldValue, Given as GivenValue, IsSound, Extends, HasFaults, Goes, Moves};
ghost use Rattle.gate_machine.specs.Step.{State as StateValue, Item as ItemValue, Handles, Steps, Counted, IsRecorded, bodies_of};
ghost use Rattle.gate_machine.specs.Sends.{is_send_for, order_in, body_in, signed_entry, Within, IsGoodBody, HasOneBodyEach};
ghost use Rattle.gate_machine.specs.Serials.{HasOneOrderEach};
ghost use Rattle.gate_machine.specs.History.{IsSignature, entry_total, journal_place, Follows, EachFollows, Legal};

use evidence_index::some_settings_are_in_force;
use journal_core::one_group_more;

/// A history with one entry more.
pub fn one_entry_more()
    ensures each { (history : List EntryValue) (entry : EntryValue) → EachFollows [] history → Follows history entry → EachFollows [] (history ++ entry ∷ []) }
    ensures legal { (history : List EntryValue) (entry : EntryValue) → Legal history → Follows history entry → Legal (history ++ entry ∷ []) }
    ensures place { (history : List EntryValue) (entry : EntryValue) → journal_place (history ++ entry ∷ []) ≡ journal_place history + entry_total entry }
{
    one_group_more();
}

/// A move extends the history and keeps it legal; each fault that it tells was given, and nothing becomes loose without a fault of
/// the disk. Another journal is told only where an entry was loose.
pub fn what_a_move_keeps()
    ensures extends { (old : HeldValue) (caller : CallerValue) (command : CommandValue) (given : GivenValue) (reply : ReplyValue) (new : HeldValue) →
        Moves old caller command given reply new → Extends old.history new.history }
    ensures sound { (old : HeldValue) (caller : CallerValue) (command : CommandValue) (given : GivenValue) (reply : ReplyValue) (new : HeldValue) →
        Moves old caller command given reply new → IsSound old → IsSound new }
    ensures faults { (old : HeldValue) (caller : CallerValue) (command : CommandValue) (given : GivenValue) (reply : ReplyValue) (new : HeldValue) →
        Moves old caller command given reply new → HasFaults given reply }
    ensures settled { (old : HeldValue) (caller : CallerValue) (command : CommandValue) (given : GivenValue) (reply : ReplyValue) (new : HeldValue) →
        Moves old caller command given reply new → reply ≢ replies.DiskFault → old.loose ≡ None → new.loose ≡ None }
    ensures native { (history : List EntryValue) (caller : CallerValue) (command : CommandValue) (given : GivenValue) (reply : ReplyValue) (new : HeldValue) →
        Goes history caller command given reply new → (at : ℕ) → reply ≢ replies.JournalBad at }
{}

/// Steps extend the history and keep it legal, what was sent stays recorded, each object's count of faults rose by as many as were
/// told, and nothing becomes loose without a fault of the disk.
pub fn what_steps_keep()
    ensures more { (old mid new : StateValue) (items : List ItemValue) (item : ItemValue) → Steps old items mid → Handles mid item new
        → Steps old (items ++ item ∷ []) new }
    ensures extends { (old : StateValue) (items : List ItemValue) (new : StateValue) → Steps old items new → Extends old.held.history new.held.history }
    ensures sound { (old : StateValue) (items : List ItemValue) (new : StateValue) → Steps old items new → IsSound old.held → IsSound new.held }
    ensures recorded { (old : StateValue) (items : List ItemValue) (new : StateValue) → Steps old items new
        → IsRecorded old.outside.signer old.held.history → IsRecorded new.outside.signer new.held.history }
    ensures counted { (old : StateValue) (items : List ItemValue) (new : StateValue) → Steps old items new → Counted old items new }
    ensures settled { (old : StateValue) (items : List ItemValue) (new : StateValue) → Steps old items new → old.held.loose ≡ None
        → (Rose old.disk_faults new.disk_faults → ⊥) → new.held.loose ≡ None }
{}

/// What has entries of its own in a history has them in a longer one, and there is one more for a body that is sent.
#[tactic(auto, using(crate::proofs::Recorded::within_entries, crate::proofs::Recorded::within_sent))]
pub fn what_is_sent_is_recorded()
    ensures more { (sent : List (List ℕ)) (history more : List EntryValue) → Within sent (bodies_of history) → Within sent (bodies_of (history ++ more)) }
    ensures sends { (sent : List (List ℕ)) (history : List EntryValue) (entry : EntryValue) → is_send_for (order_in entry.what) entry.what ≡ true
        → Within sent (bodies_of history) → Within (sent ++ body_in entry.what ∷ []) (bodies_of (history ++ entry ∷ [])) }
{}

/// A legal history begins with settings, some are in force in it, and those are readable. What it keeps is sound: its settings are
/// readable, and what was seen was seen before the year 36,000.
pub fn settings_come_into_force()
    ensures first { (history : List EntryValue) → Legal history → IsSomeAnd (slice_get history 0) (λ entry. is_settings entry.what ≡ true) }
    ensures last { (history : List EntryValue) → Legal history → (bytes : List ℕ) × AreInForce bytes history × IsReadable bytes }
    ensures sound { (history : List EntryValue) → EachFollows [] history → AreSound history }
{
    some_settings_are_in_force();
}

/// Readable settings may stand alone, at a moment that a clock may give.
pub fn settings_begin_a_history()
    ensures { (moment : ℕ) (bytes : List ℕ) → IsEntry (settings_entry 1 (record { 0 = moment }) bytes) → IsInRange moment → IsReadable bytes
        → Legal (first_history moment bytes) }
{}

/// Every front of a legal history but the empty one is legal.
#[tactic(auto, using(crate::proofs::Histories::legal_front))]
pub fn fronts_are_legal()
    ensures { (front rest : List EntryValue) → Legal (front ++ rest) → front ≢ [] → Legal front }
{}

/// Two bodies with the same serial number were sent for the same order.
pub fn a_serial_number_has_one_order()
    ensures { (history : List EntryValue) → EachFollows [] history → HasOneOrderEach history }
{}

/// All bodies that were sent for an order are its one body, the first that was sent.
pub fn an_order_has_one_body()
    ensures { (history : List EntryValue) → EachFollows [] history → HasOneBodyEach history }
{}

/// A body that may be sent isn't empty and has a serial number of sixteen bytes; a number of two bytes counts it.
pub fn a_body_has_a_serial_number()
    ensures { (before : List EntryValue) (entry : EntryValue) → EachFollows [] before → Follows before entry → is_send_for (order_in entry.what) entry.what ≡ true
        → IsGoodBody (body_in entry.what) }
{}

/// A signature may come directly behind what was sent.
pub fn a_signature_follows()
    ensures { (before : List EntryValue) (entry : EntryValue) (signature : List ℕ) → Legal before → Follows before entry
        → is_send_for (order_in entry.what) entry.what ≡ true → IsSignature signature → IsEntry (signed_entry entry signature)
        → Follows (before ++ entry ∷ []) (signed_entry entry signature) }
{}
