//! What holds of all journals, for the proofs above.
ghost use Rattle.std.specs.Prelude.{◌≡◌, ℕ, List, ◌+◌, ◌≤◌, ◌⊎◌, [], ◌∷◌, ◌++◌, length, take};
ghost use Rattle.journal_core.specs.Journal.{head, no_chain, IsPayload, IsJournal, HasJournal, JournalState, BreaksAt, begun_of, chained, chain_after, group, opened, gate_place, total_of};
ghost use Rattle.journal_core.specs.Mounting.{Refuses, IsOutside};
ghost use Rattle.journal_core.specs.declared.fault.MountFault.{MountFault as MountFaultValue};

/// Bytes are a journal in one way at most, and then begin with the head.
pub fn one_reading()
    ensures begins { (bytes : List ℕ) (payloads : List (List ℕ)) → IsJournal payloads bytes → take 16 bytes ≡ head }
    ensures one { (bytes : List ℕ) (left right : List (List ℕ)) → IsJournal left bytes → IsJournal right bytes → left ≡ right }
    // A mounted journal's place and chain are given by the bytes too.
    ensures same { (bytes : List ℕ) (one other : JournalState) (left right : List (List ℕ)) → HasJournal one left bytes → HasJournal other right bytes
        → (left ≡ right) × (one.at ≡ other.at) × (one.chain ≡ other.chain) }
{}

/// Bytes that break off do so at one place, and are no journal.
pub fn one_break()
    ensures place { (bytes : List ℕ) (left right : ℕ) → BreaksAt bytes left → BreaksAt bytes right → left ≡ right }
    ensures no_journal { (bytes : List ℕ) (at : ℕ) (payloads : List (List ℕ)) → BreaksAt bytes at → IsJournal payloads bytes → ⊥ }
{}

/// A journal isn't refused, unless the disk fails or memory runs out.
pub fn no_journal_is_refused()
    ensures { (bytes : List ℕ) (payloads : List (List ℕ)) (fault : MountFaultValue) → IsJournal payloads bytes → Refuses fault bytes → IsOutside fault }
{}

/// The groups, the place and the chain of one payload more, the length of a journal, and the journal of one payload.
pub fn one_group_more()
    ensures bytes { (payloads : List (List ℕ)) (payload rest : List ℕ) → opened no_chain (payloads ++ payload ∷ []) ++ rest
        ≡ opened no_chain payloads ++ 1 ∷ (group (chain_after no_chain payloads) payload ++ rest) }
    ensures place { (payloads : List (List ℕ)) (payload : List ℕ) → gate_place (payloads ++ payload ∷ []) ≡ gate_place payloads + total_of payload }
    ensures chain { (payloads : List (List ℕ)) (payload : List ℕ) → chain_after no_chain (payloads ++ payload ∷ []) ≡ chained (chain_after no_chain payloads) payload }
    ensures size { (bytes : List ℕ) (payloads : List (List ℕ)) → IsJournal payloads bytes → gate_place payloads + 1 ≤ length bytes }
    ensures begun { (payload : List ℕ) → IsPayload payload → IsJournal (payload ∷ []) (begun_of payload) }
{}
