ghost use Rattle.std.specs.Prelude.{◌≡◌};
ghost use Rattle.gate_entries.specs.declared.entry.Entry.{Entry as EntryValue};
ghost use Rattle.gate_entries.specs.Spelling.{entry_bytes, IsEntry};

/// No two entries have one spelling.
pub fn one_spelling()
    ensures { (left right : EntryValue) → IsEntry left → IsEntry right → entry_bytes left ≡ entry_bytes right → left ≡ right }
{}
