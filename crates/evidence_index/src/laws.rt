ghost use Rattle.std.specs.Prelude.{◌≡◌, ℕ, List, Some, true, slice_get};
ghost use Rattle.std.specs.Option.{IsSomeAnd};
ghost use Rattle.gate_settings.specs.declared.settings.Settings.{Settings as SettingsValue};
ghost use Rattle.gate_settings.specs.Meaning.{IsReadable, settings_of};
ghost use Rattle.gate_entries.specs.declared.entry.Entry.{Entry as EntryValue};
ghost use Rattle.evidence_index.specs.Lookups.{is_settings, settings_bytes, settings_now};
ghost use Rattle.evidence_index.specs.Noting.{AreSound};

/// Where entries begin with settings, some are in force, and they are readable if all settings are. The settings in force are those
/// that their bytes say.
pub fn some_settings_are_in_force()
    ensures some { (entries : List EntryValue) → AreSound entries → IsSomeAnd (slice_get entries 0) (λ entry. is_settings entry.what ≡ true)
        → (bytes : List ℕ) × (settings_bytes entries ≡ Some bytes) × IsReadable bytes }
    ensures said { (entries : List EntryValue) (settings : SettingsValue) → settings_now entries ≡ Some settings
        → (bytes : List ℕ) × (settings_bytes entries ≡ Some bytes) × (settings_of bytes ≡ Some settings) }
    ensures now { (entries : List EntryValue) (bytes : List ℕ) (settings : SettingsValue) → settings_bytes entries ≡ Some bytes
        → settings_of bytes ≡ Some settings → settings_now entries ≡ Some settings }
{}
