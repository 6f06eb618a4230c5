ghost use Rattle.std.specs.Prelude.{◌≡◌, ◌↔◌, ◌≤◌, ℕ, List, Some, length, slice_get};
ghost use Rattle.cert_fields.specs.Profile.{IsSoundProfile};
ghost use Rattle.gate_settings.specs.declared.row.CallerRow.{CallerRow as CallerRowValue};
ghost use Rattle.gate_settings.specs.declared.settings.Settings.{Settings as SettingsValue};
ghost use Rattle.gate_settings.specs.Callers.{IsShortRow, with_id, with_token};
ghost use Rattle.gate_settings.specs.Meaning.{IsReadable, Says, settings_of};

/// Bytes say one settings at most, which a function gives; readable bytes say some.
pub fn one_settings()
    ensures one { (bytes : List ℕ) (settings other : SettingsValue) → Says bytes settings → Says bytes other → settings ≡ other }
    ensures exact { (bytes : List ℕ) (settings : SettingsValue) → Says bytes settings ↔ (settings_of bytes ≡ Some settings) }
    ensures some { (bytes : List ℕ) → IsReadable bytes →
        (settings : SettingsValue) × (settings_of bytes ≡ Some settings) × IsSoundProfile settings.profile }
{}

/// Each caller of settings has an id and a token of 1 to 64 bytes, and a thumbprint that is empty or has 43; so have those that are
/// found by an id or by a token.
pub fn each_id_is_short()
    ensures each { (bytes : List ℕ) (settings : SettingsValue) (place : ℕ) (row : CallerRowValue) → settings_of bytes ≡ Some settings
        → slice_get settings.callers place ≡ Some row → IsShortRow row }
    ensures id { (bytes : List ℕ) (settings : SettingsValue) (id : List ℕ) (row : CallerRowValue) → settings_of bytes ≡ Some settings
        → with_id id settings.callers ≡ Some row → IsShortRow row }
    ensures token { (bytes : List ℕ) (settings : SettingsValue) (token : List ℕ) (row : CallerRowValue) → settings_of bytes ≡ Some settings
        → with_token token settings.callers ≡ Some row → IsShortRow row }
{}

/// Readable settings have at most 1,048,576 bytes.
pub fn readable_settings_are_short()
    ensures { (bytes : List ℕ) → IsReadable bytes → length bytes ≤ 1_048_576 }
{}
