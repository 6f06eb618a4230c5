ghost use Rattle.std.specs.Prelude.{◌≡◌, ◌≤◌, ℕ, List, length, Ok};
ghost use Rattle.gate_base.specs.declared.name.Name.{Name};
ghost use Rattle.names_core.specs.Name.{name_read};
ghost use Rattle.names_core.specs.Target.{IsName, name_text};

/// A name that is read from some text is read from its own text again, which has at most 253 bytes.
pub fn names_are_read_again()
    ensures again { (text : List ℕ) (name : Name) → name_read text ≡ Ok name → IsName name }
    ensures few { (name : Name) → IsName name → length (name_text name) ≤ 253 }
{}
