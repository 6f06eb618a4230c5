ghost use Rattle.std.specs.Prelude.{◌≡◌, ℕ, List};
ghost use Rattle.gate_base.specs.declared.profile.KeyKind.{KeyKind};
ghost use Rattle.public_key.specs.Key.{IsKeyOf};

use der_text::what_is_spelled_is_read;

/// Bytes spell a key of one kind at most.
pub fn one_kind()
    ensures { (bytes : List ℕ) (kind other : KeyKind) → IsKeyOf bytes kind → IsKeyOf bytes other → kind ≡ other }
{
    what_is_spelled_is_read();
}
