ghost use Rattle.std.specs.Prelude.{◌≡◌, ℕ, List};
ghost use Rattle.tbs_shape.specs.Body.{Body as Said};
ghost use Rattle.tbs_shape.specs.Shape.{IsBody};

use der_text::what_is_spelled_is_read;

/// Bytes say one thing at most.
pub fn one_body()
    ensures { (bytes : List ℕ) (body other : Said) → IsBody bytes body → IsBody bytes other → body ≡ other }
{
    what_is_spelled_is_read();
}
