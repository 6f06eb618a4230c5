ghost use Rattle.std.specs.Prelude.{◌≡◌, ℕ, List};
ghost use Rattle.gate_base.specs.declared.moment.Moment.{Moment};
ghost use Rattle.gate_base.specs.declared.profile.Profile.{Profile};
ghost use Rattle.names_core.specs.declared.rule.Rule.{Rule};
ghost use Rattle.profile_lint.specs.Contents.{Contents, Says};
ghost use Rattle.profile_lint.specs.Lint.{IsLint, IsListOf};

use tbs_shape::one_body;

/// Bytes say one thing at most.
pub fn one_reading()
    ensures { (bytes : List ℕ) (c other : Contents) → Says bytes c → Says bytes other → c ≡ other }
{
    one_body();
}

/// The list by the contents of bytes has the number of each rule that the bytes break, and no other, rising.
pub fn a_list_tells_each_rule()
    ensures { (bytes : List ℕ) (profile : Profile) (suffixes : List Rule) (moment : Moment) (list : List ℕ)
        → IsListOf bytes profile suffixes moment list → IsLint bytes profile suffixes moment list }
{
    one_reading();
}
