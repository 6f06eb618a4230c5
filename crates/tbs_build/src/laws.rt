ghost use Rattle.std.specs.Prelude.{◌≡◌, ℕ, ◌<◌, ◌≤◌, ◌^◌, List, length};
ghost use Rattle.std.specs.List.{AllByRecursion};
ghost use Rattle.gate_base.specs.declared.name.Target.{Target};
ghost use Rattle.der_text.specs.Tree.{Node, IsDer};
ghost use Rattle.tbs_build.specs.Body.{body_of, IsBodyTree, SaysTheSame};
ghost use Rattle.tbs_build.specs.Extension.{extensions_of, IsSpelled};
ghost use Rattle.tbs_build.specs.Names.{IsShort, IsTarget};
ghost use Rattle.tbs_build.specs.Plan.{Plan, IsSound};

use cert_time::times_are_read_again;
use der_text::what_is_spelled_is_read;
use names_core::names_are_read_again;
use public_key::one_kind;

/// The body of a sound plan is read again: it is DER, what is read of it are the plan's parts and nothing else, and the
/// string of each extension is DER by itself. So bodies are the same only where the plans say the same.
pub fn a_body_is_read()
    ensures der { (plan : Plan) → IsSound plan → (tree : Node) × IsDer (body_of plan) tree }
    ensures parts { (plan : Plan) (tree : Node) → IsSound plan → IsDer (body_of plan) tree → IsBodyTree plan tree }
    ensures one_plan { (plan other : Plan) → IsSound plan → IsSound other → body_of plan ≡ body_of other
        → SaysTheSame plan other }
    ensures values { (plan : Plan) → IsSound plan → AllByRecursion IsSpelled (extensions_of plan) }
{
    what_is_spelled_is_read();
    times_are_read_again();
    one_kind();
}

/// A body of at most 100 targets has fewer than 65,536 bytes, so a number of two bytes counts them.
pub fn a_body_of_few_targets_is_short()
    ensures few_targets { (plan : Plan) → IsSound plan → length plan.targets ≤ 100 → length (body_of plan) < 2 ^ 16 }
    // Names that are read from their texts are short enough to stand in a plan, and so are addresses.
    ensures are_short { (targets : List Target) → AllByRecursion IsTarget targets → AllByRecursion IsShort targets }
{
    names_are_read_again();
}
