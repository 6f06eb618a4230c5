ghost use Rattle.std.specs.Prelude.{◌≡◌, ◌↔◌, ℕ, List, []};
ghost use Rattle.std.specs.List.{AllByRecursion};
ghost use Rattle.gate_base.specs.declared.moment.Moment.{Moment};
ghost use Rattle.names_core.specs.declared.rule.Rule.{Rule};
ghost use Rattle.profile_lint.specs.Lint.{Has, IsBroken, IsLint, IsListOf};
ghost use Rattle.sound_body.specs.Good.{Breaks, HasGoodTargets, IsClean};
ghost use Rattle.sound_body.specs.Rules.{CanBeBroken, HasItsOctets};
ghost use Rattle.sound_body.specs.Said.{SaysPlan};
ghost use Rattle.tbs_build.specs.Body.{body_of};
ghost use Rattle.tbs_build.specs.Plan.{IsSound, Plan};
ghost use Rattle.tbs_shape.specs.Body.{Body as Said};
ghost use Rattle.tbs_shape.specs.Shape.{IsBody};

use cert_time::times_are_read_again;
use der_text::what_is_spelled_is_read;
use profile_lint::a_list_tells_each_rule;
use tbs_build::a_body_is_read;

/// The body of a sound plan has the shape of a body (RFC 5280, section 4.1), and what is read of it is what the plan
/// says.
pub fn a_sound_body_says_its_plan()
    ensures shape { (plan : Plan) → IsSound plan → (body : Said) × IsBody (body_of plan) body }
    ensures says { (plan : Plan) (body : Said) → IsSound plan → IsBody (body_of plan) body → SaysPlan plan body }
{
    a_body_is_read();
    what_is_spelled_is_read();
    times_are_read_again();
}

/// The lint of a sound plan's body by the plan's profile, whatever the public suffixes are and at any moment, has
/// numbers of L07, L11, L20, L21, L22 and L34 alone: no other rule is broken. Each address has the octets of its
/// family, which a clause can't see of an array.
pub fn the_lint_of_a_sound_body()
    // Each broken rule is one of these,
    ensures rules { (plan : Plan) (suffixes : List Rule) (moment : Moment) (rule : ℕ) → IsSound plan
        → AllByRecursion HasItsOctets plan.targets → IsBroken rule (body_of plan) plan.profile suffixes moment
        → CanBeBroken rule }
    // and so is each of the list.
    ensures list { (plan : Plan) (suffixes : List Rule) (moment : Moment) (list : List ℕ) → IsSound plan
        → AllByRecursion HasItsOctets plan.targets → IsLint (body_of plan) plan.profile suffixes moment list
        → AllByRecursion CanBeBroken list }
{
    a_sound_body_says_its_plan();
    a_body_is_read();
    what_is_spelled_is_read();
    times_are_read_again();
}

/// The lint of the body of a sound plan with good targets, by the plan's profile: L07 is broken exactly where the days
/// are too many at the moment, L21 exactly where a name has no base under the public suffixes, L22 exactly where an
/// address is reserved, and no other rule is. So the lint lists none exactly where none of these three holds.
pub fn the_lint_of_good_targets()
    // The list has these numbers and no others,
    ensures exact { (plan : Plan) (suffixes : List Rule) (moment : Moment) (list : List ℕ) → IsSound plan
        → HasGoodTargets plan → IsListOf (body_of plan) plan.profile suffixes moment list
        → (rule : ℕ) → Has list rule ↔ Breaks plan suffixes moment rule }
    // and is empty exactly where the plan is clean at the moment.
    ensures empty { (plan : Plan) (suffixes : List Rule) (moment : Moment) (list : List ℕ) → IsSound plan
        → HasGoodTargets plan → IsListOf (body_of plan) plan.profile suffixes moment list
        → (list ≡ []) ↔ IsClean plan suffixes moment }
{
    a_sound_body_says_its_plan();
    a_body_is_read();
    a_list_tells_each_rule();
}
