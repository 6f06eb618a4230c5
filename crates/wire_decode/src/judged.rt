//! What parts of a body say together.
ghost use Rattle.std.specs.Prelude.{◌≡◌, ◌++◌, ◌∷◌, [], Ok, IfOk};
ghost use Rattle.wire_decode.specs.Judgement as spec;

use crate::rule::{Rule, first_rule};
use gate_base::{NoMemory, Sequence};

/// What a part of a body says, or the first rule that it breaks.
pub type Judged<T> = Result<T, Rule>;

/// What two parts say that stand side by side, or the first rule that they break.
#[tactic(auto, unfolding(crate::specs::Judgement::both))]
pub fn both<A: Drop, B: Drop>(left: Judged<A>, right: Judged<B>) -> Judged<(A, B)>
    ensures { result ≡ spec.both left right }
{
    match (left, right) {
        (Ok(left), Ok(right)) => Ok((left, right)),
        (Ok(_), Err(rule)) => Err(rule),
        (Err(rule), Ok(_)) => Err(rule),
        (Err(rule), Err(other)) => Err(first_rule(rule, other)),
    }
}

/// A list with one item more.
#[tactic(auto, unfolding(crate::specs::Judgement::both))]
pub fn and_one<T: Drop>(
    list: Judged<Sequence<T>>,
    item: Judged<T>,
) -> Result<Judged<Sequence<T>>, NoMemory>
    ensures { IfOk result (λ read. read ≡ spec.some_before list (spec.one_before item (Ok []))) }
{
    match both(list, item) {
        Ok((mut list, item)) => {
            list.push(item)?;
            Ok(Ok(list))
        }
        Err(rule) => Ok(Err(rule)),
    }
}
