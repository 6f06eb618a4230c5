//! What makes a list of perspectives a panel.
ghost use Rattle.std.specs.Prelude.{◌≡◌, ℕ, ◌+◌, ◌*◌, ◌<◌, ◌↔◌, length, not, IsTrue, IfSome, IfNone};
ghost use Rattle.std.specs.List.{find, position};
ghost use Rattle.std.specs.Option.{option_copied};
ghost use Rattle.perspectives.specs.Panel.{primary_count, IsPrimaryOf, HasNoOther, is_placed, Conflicts, ConflictAt, HasNoConflict, IsFirstConflict};

use crate::perspective::Perspective;

/// No coordinate is farther from the centre than this many kilometres.
const FARTHEST: u64 = 20_000;

/// No two perspectives are nearer than this many kilometres.
const NEAREST: u64 = 500;

/// In what two members may not agree.
#[derive(Clone, Copy)]
pub enum Conflict {
    Name,
    Place,
}

/// How many members call themselves the primary.
pub fn primary_count(list: &[Perspective]) -> usize
    ensures { result ≡ primary_count list.now }
{
    list.iter().filter(|member| member.primary).count()
}

/// The first member that calls itself the primary.
fn first_primary(list: &[Perspective]) -> Option<&Perspective>
    ensures { option_copied result ≡ find (λ p. p.primary) list.now }
{
    list.iter().find(|member| member.primary)
}

/// The member that alone calls itself the primary.
#[tactic(auto, using(crate::proofs::Primaries::primaries))]
pub fn only_primary(list: &[Perspective]) -> &Perspective
    requires { primary_count list.now ≡ 1 }
    ensures is { IsPrimaryOf list.now result.now }
    ensures only { HasNoOther list.now result.now }
{
    match first_primary(list) {
        Some(member) => member,
        None => unreachable!(),
    }
}

/// The first member whose place is out of range.
pub fn first_misplaced(list: &[Perspective]) -> Option<usize>
    ensures { result ≡ position (λ p. not (is_placed p)) list.now }
{
    list.iter().position(|member| !is_placed(member))
}

fn is_placed(p: &Perspective) -> bool
    ensures { result ≡ is_placed p.now }
{
    p.x.unsigned_abs() <= FARTHEST
        && p.y.unsigned_abs() <= FARTHEST
        && p.z.unsigned_abs() <= FARTHEST
}

/// The first two members that conflict.
pub fn first_conflict(kind: Conflict, list: &[Perspective]) -> Option<(usize, usize)>
    ensures found { IfSome result (λ pair. IsFirstConflict kind list.now pair.0 pair.1) }
    ensures none { IfNone result (HasNoConflict kind list.now) }
{
    for i in 0..list.len() {
        if let Some(j) = conflict_after(kind, list, i) {
            return Some((i, j));
        }
    }
    None
}

/// The first later member that conflicts with the one at `i`.
fn conflict_after(kind: Conflict, list: &[Perspective], i: usize) -> Option<usize>
    requires { i < length list.now }
    ensures found { IfSome result (λ j. ConflictAt kind list.now i j) }
    ensures first { IfSome result (λ j. (l : ℕ) → l < j → ¬ (ConflictAt kind list.now i l)) }
    ensures none { IfNone result ((j : ℕ) → ¬ (ConflictAt kind list.now i j)) }
{
    for j in i + 1..list.len() {
        if conflicts(kind, &list[i], &list[j]) {
            return Some(j);
        }
    }
    None
}

fn conflicts(kind: Conflict, a: &Perspective, b: &Perspective) -> bool
    ensures { IsTrue result ↔ Conflicts kind a.now b.now }
{
    match kind {
        Conflict::Name => a.id == b.id,
        Conflict::Place => is_near(a, b),
    }
}

fn is_near(a: &Perspective, b: &Perspective) -> bool
    ensures { IsTrue result ↔ Conflicts Conflict.Place a.now b.now }
{
    is_short(a.x.abs_diff(b.x), a.y.abs_diff(b.y), a.z.abs_diff(b.z))
}

/// Whether the way with these three parts, at right angles to one another, is too short.
fn is_short(x: u64, y: u64, z: u64) -> bool
    ensures { IsTrue result ↔ (x * x + y * y + z * z < 250000) }
{
    let squares = x
        .saturating_mul(x)
        .saturating_add(y.saturating_mul(y))
        .saturating_add(z.saturating_mul(z));
    squares < NEAREST * NEAREST
}
