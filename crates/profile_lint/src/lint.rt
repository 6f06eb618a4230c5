//! The list of the broken rules.
ghost use Rattle.std.specs.Prelude.{◌≡◌, [], ◌∷◌, ◌++◌, IfOk, OnOk};
ghost use Rattle.tbs_shape.specs.Body.{Body as Said};
ghost use Rattle.profile_lint.specs.Names as names_spec;
ghost use Rattle.profile_lint.specs.Parts as parts_spec;
ghost use Rattle.profile_lint.specs.Lint as spec;
ghost use Rattle.profile_lint.specs.View as view;

use crate::access::{access_is_bad, authority_key_is_bad, names_are_constrained, points_are_bad};
use crate::contents::{Contents, contents_of};
use crate::extension::{an_extension_is_unknown, extension_named, extensions_are_bad};
use crate::front::{algorithm_is_bad, issuer_is_bad, serial_is_bad, version_is_bad};
use crate::identifiers as id;
use crate::key::{exponent_is_bad, key_algorithm_is_bad, modulus_is_bad, point_is_bad};
use crate::laws::a_list_tells_each_rule;
use crate::names::{
    a_name_has_no_base, a_name_is_bad, an_address_is_reserved, names_are_absent, names_are_bad,
    names_are_many, names_are_wrongly_critical, shown, targets_of,
};
use crate::subject::{a_common_name_is_bad, a_country_is_bad, an_attribute_is_bad};
use crate::usage::{
    constraints_are_bad, policies_are_bad, purposes_are_bad, purposes_are_wrong, usage_is_bad,
    usage_is_wrong,
};
use crate::validity::{a_time_is_bad, ends_early, lasts_too_long};
use gate_base::{Moment, NoMemory, Profile, Rules, Targets, validity_days};
use names_core::Suffixes;
use public_key::kind_named;
use std::alloc::Global;
use tbs_shape::{BodyFault, read_body};

/// The number of a rule, and whether it is broken.
type Row = (u8, bool);

#[tactic(auto, unfolding(crate::specs::Lint::head_rows))]
fn head_rows(c: &Contents<'_, '_>, profile: &Profile) -> [Row; 4]
    ensures { result ≡ spec.head_rows (view.contents c.now) profile.now }
{
    [
        (1, version_is_bad(c.body.version())),
        (2, serial_is_bad(c.body.serial())),
        (3, algorithm_is_bad(c.body.algorithm(), profile)),
        (4, issuer_is_bad(c.body.issuer(), profile)),
    ]
}

#[tactic(auto, unfolding(crate::specs::Lint::time_rows))]
fn time_rows(c: &Contents<'_, '_>, m: Moment) -> [Row; 4]
    ensures { result ≡ spec.time_rows (view.contents c.now) m }
{
    [
        (5, a_time_is_bad(c.begins, c.ends)),
        (6, ends_early(c.begins, c.ends)),
        (7, lasts_too_long(validity_days(m), c.begins, c.ends)),
        (8, c.body.has_unique_id()),
    ]
}

#[tactic(auto, unfolding(crate::specs::Lint::subject_rows))]
fn subject_rows(
    alloc: Global,
    c: &Contents<'_, '_>,
    targets: &Targets,
) -> Result<[Row; 3], NoMemory>
    requires { targets.now ≡ names_spec.targets_of (parts_spec.shown (view.contents c.now).names.tree) }
    ensures { IfOk result (λ rows. rows ≡ spec.subject_rows (view.contents c.now)) }
{
    let subject = c.body.subject();
    let common_name_is_bad = a_common_name_is_bad(alloc, targets.as_slice(), subject)?;
    Ok([
        (9, an_attribute_is_bad(subject)),
        (10, a_country_is_bad(subject)),
        (11, common_name_is_bad),
    ])
}

#[tactic(auto, unfolding(crate::specs::Lint::key_rows))]
fn key_rows(c: &Contents<'_, '_>) -> [Row; 4]
    ensures { result ≡ spec.key_rows (view.contents c.now) }
{
    let kind = kind_named(c.body.key_algorithm());
    [
        (12, key_algorithm_is_bad(kind)),
        (13, modulus_is_bad(kind, c.key.as_ref())),
        (14, exponent_is_bad(kind, c.key.as_ref())),
        (15, point_is_bad(kind, c.body.key_bits())),
    ]
}

#[tactic(auto, unfolding(crate::specs::Lint::name_rows))]
fn name_rows(
    alloc: Global,
    c: &Contents<'_, '_>,
    suffixes: &Suffixes,
    targets: &Targets,
) -> Result<[Row; 8], NoMemory>
    requires { targets.now ≡ names_spec.targets_of (parts_spec.shown (view.contents c.now).names.tree) }
    ensures { IfOk result (λ rows. rows ≡ spec.name_rows (view.contents c.now) suffixes.now) }
{
    let parts = shown(c.names.tree.as_ref());
    let targets = targets.as_slice();
    let name_is_bad = a_name_is_bad(alloc, parts, targets)?;
    Ok([
        (16, extensions_are_bad(c.body.extensions())),
        (17, an_extension_is_unknown(c.body.extensions())),
        (18, names_are_absent(&c.names)),
        (19, names_are_bad(&c.names)),
        (20, name_is_bad),
        (21, a_name_has_no_base(suffixes, targets)),
        (22, an_address_is_reserved(targets)),
        (
            23,
            names_are_wrongly_critical(c.names.extension, c.body.has_empty_subject()),
        ),
    ])
}

#[tactic(auto, unfolding(crate::specs::Lint::usage_rows))]
fn usage_rows(c: &Contents<'_, '_>) -> [Row; 6]
    ensures { result ≡ spec.usage_rows (view.contents c.now) }
{
    let kind = kind_named(c.body.key_algorithm());
    [
        (24, usage_is_bad(&c.usage)),
        (25, usage_is_wrong(kind, c.usage.extension)),
        (26, purposes_are_bad(&c.purposes)),
        (27, purposes_are_wrong(&c.purposes)),
        (
            28,
            constraints_are_bad(extension_named(&id::BASIC_CONSTRAINTS, c.body)),
        ),
        (29, policies_are_bad(&c.policies)),
    ]
}

#[tactic(auto, unfolding(crate::specs::Lint::issuer_rows))]
fn issuer_rows(c: &Contents<'_, '_>, profile: &Profile) -> [Row; 5]
    ensures { result ≡ spec.issuer_rows (view.contents c.now) profile.now }
{
    let key = extension_named(&id::AUTHORITY_KEY_IDENTIFIER, c.body);
    let constraints = extension_named(&id::NAME_CONSTRAINTS, c.body);
    [
        (30, names_are_constrained(constraints)),
        (31, authority_key_is_bad(key, profile)),
        (32, access_is_bad(&c.access)),
        (33, points_are_bad(&c.points)),
        (34, names_are_many(shown(c.names.tree.as_ref()))),
    ]
}

/// Appends the numbers of the broken rules.
fn push_broken(rows: &[Row], broken: &mut Rules) -> Result<(), NoMemory>
    ensures { OnOk result (broken.new ≡ broken.old ++ spec.broken rows.now) }
{
    let mut rest = rows;
    while let [first, others @ ..] = rest {
        if first.1 {
            broken.push(first.0)?;
        }
        rest = others;
    }
    Ok(())
}

/// The broken rules of a body with these contents.
#[tactic(auto, using(crate::proofs::Broken::broken_append))]
fn broken_rules(
    alloc: Global,
    c: &Contents<'_, '_>,
    profile: &Profile,
    suffixes: &Suffixes,
    m: Moment,
) -> Result<Rules, NoMemory>
    ensures { IfOk result (λ list. list ≡ spec.broken (spec.rows (view.contents c.now) profile.now suffixes.now m)) }
{
    let targets = targets_of(alloc, shown(c.names.tree.as_ref()))?;
    let mut broken = Rules::new(alloc);
    push_broken(&head_rows(c, profile), &mut broken)?;
    push_broken(&time_rows(c, m), &mut broken)?;
    push_broken(&subject_rows(alloc, c, &targets)?, &mut broken)?;
    push_broken(&key_rows(c), &mut broken)?;
    push_broken(&name_rows(alloc, c, suffixes, &targets)?, &mut broken)?;
    push_broken(&usage_rows(c), &mut broken)?;
    push_broken(&issuer_rows(c, profile), &mut broken)?;
    Ok(broken)
}

/// The list of the first rule alone, which stands for bytes of another shape.
fn only_the_shape(alloc: Global) -> Result<Rules, NoMemory>
    ensures { IfOk result (λ list. list ≡ 0 ∷ []) }
{
    let mut broken = Rules::new(alloc);
    broken.push(0)?;
    Ok(broken)
}

/// The broken rules, by the contents of the bytes.
fn listed(
    alloc: Global,
    bytes: &[u8],
    profile: &Profile,
    suffixes: &Suffixes,
    m: Moment,
) -> Result<Rules, NoMemory>
    ensures { IfOk result (λ list. spec.IsListOf bytes.now profile.now suffixes.now m list) }
{
    let body = match read_body(alloc, bytes) {
        Ok(body) => body,
        Err(BodyFault::Shape) => return only_the_shape(alloc),
        Err(BodyFault::NoMemory) => return Err(NoMemory),
    };
    let contents = contents_of(alloc, &body)?;
    broken_rules(alloc, &contents, profile, suffixes, m)
}

/// The numbers, rising, of the rules that the bytes break as the body of a certificate of this profile at this moment.
pub fn lint_body(
    alloc: Global,
    bytes: &[u8],
    p: &Profile,
    s: &Suffixes,
    m: Moment,
) -> Result<Rules, NoMemory>
    // The list by the contents of the bytes,
    ensures list { IfOk result (λ list. spec.IsListOf bytes.now p.now s.now m list) }
    // which has the number of each rule that is broken, and no other, rising.
    ensures exact { IfOk result (λ list. spec.IsLint bytes.now p.now s.now m list) }
{
    a_list_tells_each_rule();
    let list = listed(alloc, bytes, p, s, m)?;
    Ok(list)
}
