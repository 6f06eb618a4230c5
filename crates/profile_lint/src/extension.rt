//! Extensions one by one, and how often they stand there.
ghost use Rattle.std.specs.Prelude.{◌≡◌, option_map};
ghost use Rattle.std.specs.List.{list_any};
ghost use Rattle.profile_lint.specs.Contents as said;
ghost use Rattle.profile_lint.specs.Parts.{has_twice};
ghost use Rattle.profile_lint.specs.Rules as spec;

use crate::identifiers as id;
use crate::identifiers::is_same;
use tbs_shape::{Body, Extension};

fn is_named(identifier: &[u8], extension: &Extension<'_>) -> bool
    ensures { result ≡ said.is_named identifier.now extension.now }
{
    is_same(extension.identifier(), identifier)
}

fn or_empty<'b, 'a>(extensions: Option<&'b [Extension<'a>]>) -> &'b [Extension<'a>]
    ensures { result.now ≡ said.or_empty (option_map (λ s. s.now) extensions.entry) }
{
    match extensions {
        None => &[],
        Some(extensions) => extensions,
    }
}

/// The first extension with this name.
pub fn extension_named<'b, 'a>(identifier: &[u8], body: &'b Body<'a>) -> Option<&'b Extension<'a>>
    ensures { option_map (λ e. e.now) result ≡ said.extension_named identifier.now body.now }
{
    let mut rest = or_empty(body.extensions());
    while let [first, others @ ..] = rest {
        if is_named(identifier, first) {
            return Some(first);
        }
        rest = others;
    }
    None
}

fn is_among(extension: &Extension<'_>, others: &[Extension<'_>]) -> bool
    ensures { result ≡ list_any (spec.same_extension extension.now) others.now }
{
    others.iter().any(|other| is_same(extension.identifier(), other.identifier()))
}

fn has_twice(extensions: &[Extension<'_>]) -> bool
    ensures { result ≡ has_twice spec.same_extension extensions.now }
{
    let mut rest = extensions;
    while let [first, others @ ..] = rest {
        if is_among(first, others) {
            return true;
        }
        rest = others;
    }
    false
}

pub fn extensions_are_bad(extensions: Option<&[Extension<'_>]>) -> bool
    ensures { result ≡ spec.extensions_are_bad (option_map (λ s. s.now) extensions.entry) }
{
    match extensions {
        None => true,
        Some(extensions) => has_twice(extensions),
    }
}

fn is_allowed(extension: &Extension<'_>) -> bool
    ensures { result ≡ spec.is_allowed extension.now }
{
    let name = extension.identifier();
    is_same(name, &id::AUTHORITY_KEY_IDENTIFIER)
        || is_same(name, &id::KEY_USAGE)
        || is_same(name, &id::EXT_KEY_USAGE)
        || is_same(name, &id::SUBJECT_ALT_NAME)
        || is_same(name, &id::CERTIFICATE_POLICIES)
        || is_same(name, &id::CRL_DISTRIBUTION_POINTS)
        || is_same(name, &id::AUTHORITY_INFO_ACCESS)
        || is_same(name, &id::BASIC_CONSTRAINTS)
        || is_same(name, &id::NAME_CONSTRAINTS)
}

pub fn an_extension_is_unknown(extensions: Option<&[Extension<'_>]>) -> bool
    ensures { result ≡ spec.an_extension_is_unknown (option_map (λ s. s.now) extensions.entry) }
{
    or_empty(extensions)
        .iter()
        .any(|extension| !is_allowed(extension))
}

pub fn absent_or_critical(extension: Option<&Extension<'_>>) -> bool
    ensures { result ≡ spec.absent_or_critical (option_map (λ e. e.now) extension.entry) }
{
    match extension {
        None => true,
        Some(extension) => extension.is_critical(),
    }
}

pub fn absent_or_not_critical(extension: Option<&Extension<'_>>) -> bool
    ensures { result ≡ spec.absent_or_not_critical (option_map (λ e. e.now) extension.entry) }
{
    match extension {
        None => true,
        Some(extension) => !extension.is_critical(),
    }
}

pub fn has_value(value: &[u8], extension: Option<&Extension<'_>>) -> bool
    ensures { result ≡ spec.has_value value.now (option_map (λ e. e.now) extension.entry) }
{
    match extension {
        None => false,
        Some(extension) => is_same(extension.value(), value),
    }
}
