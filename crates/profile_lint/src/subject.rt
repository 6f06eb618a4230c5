//! The attributes of the subject.
ghost use Rattle.std.specs.Prelude.{◌≡◌, IfOk};
ghost use Rattle.std.specs.Char.{is_ascii, is_ascii_uppercase};
ghost use Rattle.std.specs.List.{list_any, list_all};
ghost use Rattle.profile_lint.specs.Names as names_spec;
ghost use Rattle.profile_lint.specs.Parts.{has_twice};
ghost use Rattle.profile_lint.specs.Rules as spec;

use crate::identifiers::{COMMON_NAME, COUNTRY_NAME, is_same};
use crate::names::is_text_of;
use der_text::tag::{PRINTABLE_STRING, UTF8_STRING};
use gate_base::{NoMemory, Target};
use std::alloc::Global;
use tbs_shape::{Attribute, Primitive};

/// A commonName has at most so many bytes.
const LONGEST_COMMON_NAME: usize = 64;

fn is_country(attribute: &Attribute<'_>) -> bool
    ensures { result ≡ spec.is_country attribute.now }
{
    is_same(attribute.identifier(), &COUNTRY_NAME)
}

fn is_common(attribute: &Attribute<'_>) -> bool
    ensures { result ≡ spec.is_common attribute.now }
{
    is_same(attribute.identifier(), &COMMON_NAME)
}

fn is_among(attribute: &Attribute<'_>, others: &[Attribute<'_>]) -> bool
    ensures { result ≡ list_any (spec.same_attribute attribute.now) others.now }
{
    others.iter().any(|other| is_same(attribute.identifier(), other.identifier()))
}

fn has_twice(attributes: &[Attribute<'_>]) -> bool
    ensures { result ≡ has_twice spec.same_attribute attributes.now }
{
    let mut rest = attributes;
    while let [first, others @ ..] = rest {
        if is_among(first, others) {
            return true;
        }
        rest = others;
    }
    false
}

fn has_other(subject: &[Attribute<'_>]) -> bool
    ensures { result ≡ list_any spec.is_other subject.now }
{
    subject.iter().any(|attribute| !(is_country(attribute) || is_common(attribute)))
}

pub fn an_attribute_is_bad(subject: &[Attribute<'_>]) -> bool
    ensures { result ≡ spec.an_attribute_is_bad subject.now }
{
    has_other(subject) || has_twice(subject)
}

fn are_upper_case(content: &[u8]) -> bool
    ensures { result ≡ list_all is_ascii_uppercase content.now }
{
    content.iter().all(|byte| byte.is_ascii_uppercase())
}

fn are_ascii(content: &[u8]) -> bool
    ensures { result ≡ list_all is_ascii content.now }
{
    content.iter().all(|byte| byte.is_ascii())
}

fn is_country_code(value: &Primitive<'_>) -> bool
    ensures { result ≡ spec.is_country_code value.now }
{
    value.tag() == PRINTABLE_STRING && value.content().len() == 2 && are_upper_case(value.content())
}

fn is_bad_country(attribute: &Attribute<'_>) -> bool
    ensures { result ≡ spec.is_bad_country attribute.now }
{
    is_country(attribute) && !is_country_code(attribute.value())
}

pub fn a_country_is_bad(subject: &[Attribute<'_>]) -> bool
    ensures { result ≡ spec.a_country_is_bad subject.now }
{
    subject.iter().any(|attribute| is_bad_country(attribute))
}

fn is_text_among(alloc: Global, targets: &[Target], content: &[u8]) -> Result<bool, NoMemory>
    ensures { IfOk result (λ found. found ≡ list_any (names_spec.is_text_of content.now) targets.now) }
{
    let mut rest = targets;
    while let [first, others @ ..] = rest {
        if is_text_of(alloc, content, first)? {
            return Ok(true);
        }
        rest = others;
    }
    Ok(false)
}

fn may_be_name(value: &Primitive<'_>) -> bool
    ensures { result ≡ spec.may_be_name value.now }
{
    (value.tag() == PRINTABLE_STRING || value.tag() == UTF8_STRING)
        && !value.content().is_empty()
        && value.content().len() <= LONGEST_COMMON_NAME
        && are_ascii(value.content())
}

fn is_name_among(alloc: Global, targets: &[Target], value: &Primitive<'_>) -> Result<bool, NoMemory>
    ensures { IfOk result (λ found. found ≡ spec.is_name_among targets.now value.now) }
{
    if !may_be_name(value) {
        return Ok(false);
    }
    is_text_among(alloc, targets, value.content())
}

fn is_bad_common(
    alloc: Global,
    targets: &[Target],
    attribute: &Attribute<'_>,
) -> Result<bool, NoMemory>
    ensures { IfOk result (λ bad. bad ≡ spec.is_bad_common targets.now attribute.now) }
{
    if !is_common(attribute) {
        return Ok(false);
    }
    Ok(!is_name_among(alloc, targets, attribute.value())?)
}

pub fn a_common_name_is_bad(
    alloc: Global,
    targets: &[Target],
    subject: &[Attribute<'_>],
) -> Result<bool, NoMemory>
    ensures { IfOk result (λ bad. bad ≡ spec.a_common_name_is_bad targets.now subject.now) }
{
    let mut rest = subject;
    while let [first, others @ ..] = rest {
        if is_bad_common(alloc, targets, first)? {
            return Ok(true);
        }
        rest = others;
    }
    Ok(false)
}
