//! The rules of a public suffix list, from its text.

ghost use Rattle.std.specs.Prelude.{◌≡◌, ◌<◌, if◌then◌else◌, IfOk, IfErr, OnOk};
ghost use Rattle.std.specs.List.{position};
ghost use Rattle.names_core.specs.Name.{name_read};
ghost use Rattle.names_core.specs.Suffix as spec;

use crate::cutting::cut_at;
use crate::fault::NameRead;
use crate::reading::read_name;
use crate::rule::{Rule, RuleKind, SuffixFault};
use gate_base::{Labels, NoMemory, Sequence};
use idna::{AsciiDenyList, Errors, domain_to_ascii_cow};
use std::alloc::Global;

pub const RULE_LIMIT: u64 = 16_384;

fn is_blank(byte: u8) -> bool
    ensures { result ≡ spec.is_blank byte }
{
    byte == b' ' || byte == b'\t' || byte == b'\r'
}

fn first_blank(line: &[u8]) -> Option<usize>
    ensures { result ≡ position spec.is_blank line.now }
{
    line.iter().position(|byte| is_blank(*byte))
}

fn rule_text(line: &[u8]) -> &[u8]
    ensures { result.now ≡ spec.rule_text line.now }
{
    match first_blank(line) {
        Some(at) => &line[..at],
        None => line,
    }
}

fn is_rule_text(text: &[u8]) -> bool
    ensures { result ≡ spec.is_rule_text text.now }
{
    match text {
        [] => false,
        _ => !text.starts_with(b"//"),
    }
}

/// What kind of rule a text writes, and what stands behind its mark.
fn marked(text: &[u8]) -> (RuleKind, &[u8])
    ensures kind { result.0 ≡ spec.kind_of text.now }
    ensures rest { result.1.now ≡ spec.without_mark (spec.kind_of text.now) text.now }
{
    if text.starts_with(b"!") {
        (RuleKind::Exception, &text[1..])
    } else if text.starts_with(b"*.") {
        (RuleKind::Wild, &text[2..])
    } else {
        (RuleKind::Plain, text)
    }
}

fn plain_labels(alloc: Global, text: &[u8]) -> Result<Option<Labels>, NoMemory>
    ensures { IfOk result (λ labels. labels ≡ spec.plain_labels (name_read text.now)) }
{
    match read_name(alloc, text) {
        Ok(name) if name.wild => Ok(None),
        Ok(name) => Ok(Some(name.labels)),
        Err(NameRead::Fault(_)) => Ok(None),
        Err(NameRead::NoMemory) => Err(NoMemory),
    }
}

fn ascii_labels(alloc: Global, text: &[u8]) -> Result<Option<Labels>, NoMemory>
    ensures { IfOk result (λ labels. labels ≡ spec.ascii_labels text.now) }
{
    let ascii = match domain_to_ascii_cow(alloc, text, AsciiDenyList::EMPTY) {
        Ok(ascii) => ascii,
        Err(Errors::Invalid) => return Ok(None),
        Err(Errors::OutOfMemory) => return Err(NoMemory),
    };
    plain_labels(alloc, ascii.as_str().as_bytes())
}

fn rule_of(alloc: Global, text: &[u8]) -> Result<Option<Rule>, NoMemory>
    ensures { IfOk result (λ rule. rule ≡ spec.rule_of text.now) }
{
    let (kind, rest) = marked(text);
    match ascii_labels(alloc, rest)? {
        Some(labels) => Ok(Some(Rule { kind, labels })),
        None => Ok(None),
    }
}

/// Adds the rule of a line, where it has one.
fn add_rule(
    alloc: Global,
    number: u64,
    line: &[u8],
    rules: &mut Sequence<Rule>,
) -> Result<(), SuffixFault>
    ensures ok { OnOk result ((more : _) → spec.rules_then rules.old (spec.line_before number line.now more) ≡ spec.rules_then rules.new more) }
    ensures err { IfErr result (λ fault. (more : _) → spec.TellsSuffix fault (spec.rules_then rules.old (spec.line_before number line.now more))) }
{
    let text = rule_text(line);
    if !is_rule_text(text) {
        return Ok(());
    }
    match rule_of(alloc, text)? {
        Some(rule) => rules.push(rule)?,
        None => return Err(SuffixFault::Line(number)),
    }
    Ok(())
}

fn rules_of(alloc: Global, text: &[u8]) -> Result<Sequence<Rule>, SuffixFault>
    ensures { spec.GivesRules result (spec.rules_from 1 (spec.lines_of text.now)) }
{
    let mut rules = Sequence::new(alloc);
    let mut rest = text;
    let mut number = 1;
    while let Some((line, after)) = cut_at(rest, b'\n') {
        add_rule(alloc, number, line, &mut rules)?;
        rest = after;
        number += 1;
    }
    add_rule(alloc, number, rest, &mut rules)?;
    Ok(rules)
}

fn count_of(line: &[u8]) -> u64
    ensures { result ≡ (if spec.is_rule_text (spec.rule_text line.now) then 1 else 0) }
{
    if is_rule_text(rule_text(line)) { 1 } else { 0 }
}

fn rule_count(text: &[u8]) -> u64
    ensures { result ≡ spec.rule_count text.now }
{
    let mut count = 0;
    let mut rest = text;
    while let Some((line, after)) = cut_at(rest, b'\n') {
        count += count_of(line);
        rest = after;
    }
    count + count_of(rest)
}

/// The rules of a text, in its order.
pub fn read_rules(alloc: Global, text: &[u8]) -> Result<Sequence<Rule>, SuffixFault>
    ensures exact { spec.GivesRules result (spec.rules_read text.now) }
    ensures many { RULE_LIMIT < spec.rule_count text.now → result ≡ Err SuffixFault.TooMany }
{
    if rule_count(text) > RULE_LIMIT {
        return Err(SuffixFault::TooMany);
    }
    rules_of(alloc, text)
}
