ghost use Rattle.std.specs.Prelude.{◌≡◌, ◌<◌, ◌&&◌, not};
ghost use Rattle.std.specs.List.{list_any};
ghost use Rattle.names_core.specs.Suffix.{GivesRules, base_len, covers, is_exception, longest_exception, longest_ordinary, rule_count, rules_read, suffix_len};

use crate::index::Index;
use crate::listing::{RULE_LIMIT, read_rules};
use crate::rule::{Rule, RuleKind, SuffixFault};
use gate_base::{Bytes, Name, Sequence};
use std::alloc::Global;
use std::marker::Model;
use std::snapshot::Snapshot;

/// The rules of a public suffix list, seen as the list of them, in the order of its text.
#[derive(Drop)]
pub struct Suffixes {
    index: Index,
    rules: Snapshot<Sequence<Rule>>,
}

impl Model for Suffixes {
    ghost use Rattle.std.specs.Prelude.{List};
    ghost use Rattle.names_core.specs.declared.rule.Rule.{Rule};
    ghost use Rattle.names_core.specs.Index.{Indexes};

    ghost Value = { List Rule };

    ghost view = { λ s. s.rules.value };

    ghost invariant = { λ s. Indexes s.index s.rules.value };
}

impl Suffixes {
    /// The rules of a text: each on a line of its own, up to the first blank.
    pub fn from_rules(alloc: Global, text: &[u8]) -> Result<Suffixes, SuffixFault>
        // The rules in the order of their lines, or the first line that is none.
        ensures exact { GivesRules result (rules_read text.now) }
        ensures many { RULE_LIMIT < rule_count text.now → result ≡ Err SuffixFault.TooMany }
    {
        let rules = read_rules(alloc, text)?;
        let listed = Snapshot::of(&rules);
        let index = Index::of(alloc, rules)?;
        Ok(Suffixes {
            index,
            rules: listed,
        })
    }

    fn has_exception(&self, tail: &[Bytes]) -> bool
        ensures { result ≡ list_any (λ rule. is_exception rule.kind && covers tail.now rule) self.now }
    {
        self.index.has(RuleKind::Exception, tail)
    }

    fn has_ordinary(&self, tail: &[Bytes]) -> bool
        ensures { result ≡ list_any (λ rule. not (is_exception rule.kind) && covers tail.now rule) self.now }
    {
        match tail.split_first() {
            None => self.index.has(RuleKind::Plain, tail),
            Some((_, rest)) => {
                self.index.has(RuleKind::Plain, tail) || self.index.has(RuleKind::Wild, rest)
            }
        }
    }

    fn longest_exception(&self, labels: &[Bytes]) -> Option<usize>
        ensures { result ≡ longest_exception self.now labels.now }
    {
        let mut tail = labels;
        while !self.has_exception(tail) {
            let (_, rest) = tail.split_first()?;
            tail = rest;
        }
        Some(tail.len())
    }

    fn longest_ordinary(&self, labels: &[Bytes]) -> Option<usize>
        ensures { result ≡ longest_ordinary self.now labels.now }
    {
        let mut tail = labels;
        while !self.has_ordinary(tail) {
            let (_, rest) = tail.split_first()?;
            tail = rest;
        }
        Some(tail.len())
    }

    fn suffix_len(&self, labels: &[Bytes]) -> Option<usize>
        ensures { result ≡ suffix_len self.now labels.now }
    {
        match self.longest_exception(labels) {
            Some(count) => Some(count.saturating_sub(1)),
            None => self.longest_ordinary(labels),
        }
    }

    /// How many labels the Base Domain Name of a name has: one more than its public suffix.
    pub fn base_len(&self, name: &Name) -> Option<u64>
        ensures exact { result ≡ base_len self.now name.now.labels }
    {
        let suffix = self.suffix_len(name.labels.as_slice())?;
        if suffix < name.labels.len() {
            Some(suffix as u64 + 1)
        } else {
            None
        }
    }
}
