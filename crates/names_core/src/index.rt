//! Rules by their labels.

ghost use Rattle.std.specs.Prelude.{◌≡◌, ◌||◌, List, [], ℕ, IfOk, OnOk};
ghost use Rattle.std.specs.Ordering.{nat_cmp};
ghost use Rattle.std.specs.BTreeSet.{contains_by};
ghost use Rattle.std.specs.Cmp.Lexicographic.{slice_cmp};
ghost use Rattle.names_core.specs.Suffix.{labels_eq};
ghost use Rattle.names_core.specs.Index.{Adds, Indexes, is_in};

use crate::rule::{Rule, RuleKind};
use gate_base::{Bytes, Labels, NoMemory, Sequence};
use std::alloc::Global;
use std::collections::BTreeSet;

/// The labels of the rules of each kind.
#[derive(Drop)]
pub struct Index {
    plain: BTreeSet<Vec<Bytes>>,
    wild: BTreeSet<Vec<Bytes>>,
    exceptions: BTreeSet<Vec<Bytes>>,
}

fn insert(set: &mut BTreeSet<Vec<Bytes>>, labels: Labels) -> Result<(), NoMemory>
    ensures { OnOk result ((query : List (List ℕ)) → contains_by (λ key. slice_cmp (slice_cmp nat_cmp) query key.items) set.new ≡ (labels_eq query labels || contains_by (λ key. slice_cmp (slice_cmp nat_cmp) query key.items) set.old)) }
{
    set.insert(labels.into_vec())?;
    Ok(())
}

impl Index {
    fn new(alloc: Global) -> Index
        ensures { Indexes result [] }
    {
        Index {
            plain: BTreeSet::new(alloc),
            wild: BTreeSet::new(alloc),
            exceptions: BTreeSet::new(alloc),
        }
    }

    fn insert(&mut self, rule: Rule) -> Result<(), NoMemory>
        ensures { OnOk result (Adds self.old self.new rule) }
    {
        match rule.kind {
            RuleKind::Plain => insert(&mut self.plain, rule.labels),
            RuleKind::Wild => insert(&mut self.wild, rule.labels),
            RuleKind::Exception => insert(&mut self.exceptions, rule.labels),
        }
    }

    pub fn has(&self, kind: RuleKind, labels: &[Bytes]) -> bool
        ensures { result ≡ is_in kind labels.now self.now }
    {
        match kind {
            RuleKind::Plain => self.plain.contains(labels),
            RuleKind::Wild => self.wild.contains(labels),
            RuleKind::Exception => self.exceptions.contains(labels),
        }
    }

    /// The index of rules.
    pub fn of(alloc: Global, rules: Sequence<Rule>) -> Result<Index, NoMemory>
        ensures { IfOk result (λ index. Indexes index rules) }
    {
        let mut index = Index::new(alloc);
        let mut left = rules.into_vec();
        while let Some(rule) = left.pop() {
            index.insert(rule)?;
        }
        Ok(index)
    }
}
