//! Whether a list names a target twice.
ghost use Rattle.std.specs.Prelude.{◌≡◌, ℕ, List, not, cond, true, false, IfOk, OnOk};
ghost use Rattle.std.specs.Str.{bytes_eq};
ghost use Rattle.std.specs.HashSet.{contains_by};
ghost use Rattle.gate_base.specs.declared.name.Target.{Target};
ghost use Rattle.names_core.specs.Suffix.{labels_eq};
ghost use Rattle.profile_lint.specs.Names.{target_eq};
ghost use Rattle.profile_lint.specs.Parts as parts_spec;
ghost use Rattle.profile_lint.specs.Seen.{is_seen};

use gate_base::{Address, Bytes, Name, NoMemory, Target};
use std::alloc::Global;
use std::collections::HashSet;

/// The targets that were seen so far.
#[derive(Drop)]
struct Seen<'t> {
    names: HashSet<&'t [Bytes]>,
    wildcards: HashSet<&'t [Bytes]>,
    v4: HashSet<&'t [u8]>,
    v6: HashSet<&'t [u8]>,
}

fn see_labels<'t>(seen: &mut HashSet<&'t [Bytes]>, labels: &'t [Bytes]) -> Result<bool, NoMemory>
    ensures fresh { IfOk result (λ fresh. fresh ≡ not (contains_by (λ key. labels_eq labels.now key.now) seen.old)) }
    ensures seen { OnOk result ((other : List (List ℕ)) → contains_by (λ key. labels_eq other key.now) seen.new
        ≡ cond (labels_eq labels.now other) true (contains_by (λ key. labels_eq other key.now) seen.old)) }
{
    Ok(seen.insert(labels)?)
}

fn see_octets<'t>(seen: &mut HashSet<&'t [u8]>, octets: &'t [u8]) -> Result<bool, NoMemory>
    ensures fresh { IfOk result (λ fresh. fresh ≡ not (contains_by (λ key. bytes_eq octets.now key.now) seen.old)) }
    ensures seen { OnOk result ((other : List ℕ) → contains_by (λ key. bytes_eq other key.now) seen.new
        ≡ cond (bytes_eq octets.now other) true (contains_by (λ key. bytes_eq other key.now) seen.old)) }
{
    Ok(seen.insert(octets)?)
}

impl<'t> Seen<'t> {
    fn new(alloc: Global) -> Seen<'t>
        ensures { (target : Target) → is_seen result target ≡ false }
    {
        Seen {
            names: HashSet::new(alloc),
            wildcards: HashSet::new(alloc),
            v4: HashSet::new(alloc),
            v6: HashSet::new(alloc),
        }
    }

    /// Adds a target, and tells whether it is new.
    fn see(&mut self, target: &'t Target) -> Result<bool, NoMemory>
        ensures fresh { IfOk result (λ fresh. fresh ≡ not (is_seen self.old target.now)) }
        ensures seen { OnOk result ((other : Target) → is_seen self.new other ≡ cond (target_eq target.now other) true (is_seen self.old other)) }
    {
        match target {
            Target::Dns(
                Name {
                    labels,
                    wild: false,
                },
            ) => see_labels(&mut self.names, labels.as_slice()),
            Target::Dns(Name { labels, wild: true }) => see_labels(
                &mut self.wildcards,
                labels.as_slice(),
            ),
            Target::Ip(Address::V4(octets)) => see_octets(&mut self.v4, octets),
            Target::Ip(Address::V6(octets)) => see_octets(&mut self.v6, octets),
        }
    }
}

/// Whether a target stands in the list twice. What was seen is looked up by its hash, so that long lists are no burden.
pub fn has_twice(alloc: Global, targets: &[Target]) -> Result<bool, NoMemory>
    ensures { IfOk result (λ twice. twice ≡ parts_spec.has_twice target_eq targets.now) }
{
    let mut seen = Seen::new(alloc);
    let mut rest = targets;
    while let Some((first, others)) = rest.split_first() {
        if !seen.see(first)? {
            return Ok(true);
        }
        rest = others;
    }
    Ok(false)
}
