//! The names of a subjectAltName.
ghost use Rattle.std.specs.Prelude.{◌≡◌, Ok, map, IfOk, IfErr, OnOk};
ghost use Rattle.std.specs.List.{AllByRecursion};
ghost use Rattle.der_text.specs.View.{nodes};
ghost use Rattle.csr10.specs.Names as spec;
ghost use Rattle.csr10.specs.Csr.{SpellsNames, SpellsSequence};
ghost use Rattle.csr10.specs.Told.{IfShape, IsNameFault};

use crate::fault::CsrFault;
use cert_fields::target_of_general_name;
use der_text::tag::SEQUENCE;
use der_text::{ReadFault, Tree, read_tree};
use gate_base::Targets;
use std::alloc::Global;

/// The targets of all names, or the first that is none.
#[tactic(auto, using(crate::proofs::Targets::targets))]
pub fn targets_of(alloc: Global, names: &[Tree<'_>]) -> Result<Targets, CsrFault>
    ensures ok { IfOk result (λ targets. spec.targets_of (nodes names.now) ≡ Ok targets) }
    ensures err { IfErr result (λ e. IsNameFault e (spec.targets_of (nodes names.now))) }
{
    let mut targets = Targets::new(alloc);
    let mut rest = names;
    while let [first, others @ ..] = rest {
        match target_of_general_name(alloc, first)? {
            Some(target) => targets.push(target)?,
            None => return Err(CsrFault::SanName(targets.len() as u64)),
        }
        rest = others;
    }
    Ok(targets)
}

/// The names that the value of a subjectAltName spells.
pub fn read_names<'a>(alloc: Global, value: &'a [u8]) -> Result<Vec<Tree<'a>>, CsrFault>
    ensures ok { IfOk result (λ names. SpellsNames value.now (nodes names.items)) }
    ensures err { IfErr result (λ e. IfShape e (¬ (SpellsSequence value.now))) }
{
    match read_tree(alloc, value) {
        Ok(
            Tree::Cons {
                tag: SEQUENCE,
                parts,
            },
        ) => Ok(parts),
        Ok(_) => Err(CsrFault::Shape),
        Err(ReadFault::Der(_)) => Err(CsrFault::Shape),
        Err(ReadFault::NoMemory) => Err(CsrFault::NoMemory),
    }
}

/// Whether each value spells a SEQUENCE.
pub fn check_values(alloc: Global, values: &[&[u8]]) -> Result<(), CsrFault>
    ensures ok { OnOk result (AllByRecursion SpellsSequence (map (λ value. value.now) values.now)) }
    ensures err { IfErr result (λ e. IfShape e (¬ (AllByRecursion SpellsSequence (map (λ value. value.now) values.now)))) }
{
    let mut rest = values;
    while let [first, others @ ..] = rest {
        read_names(alloc, first)?;
        rest = others;
    }
    Ok(())
}
