//! The rules that settings keep.
ghost use Rattle.std.specs.Prelude.{◌≡◌};
ghost use Rattle.gate_settings.specs.Rules.{number_of};

use crate::part::PartFault;
use gate_base::NoMemory;

#[derive(Clone, Copy, Debug, PartialEq, Eq)]
pub enum Rule {
    S01,
    S02,
    S03,
    S04,
    S05,
    S06,
    S07,
    S08,
    S09,
    S10,
    S11,
    S12,
}

impl Rule {
    pub fn number(self) -> u8
        ensures { result ≡ number_of self }
    {
        match self {
            Rule::S01 => 1,
            Rule::S02 => 2,
            Rule::S03 => 3,
            Rule::S04 => 4,
            Rule::S05 => 5,
            Rule::S06 => 6,
            Rule::S07 => 7,
            Rule::S08 => 8,
            Rule::S09 => 9,
            Rule::S10 => 10,
            Rule::S11 => 11,
            Rule::S12 => 12,
        }
    }
}

/// A rule that is broken, with its item, or out of memory.
#[derive(Clone, Copy, Debug, PartialEq, Eq)]
pub enum Broken {
    Rule(Rule, u64),
    NoMemory,
}

impl From<NoMemory> for Broken {
    ghost use Rattle.gate_settings.specs.declared.rule.Broken.TheVariants as broken;

    ghost from_gives = { λ _ e. e ≡ broken.NoMemory };

    fn from(_: NoMemory) -> Broken {
        Broken::NoMemory
    }
}

/// The rule is broken where a part was refused.
pub fn refusal(rule: Rule, item: u64, fault: PartFault) -> Broken
    ensures refused { fault ≡ PartFault.Refused → result ≡ Broken.Rule rule item }
    ensures memory { fault ≡ PartFault.NoMemory → result ≡ Broken.NoMemory }
{
    match fault {
        PartFault::Refused => Broken::Rule(rule, item),
        PartFault::NoMemory => Broken::NoMemory,
    }
}
