//! The kinds of entries.
ghost use Rattle.std.specs.Prelude.{◌≡◌, [], ◌∷◌, ◌++◌, OnOk};
ghost use Rattle.gate_entries.specs.Field.{Gives, Within};
ghost use Rattle.gate_entries.specs.Kind.{kind_number, kind_with, kind_at, kind_of};

use crate::entry::What;
use crate::fault::FieldFault;
use gate_base::NoMemory;

/// The kind of an entry.
#[derive(Clone, Copy, Debug, PartialEq, Eq)]
pub enum Kind {
    Settings,
    Order,
    Challenge,
    Observation,
    CaaAnswer,
    Send,
    Signed,
    Blocked,
}

impl Kind {
    fn of(what: &What) -> Kind
        ensures { result ≡ kind_of what.now }
    {
        match what {
            What::Settings { .. } => Kind::Settings,
            What::Order { .. } => Kind::Order,
            What::Challenge { .. } => Kind::Challenge,
            What::Observation { .. } => Kind::Observation,
            What::CaaAnswer { .. } => Kind::CaaAnswer,
            What::Send { .. } => Kind::Send,
            What::Signed { .. } => Kind::Signed,
            What::Blocked { .. } => Kind::Blocked,
        }
    }

    fn number(self) -> u8
        ensures { result ≡ kind_number self }
    {
        match self {
            Kind::Settings => 1,
            Kind::Order => 2,
            Kind::Challenge => 3,
            Kind::Observation => 4,
            Kind::CaaAnswer => 5,
            Kind::Send => 6,
            Kind::Signed => 7,
            Kind::Blocked => 8,
        }
    }

    fn with(number: u8) -> Option<Kind>
        ensures { result ≡ kind_with number }
    {
        match number {
            1 => Some(Kind::Settings),
            2 => Some(Kind::Order),
            3 => Some(Kind::Challenge),
            4 => Some(Kind::Observation),
            5 => Some(Kind::CaaAnswer),
            6 => Some(Kind::Send),
            7 => Some(Kind::Signed),
            8 => Some(Kind::Blocked),
            _ => None,
        }
    }
}

pub fn put_kind(what: &What, out: &mut Vec<u8>) -> Result<(), NoMemory>
    ensures ok { OnOk result (out.new.items ≡ out.old.items ++ kind_number (kind_of what.now) ∷ []) }
{
    out.push(Kind::of(what).number())?;
    Ok(())
}

#[tactic(auto, unfolding(crate::specs::Field::one_of_at))]
pub fn read_kind(bytes: &[u8]) -> Result<(Kind, &[u8]), FieldFault>
    ensures exact { Gives (λ x. (x.0, x.1.now)) result (kind_at bytes.now) }
    ensures within { Within (λ x. x.1.now) bytes.now result }
{
    match bytes {
        [] => Err(FieldFault::Left(0)),
        [number, rest @ ..] => match Kind::with(*number) {
            Some(kind) => Ok((kind, rest)),
            None => Err(FieldFault::Left(bytes.len())),
        },
    }
}
