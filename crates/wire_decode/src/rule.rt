ghost use Rattle.std.specs.Prelude.{◌≡◌};
ghost use Rattle.wire_decode.specs.Judgement as spec;

/// The rules for a body. The first that is broken is told.
#[derive(Clone, Copy, Debug, PartialEq, Eq)]
pub enum Rule {
    /// It is no JSON text (RFC 8259), or isn't UTF-8.
    W01,
    /// It is no object, or an object in it has other members than it should.
    W02,
    /// A member is of another kind, or none of the words that may stand there.
    W03,
    /// A text is no base64 (RFC 4648, section 4).
    W04,
    /// A text is no name or address.
    W05,
    /// A number is no whole number of its type, or a text or list is too long.
    W06,
}

impl Rule {
    pub fn number(self) -> u8
        ensures { result ≡ spec.rule_number self }
    {
        match self {
            Rule::W01 => 1,
            Rule::W02 => 2,
            Rule::W03 => 3,
            Rule::W04 => 4,
            Rule::W05 => 5,
            Rule::W06 => 6,
        }
    }
}

/// The one with the lower number.
pub fn first_rule(left: Rule, right: Rule) -> Rule
    ensures { result ≡ spec.first_rule left right }
{
    if left.number() <= right.number() {
        left
    } else {
        right
    }
}
