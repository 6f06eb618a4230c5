ghost use Rattle.std.specs.Prelude.{◌≡◌, ◌<◌, ◌^◌, length};
ghost use Rattle.caa_climb.specs.Climb.{relevant, relevant_of, fresh_until};

use crate::relevant::Climb;
use gate_base::{CaaAnswer, CaaSeen, Moment, Name};

/// For how many seconds an answer may be used at least.
const SHORTEST_USE: u64 = 28_800;

/// The records of the nearest ancestor of a name that has any, from the name itself to its last label.
pub fn climb<'a>(seen: &'a CaaSeen, name: &Name) -> Climb<'a>
    ensures { relevant_of result ≡ relevant seen.now.answers (length name.now.labels) }
{
    for drop in 0..name.labels.len() {
        match seen.answers.get(drop) {
            Some(CaaAnswer::Set { ttl, rows }) => {
                if !rows.is_empty() {
                    return Climb::Found {
                        drop: drop as u64,
                        ttl: *ttl,
                        rows,
                    };
                }
            }
            Some(CaaAnswer::Failed) => return Climb::Unknown { drop: drop as u64 },
            None => return Climb::Unknown { drop: drop as u64 },
        }
    }
    Climb::Empty
}

/// Until when what was seen may be used.
pub fn fresh_until(c: &Climb<'_>, seen_at: Moment) -> Moment
    requires { seen_at.0 < 2 ^ 40 }
    ensures { result.0 ≡ fresh_until (relevant_of c.now) seen_at.0 }
{
    let span = match c {
        Climb::Found { ttl, .. } => SHORTEST_USE.max(u64::from(*ttl)),
        Climb::Empty | Climb::Unknown { .. } => SHORTEST_USE,
    };
    Moment(seen_at.0 + span)
}
