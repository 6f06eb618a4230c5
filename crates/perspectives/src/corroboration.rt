ghost use Rattle.std.specs.Prelude.{◌≡◌};
ghost use Rattle.perspectives.specs.Quorum.{remote_count, good_count, lies_in, has_good_in, region_count, needed_among, quorum_of};

use crate::answer::Quorum;
use crate::panel::Panel;
use crate::perspective::{Perspective, Region};
use gate_base::{Moment, allowed_misses, need_regions, need_remotes};

/// Whether the remote perspectives corroborate at a moment; `good` says of each member, in order, whether it does.
pub fn quorum(p: &Panel, good: &[bool], m: Moment) -> Quorum
    ensures { result ≡ quorum_of p.now good.now m.0 }
{
    let members = p.members();
    let needed = needed_among(remote_count(members), m);
    let corroborating = good_count(members, good);
    if corroborating < needed {
        return Quorum::TooFew {
            good: corroborating,
            needed,
        };
    }
    if region_count(members, good) < need_regions(m) {
        return Quorum::OneRegion;
    }
    Quorum::Met
}

fn needed_among(remotes: u64, m: Moment) -> u64
    ensures { result ≡ needed_among remotes m.0 }
{
    let asked = need_remotes(m);
    if remotes < asked {
        asked
    } else {
        remotes - allowed_misses(remotes)
    }
}

fn remote_count(members: &[Perspective]) -> u64
    ensures { result ≡ remote_count members.now }
{
    members.iter().filter(|member| !member.primary).count() as u64
}

/// How many remote perspectives are good.
fn good_count(members: &[Perspective], good: &[bool]) -> u64
    ensures { result ≡ good_count members.now good.now }
{
    members
        .iter()
        .zip(good.iter())
        .filter(|(member, is_good)| **is_good && !member.primary)
        .count() as u64
}

/// In how many regions the good remote perspectives lie.
fn region_count(members: &[Perspective], good: &[bool]) -> u64
    ensures { result ≡ region_count members.now good.now }
{
    let regions = [
        Region::Afrinic,
        Region::Apnic,
        Region::Arin,
        Region::Lacnic,
        Region::Ripe,
    ];
    regions
        .iter()
        .filter(|region| has_good_in(members, good, **region))
        .count() as u64
}

/// Whether a good remote perspective lies in the region.
fn has_good_in(members: &[Perspective], good: &[bool], region: Region) -> bool
    ensures { result ≡ has_good_in region members.now good.now }
{
    members.iter().zip(good.iter()).any(|(member, is_good)| *is_good
        && !member.primary
        && lies_in(region, member))
}

fn lies_in(region: Region, member: &Perspective) -> bool
    ensures { result ≡ lies_in region member.now }
{
    region == member.region
}
