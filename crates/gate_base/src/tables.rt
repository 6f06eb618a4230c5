ghost use Rattle.std.specs.Prelude.{◌≡◌};
ghost use Rattle.gate_base.specs.Tables.{row_at, misses_among};

use crate::moment::Moment;

/// What is asked from a moment on.
#[derive(Clone, Copy)]
struct Row {
    reuse: u64,
    validity: u64,
    remotes: u64,
    regions: u64,
}

fn row_at(m: Moment) -> Row
    ensures reuse { result.reuse ≡ (row_at m.0).reuse }
    ensures validity { result.validity ≡ (row_at m.0).validity }
    ensures remotes { result.remotes ≡ (row_at m.0).remotes }
    ensures regions { result.regions ≡ (row_at m.0).regions }
{
    let (reuse, validity, remotes, regions) = if m.0 < 1_773_532_800 {
        (398, 398, 2, 1)
    } else if m.0 < 1_781_481_600 {
        (200, 200, 3, 2)
    } else if m.0 < 1_797_292_800 {
        (200, 200, 4, 2)
    } else if m.0 < 1_805_068_800 {
        (200, 200, 5, 2)
    } else if m.0 < 1_868_227_200 {
        (100, 100, 5, 2)
    } else {
        (10, 47, 5, 2)
    };
    Row {
        reuse,
        validity,
        remotes,
        regions,
    }
}

/// For how many days evidence may be used again.
pub fn reuse_days(m: Moment) -> u64
    ensures { result ≡ (row_at m.0).reuse }
{
    row_at(m).reuse
}

/// For how many days a certificate may be valid.
pub fn validity_days(m: Moment) -> u64
    ensures { result ≡ (row_at m.0).validity }
{
    row_at(m).validity
}

/// How many remote perspectives have to corroborate, where there are so many.
pub fn need_remotes(m: Moment) -> u64
    ensures { result ≡ (row_at m.0).remotes }
{
    row_at(m).remotes
}

/// In how many regions the remote perspectives that corroborate have to lie.
pub fn need_regions(m: Moment) -> u64
    ensures { result ≡ (row_at m.0).regions }
{
    row_at(m).regions
}

/// How many of n remote perspectives may fail to corroborate.
pub fn allowed_misses(n: u64) -> u64
    ensures { result ≡ misses_among n }
{
    if n < 2 {
        0
    } else if n < 6 {
        1
    } else {
        2
    }
}

#[cfg(test)]
mod tests {
    use super::*;

    #[test]
    fn rows_begin_at_their_moments(rt: HostRuntime) {
        let starts = [
            (0, 398, 398, 2, 1),
            (1_773_532_800, 200, 200, 3, 2),
            (1_781_481_600, 200, 200, 4, 2),
            (1_797_292_800, 200, 200, 5, 2),
            (1_805_068_800, 100, 100, 5, 2),
            (1_868_227_200, 10, 47, 5, 2),
        ];
        let mut before = (398, 398, 2, 1);
        for (from, reuse, validity, remotes, regions) in starts {
            let now = (reuse, validity, remotes, regions);
            assert_eq!(rt; values(from), now, "from {from}");
            assert_eq!(rt; values(from.saturating_sub(1)), before, "before {from}");
            before = now;
        }
        assert_eq!(rt; values(u64::MAX), before);
    }

    fn values(seconds: u64) -> (u64, u64, u64, u64) {
        let m = Moment(seconds);
        (
            reuse_days(m),
            validity_days(m),
            need_remotes(m),
            need_regions(m),
        )
    }

    #[test]
    fn misses(rt: HostRuntime) {
        for (n, want) in [(0, 0), (1, 0), (2, 1), (5, 1), (6, 2), (u64::MAX, 2)] {
            assert_eq!(rt; allowed_misses(n), want, "of {n}");
        }
    }
}
