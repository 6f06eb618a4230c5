//! Observations as plain values.

use crate::memory::NoMemory;
use crate::plain::Plain;
use crate::seen::{CaaAnswer, CaaRow, CaaSeen, DnsSeen, Hop, Seen, WebSeen};
use std::alloc::Global;

impl Plain for DnsSeen {
    fn is_same(&self, other: &DnsSeen) -> bool {
        self.prefix.is_same(&other.prefix)
            && self.txts.is_same(&other.txts)
            && self.cnames.is_same(&other.cnames)
    }

    fn copied(&self, alloc: Global) -> Result<DnsSeen, NoMemory> {
        Ok(DnsSeen {
            prefix: self.prefix.copied(alloc)?,
            txts: self.txts.copied(alloc)?,
            cnames: self.cnames.copied(alloc)?,
        })
    }
}

impl Plain for Hop {
    fn is_same(&self, other: &Hop) -> bool {
        self.status == other.status && self.location.is_same(&other.location)
    }

    fn copied(&self, alloc: Global) -> Result<Hop, NoMemory> {
        Ok(Hop {
            status: self.status,
            location: self.location.copied(alloc)?,
        })
    }
}

impl Plain for WebSeen {
    fn is_same(&self, other: &WebSeen) -> bool {
        self.status == other.status
            && self.url.is_same(&other.url)
            && self.hops.is_same(&other.hops)
            && self.body.is_same(&other.body)
    }

    fn copied(&self, alloc: Global) -> Result<WebSeen, NoMemory> {
        Ok(WebSeen {
            url: self.url.copied(alloc)?,
            hops: self.hops.copied(alloc)?,
            status: self.status,
            body: self.body.copied(alloc)?,
        })
    }
}

impl Plain for Seen {
    fn is_same(&self, other: &Seen) -> bool {
        match (self, other) {
            (Seen::Dns(dns), Seen::Dns(other)) => dns.is_same(other),
            (Seen::Web(web), Seen::Web(other)) => web.is_same(other),
            (Seen::Dns(_), Seen::Web(_)) | (Seen::Web(_), Seen::Dns(_)) => false,
        }
    }

    fn copied(&self, alloc: Global) -> Result<Seen, NoMemory> {
        match self {
            Seen::Dns(dns) => Ok(Seen::Dns(dns.copied(alloc)?)),
            Seen::Web(web) => Ok(Seen::Web(web.copied(alloc)?)),
        }
    }
}

impl Plain for CaaRow {
    fn is_same(&self, other: &CaaRow) -> bool {
        self.flags == other.flags
            && self.tag.is_same(&other.tag)
            && self.value.is_same(&other.value)
    }

    fn copied(&self, alloc: Global) -> Result<CaaRow, NoMemory> {
        Ok(CaaRow {
            flags: self.flags,
            tag: self.tag.copied(alloc)?,
            value: self.value.copied(alloc)?,
        })
    }
}

impl Plain for CaaAnswer {
    fn is_same(&self, other: &CaaAnswer) -> bool {
        match (self, other) {
            (CaaAnswer::Failed, CaaAnswer::Failed) => true,
            (
                CaaAnswer::Set { ttl, rows },
                CaaAnswer::Set {
                    ttl: other_ttl,
                    rows: other_rows,
                },
            ) => ttl == other_ttl && rows.is_same(other_rows),
            (CaaAnswer::Failed, CaaAnswer::Set { .. })
            | (CaaAnswer::Set { .. }, CaaAnswer::Failed) => false,
        }
    }

    fn copied(&self, alloc: Global) -> Result<CaaAnswer, NoMemory> {
        match self {
            CaaAnswer::Failed => Ok(CaaAnswer::Failed),
            CaaAnswer::Set { ttl, rows } => Ok(CaaAnswer::Set {
                ttl: *ttl,
                rows: rows.copied(alloc)?,
            }),
        }
    }
}

impl Plain for CaaSeen {
    fn is_same(&self, other: &CaaSeen) -> bool {
        self.answers.is_same(&other.answers)
    }

    fn copied(&self, alloc: Global) -> Result<CaaSeen, NoMemory> {
        Ok(CaaSeen {
            answers: self.answers.copied(alloc)?,
        })
    }
}

#[cfg(test)]
mod tests {
    use super::*;
    use crate::sequence::{Bytes, Sequence};

    /// A copy was made, and it is the item.
    fn has_copy<T: Plain + Drop>(alloc: Global, item: &T) -> bool {
        match item.copied(alloc) {
            Ok(copy) => copy.is_same(item),
            Err(_) => false,
        }
    }

    fn text(alloc: Global, bytes: &[u8]) -> Bytes {
        match Sequence::from_slice(alloc, bytes) {
            Ok(text) => text,
            Err(_) => Sequence::new(alloc),
        }
    }

    fn one<T: Plain + Drop>(alloc: Global, item: T) -> Sequence<T> {
        let mut list = Sequence::new(alloc);
        let _ = list.push(item);
        list
    }

    fn page(alloc: Global, location: &[u8]) -> Seen {
        Seen::Web(WebSeen {
            url: text(alloc, b"http://a.example/"),
            hops: one(
                alloc,
                Hop {
                    status: 301,
                    location: text(alloc, location),
                },
            ),
            status: 200,
            body: text(alloc, b"token"),
        })
    }

    fn texts(alloc: Global) -> Seen {
        Seen::Dns(DnsSeen {
            prefix: text(alloc, b"_acme-challenge"),
            txts: one(alloc, text(alloc, b"token")),
            cnames: Sequence::new(alloc),
        })
    }

    fn answers(alloc: Global, ttl: u32) -> CaaSeen {
        let row = CaaRow {
            flags: 128,
            tag: text(alloc, b"issue"),
            value: text(alloc, b"ca.example"),
        };
        let set = CaaAnswer::Set {
            ttl,
            rows: one(alloc, row),
        };
        CaaSeen {
            answers: one(alloc, set),
        }
    }

    /// One of the six comparisons, counted from 0.
    fn comes_out(alloc: Global, number: u8) -> bool {
        match number {
            0 => has_copy(alloc, &page(alloc, b"http://b.example/")),
            1 => has_copy(alloc, &texts(alloc)),
            2 => has_copy(alloc, &answers(alloc, 60)),
            3 => !texts(alloc).is_same(&page(alloc, b"")),
            4 => !page(alloc, b"http://b.example/").is_same(&page(alloc, b"http://c.example/")),
            _ => !answers(alloc, 60).is_same(&answers(alloc, 61)),
        }
    }

    #[test]
    fn observations_are_copied_and_compared(rt: HostRuntime) {
        for number in 0..6 {
            assert!(rt; comes_out(rt.alloc(), number), "number {number}");
        }
    }
}
