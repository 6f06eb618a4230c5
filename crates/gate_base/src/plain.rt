ghost use Rattle.std.specs.Prelude.{◌≡◌, ◌↔◌, IsTrue, IfOk};

use crate::memory::NoMemory;
use crate::name::{Address, Name, Target};
use crate::sequence::Sequence;
use std::alloc::Global;

/// A plain value: two that look the same are the same, and a copy is the value again.
pub trait Plain {
    fn is_same(&self, other: &Self) -> bool
        ensures { IsTrue result ↔ (self.now ≡ other.now) };

    fn copied(&self, alloc: Global) -> Result<Self, NoMemory>
    where
        Self: Sized,
        ensures { IfOk result (λ copy. copy ≡ self.now) };
}

impl Plain for u8 {
    fn is_same(&self, other: &u8) -> bool {
        self == other
    }

    fn copied(&self, _alloc: Global) -> Result<u8, NoMemory> {
        Ok(*self)
    }
}

impl<T: Plain + Drop> Plain for Sequence<T> {
    fn is_same(&self, other: &Sequence<T>) -> bool {
        are_same(self.as_slice(), other.as_slice())
    }

    fn copied(&self, alloc: Global) -> Result<Sequence<T>, NoMemory> {
        let mut copy = Sequence::new(alloc);
        for item in self.as_slice() {
            copy.push(item.copied(alloc)?)?;
        }
        Ok(copy)
    }
}

/// Whether two lists are the same.
pub fn are_same<T: Plain>(left: &[T], right: &[T]) -> bool
    ensures { IsTrue result ↔ (left.now ≡ right.now) }
{
    let mut lefts = left;
    let mut rights = right;
    while let [first, firsts @ ..] = lefts {
        let [second, seconds @ ..] = rights else {
            return false;
        };
        if !first.is_same(second) {
            return false;
        }
        lefts = firsts;
        rights = seconds;
    }
    rights.is_empty()
}

impl Plain for Address {
    fn is_same(&self, other: &Address) -> bool {
        self == other
    }

    fn copied(&self, _alloc: Global) -> Result<Address, NoMemory> {
        Ok(*self)
    }
}

impl Plain for Name {
    fn is_same(&self, other: &Name) -> bool {
        self.wild == other.wild && self.labels.is_same(&other.labels)
    }

    fn copied(&self, alloc: Global) -> Result<Name, NoMemory> {
        Ok(Name {
            labels: self.labels.copied(alloc)?,
            wild: self.wild,
        })
    }
}

impl Plain for Target {
    fn is_same(&self, other: &Target) -> bool {
        match (self, other) {
            (Target::Dns(name), Target::Dns(other)) => name.is_same(other),
            (Target::Ip(address), Target::Ip(other)) => address.is_same(other),
            (Target::Dns(_), Target::Ip(_)) | (Target::Ip(_), Target::Dns(_)) => false,
        }
    }

    fn copied(&self, alloc: Global) -> Result<Target, NoMemory> {
        match self {
            Target::Dns(name) => Ok(Target::Dns(name.copied(alloc)?)),
            Target::Ip(address) => Ok(Target::Ip(*address)),
        }
    }
}
