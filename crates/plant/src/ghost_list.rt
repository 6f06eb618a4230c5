//! A list that only clauses read.
ghost use Rattle.std.specs.Prelude.{◌≡◌, [], ◌∷◌};
ghost use Rattle.plant.specs.GhostList.{items_of};

use std::snapshot::Snapshot;

/// A list that takes no memory. Its last item is the first that clauses see.
pub enum GhostList<T> {
    Empty,
    Then(Snapshot<GhostList<T>>, Snapshot<T>),
}

impl<T> Drop for GhostList<T> {
    fn drop(self) {
        match self {
            GhostList::Empty => {}
            GhostList::Then(_before, _item) => {}
        }
    }
}

impl<T> GhostList<T> {
    pub fn new() -> GhostList<T>
        ensures { items_of result ≡ [] }
    {
        GhostList::Empty
    }

    pub fn push(&mut self, item: Snapshot<T>)
        ensures { items_of self.new ≡ item.value ∷ items_of self.old }
    {
        *self = GhostList::Then(Snapshot::of(self), item);
    }
}
