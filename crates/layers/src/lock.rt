//! A layer that closes markers.

ghost use Rattle.std.specs.Prelude.{◌≡◌};
ghost use Rattle.store.specs.Meaning.{put_answer, put_after, clear_answer, clear_after};
ghost use Rattle.layers.specs.Layers.{in_set, lock, screen, put_below, clear_below, Put, Cleared};
ghost use Rattle.layers.specs.Laws.{lock_lawful};

use measure::Amount;
use store::{Refusal, TieStore};

/// A store with further markers closed: those of a set, whose bit m stands for marker m. Bits from the number of markers up stand
/// for none.
#[derive(Drop)]
pub struct Locked<S> {
    below: S,
    set: u64,
}

impl<S: TieStore> Locked<S> {
    /// Closes the markers of the set.
    pub fn new(below: S, set: u64) -> Locked<S>
        ensures meaning { lock result.set (S.TieStore.meaning result.below) ≡ lock set (S.TieStore.meaning below) }
        ensures below { result.below ≡ below }
        ensures set { result.set ≡ set }
    {
        Locked { below, set }
    }

    /// The store that was locked.
    pub fn into_below(self) -> S
        ensures { result ≡ self.below }
    {
        let Locked { below, .. } = self;
        below
    }

    // Whether the marker is one of the set.
    pub(crate) fn in_set(&self, marker: u16) -> bool
        ensures { result ≡ in_set self.now.set (S.TieStore.meaning self.now.below) marker }
    {
        marker < self.below.marker_count() && marker < 64 && (self.set >> marker) % 2 == 1
    }

    // A put on the store below, unless the pair is refused here. What is said of a lock holds of a screen too.
    pub(crate) fn put_below(&mut self, a: u16, b: u16, amount: Amount) -> Result<(), Refusal>
        ensures locked { Put (lock self.old.set) (S.TieStore.meaning self.old.below) a b amount result (S.TieStore.meaning self.new.below) }
        ensures screened { Put (screen self.old.set) (S.TieStore.meaning self.old.below) a b amount result (S.TieStore.meaning self.new.below) }
        ensures set { self.new.set ≡ self.old.set }
    {
        self.check_pair(a, b)?;
        self.below.put(a, b, amount)
    }

    // The same of a clear.
    pub(crate) fn clear_below(&mut self, a: u16, b: u16) -> Result<(), Refusal>
        ensures locked { Cleared (lock self.old.set) (S.TieStore.meaning self.old.below) a b result (S.TieStore.meaning self.new.below) }
        ensures screened { Cleared (screen self.old.set) (S.TieStore.meaning self.old.below) a b result (S.TieStore.meaning self.new.below) }
        ensures set { self.new.set ≡ self.old.set }
    {
        self.check_pair(a, b)?;
        self.below.clear(a, b)
    }
}

impl<S: TieStore> TieStore for Locked<S> {
    ghost meaning = { λ s. lock s.set (S.TieStore.meaning s.below) };

    ghost lawful = { λ s. lock_lawful s.set (S.TieStore.meaning s.below) (S.TieStore.lawful s.below) };

    fn marker_count(&self) -> u16 {
        self.below.marker_count()
    }

    fn is_closed(&self, marker: u16) -> bool {
        self.in_set(marker) || self.below.is_closed(marker)
    }

    fn amount(&self, a: u16, b: u16) -> Option<Amount> {
        self.below.amount(a, b)
    }

    fn free(&self) -> usize {
        self.below.free()
    }

    fn put(&mut self, a: u16, b: u16, amount: Amount) -> Result<(), Refusal>
        ensures answer { result ≡ put_answer (lock self.old.set (S.TieStore.meaning self.old.below)) a b }
        ensures after { lock self.new.set (S.TieStore.meaning self.new.below) ≡ put_after (lock self.old.set (S.TieStore.meaning self.old.below)) a b amount }
        ensures below { S.TieStore.meaning self.new.below ≡ put_below result (S.TieStore.meaning self.old.below) a b amount }
    {
        self.put_below(a, b, amount)
    }

    fn clear(&mut self, a: u16, b: u16) -> Result<(), Refusal>
        ensures answer { result ≡ clear_answer (lock self.old.set (S.TieStore.meaning self.old.below)) a b }
        ensures after { lock self.new.set (S.TieStore.meaning self.new.below) ≡ clear_after (lock self.old.set (S.TieStore.meaning self.old.below)) a b }
        ensures below { S.TieStore.meaning self.new.below ≡ clear_below result (S.TieStore.meaning self.old.below) a b }
    {
        self.clear_below(a, b)
    }
}
