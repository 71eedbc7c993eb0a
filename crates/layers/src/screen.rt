//! A layer that closes markers and hides their ties.

ghost use Rattle.std.specs.Prelude.{◌≡◌};
ghost use Rattle.store.specs.Meaning.{put_answer, put_after, clear_answer, clear_after};
ghost use Rattle.layers.specs.Layers.{screen, put_below, clear_below};
ghost use Rattle.layers.specs.Laws.{screen_lawful};

use crate::lock::Locked;
use measure::Amount;
use store::{Refusal, TieStore};

/// A locked store that does not show the ties of the markers in its set.
#[derive(Drop)]
pub struct Screened<S> {
    locked: Locked<S>,
}

impl<S: TieStore> Screened<S> {
    /// Closes the markers of the set, and hides their ties.
    pub fn new(below: S, set: u64) -> Screened<S>
        ensures meaning { screen result.locked.set (S.TieStore.meaning result.locked.below) ≡ screen set (S.TieStore.meaning below) }
        ensures below { result.locked.below ≡ below }
        ensures set { result.locked.set ≡ set }
    {
        Screened {
            locked: Locked::new(below, set),
        }
    }

    /// The store that was screened, with the ties that were hidden.
    pub fn into_below(self) -> S
        ensures { result ≡ self.locked.below }
    {
        self.locked.into_below()
    }
}

impl<S: TieStore> TieStore for Screened<S> {
    ghost meaning = { λ s. screen s.locked.set (S.TieStore.meaning s.locked.below) };

    ghost lawful = { λ s. screen_lawful s.locked.set (S.TieStore.meaning s.locked.below) (S.TieStore.lawful s.locked.below) };

    fn marker_count(&self) -> u16 {
        self.locked.marker_count()
    }

    fn is_closed(&self, marker: u16) -> bool {
        self.locked.is_closed(marker)
    }

    fn amount(&self, a: u16, b: u16) -> Option<Amount> {
        if self.locked.in_set(a) || self.locked.in_set(b) {
            return None;
        }
        self.locked.amount(a, b)
    }

    fn free(&self) -> usize {
        self.locked.free()
    }

    fn put(&mut self, a: u16, b: u16, amount: Amount) -> Result<(), Refusal>
        ensures answer { result ≡ put_answer (screen self.old.locked.set (S.TieStore.meaning self.old.locked.below)) a b }
        ensures after { screen self.new.locked.set (S.TieStore.meaning self.new.locked.below) ≡ put_after (screen self.old.locked.set (S.TieStore.meaning self.old.locked.below)) a b amount }
        ensures below { S.TieStore.meaning self.new.locked.below ≡ put_below result (S.TieStore.meaning self.old.locked.below) a b amount }
    {
        self.locked.put_below(a, b, amount)
    }

    fn clear(&mut self, a: u16, b: u16) -> Result<(), Refusal>
        ensures answer { result ≡ clear_answer (screen self.old.locked.set (S.TieStore.meaning self.old.locked.below)) a b }
        ensures after { screen self.new.locked.set (S.TieStore.meaning self.new.locked.below) ≡ clear_after (screen self.old.locked.set (S.TieStore.meaning self.old.locked.below)) a b }
        ensures below { S.TieStore.meaning self.new.locked.below ≡ clear_below result (S.TieStore.meaning self.old.locked.below) a b }
    {
        self.locked.clear_below(a, b)
    }
}
