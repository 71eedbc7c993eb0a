//! Ties between markers: the interface of a store that holds them, and the list, which is one.

#![tactic(auto)]

pub mod list;

ghost use Rattle.std.specs.Prelude.{◌≡◌, Ok};
ghost use Rattle.store.specs.Meaning.{StoreMeaning, Lawful, code_of, pair_answer, put_answer, put_after, clear_answer, clear_after};

pub use list::TieList;
use measure::Amount;

/// A tie: marker `end` lies at most `amount` deeper than marker `start`.
#[derive(Clone, Copy, PartialEq, Eq, Default, Debug)]
pub struct TieRecord {
    pub start: u16,
    pub end: u16,
    pub amount: Amount,
}

/// Why a store says no, with the number by which users know it.
#[derive(Clone, Copy, PartialEq, Eq, Debug)]
pub enum Refusal {
    UnknownMarker = 4,
    SameMarker = 5,
    ClosedMarker = 6,
    PairEmpty = 9,
    StoreFull = 10,
    BadSize = 14,
}

impl Refusal {
    /// The number by which a refusal is known.
    pub fn code(&self) -> u8
        ensures { result ≡ code_of self.now }
    {
        *self as u8
    }
}

/// Holds the ties of 2 to 64 markers, at most one for each ordered pair of different markers.
pub trait TieStore {
    // what the store holds
    ghost meaning: { Self → StoreMeaning };

    ghost lawful: { (s : Self) → Lawful (meaning s) };

    fn marker_count(&self) -> u16
        ensures { result ≡ (meaning self.now).count };

    fn is_closed(&self, marker: u16) -> bool
        ensures { result ≡ (meaning self.now).closed marker };

    /// The amount of the tie from `a` to `b`, if there is one.
    fn amount(&self, a: u16, b: u16) -> Option<Amount>
        ensures { result ≡ (meaning self.now).tie a b };

    /// The number of further ties that the store can take.
    fn free(&self) -> usize
        ensures { result ≡ (meaning self.now).free };

    /// Why the tie from `a` to `b` may be neither put nor cleared.
    fn check_pair(&self, a: u16, b: u16) -> Result<(), Refusal>
        ensures { result ≡ pair_answer (meaning self.now) a b (Ok tt) }
    {
        let n = self.marker_count();
        if a >= n || b >= n {
            return Err(Refusal::UnknownMarker);
        }
        if a == b {
            return Err(Refusal::SameMarker);
        }
        if self.is_closed(a) || self.is_closed(b) {
            return Err(Refusal::ClosedMarker);
        }
        Ok(())
    }

    /// Sets the amount of the tie from `a` to `b`.
    fn put(&mut self, a: u16, b: u16, amount: Amount) -> Result<(), Refusal>
        ensures answer { result ≡ put_answer (meaning self.old) a b }
        ensures after { meaning self.new ≡ put_after (meaning self.old) a b amount };

    /// Takes the tie from `a` to `b` away.
    fn clear(&mut self, a: u16, b: u16) -> Result<(), Refusal>
        ensures answer { result ≡ clear_answer (meaning self.old) a b }
        ensures after { meaning self.new ≡ clear_after (meaning self.old) a b };
}
