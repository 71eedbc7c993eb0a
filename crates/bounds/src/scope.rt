//! Which ties count.

use measure::Amount;

/// A pair of markers, and what its tie is to be.
#[derive(Clone, Copy)]
pub struct Change {
    pub start: u16,
    pub end: u16,
    pub amount: Option<Amount>,
}

/// Which ties of a store count.
#[derive(Clone, Copy)]
pub enum Scope {
    /// All of them.
    All,
    /// All, with one changed.
    Changed(Change),
    /// Those of the first pairs, by start and then by end.
    First(usize),
}
