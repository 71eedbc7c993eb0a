//! Amounts of depth, and the measures that add and compare them.

#![tactic(auto)]

pub mod order;
mod parts;
mod plain;
mod strict;

ghost use Rattle.std.specs.Prelude.{◌≡◌, ℕ, ◌+◌, ◌≤◌, Bool};
ghost use Rattle.std.specs.Ordering.{MatchOrdering};
ghost use Rattle.measure.specs.Group.{OrderedGroup, Lt};
ghost use Rattle.measure.specs.Laws.{MeasureLaws};
ghost use Rattle.measure.specs.declared.Amount.{Amount};

pub use order::{at_most, least};
pub use plain::PlainDepth;
use std::cmp::Ordering;
pub use strict::StrictDepth;

/// A difference of depth: millimetres, and marks that tell apart amounts of the same length.
#[derive(Clone, Copy, PartialEq, Eq, PartialOrd, Ord, Default, Debug)]
pub struct Amount {
    pub mm: i64,
    pub marks: i32,
}

/// How amounts add and compare. What they stand for are elements of an ordered commutative group.
pub trait Measure {
    ghost group: { OrderedGroup };

    // the amounts that a tie may have
    ghost admits: { Amount → Bool };

    // the amounts no larger than k admitted ones together; k is from 0 to 256
    ghost within: { ℕ → Amount → Type 0 };

    // the element that an amount denotes
    ghost value: { Amount → group.carrier };

    // the amount of no difference
    ghost zero: { Amount };

    ghost laws: { MeasureLaws group admits within value zero };

    fn zero(&self) -> Amount
        ensures { result ≡ zero };

    fn admitted(&self, amount: Amount) -> bool
        ensures { result ≡ admits amount };

    /// For amounts that are too large the answer is free, here and below.
    fn sum(&self, a: Amount, b: Amount) -> Amount
        ensures { (i j : ℕ) → i + j ≤ 256 → within i a → within j b → within (i + j) result × (value result ≡ group.plus (value a) (value b)) };

    fn opposite(&self, a: Amount) -> Amount
        ensures { (k : ℕ) → k ≤ 256 → within k a → within k result × (value result ≡ group.inverse (value a)) };

    fn compare(&self, a: Amount, b: Amount) -> Ordering
        ensures { within 256 a → within 256 b → MatchOrdering result (Lt group (value a) (value b)) (value a ≡ value b) (Lt group (value b) (value a)) };
}
