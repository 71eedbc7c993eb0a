//! Amounts that are millimetres alone.

ghost use Rattle.std.specs.Prelude.{◌≡◌, ◌*◌, ◌&&◌, pos};
ghost use Rattle.measure.specs.Bounds.{UpTo, up_to};
ghost use Rattle.measure.specs.Integers.{integers};
ghost use Rattle.measure.specs.Plain.{plain_laws};

use crate::{Amount, Measure};
use std::cmp::Ordering;

/// Millimetres alone: every amount has no marks.
#[derive(Clone, Copy)]
pub struct PlainDepth;

impl Measure for PlainDepth {
    ghost group = { integers };

    ghost admits = { λ a. up_to 20000000 a.mm && up_to 0 a.marks };

    ghost within = { λ k a. UpTo (k * 20000000) a.mm × (a.marks ≡ pos 0) };

    ghost value = { λ a. a.mm };

    ghost zero = { record { mm = pos 0; marks = pos 0 } };

    ghost laws = { plain_laws };

    fn zero(&self) -> Amount {
        Amount::default()
    }

    fn admitted(&self, amount: Amount) -> bool {
        amount.has_admitted_mm() && amount.marks == 0
    }

    fn sum(&self, a: Amount, b: Amount) -> Amount {
        a.plus(b)
    }

    fn opposite(&self, a: Amount) -> Amount {
        a.negated()
    }

    fn compare(&self, a: Amount, b: Amount) -> Ordering {
        a.mm.cmp(&b.mm)
    }
}
