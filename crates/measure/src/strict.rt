//! Amounts whose marks decide where the millimetres are equal.

ghost use Rattle.std.specs.Prelude.{◌*◌, ◌&&◌, pos, negsuc, int_le};
ghost use Rattle.measure.specs.Bounds.{UpTo, up_to};
ghost use Rattle.measure.specs.Integers.{pairs};
ghost use Rattle.measure.specs.Strict.{strict_laws};

use crate::{Amount, Measure};
use std::cmp::Ordering;

/// Millimetres, and marks where the millimetres are equal: a mark of -1 reads "less than" for "at most".
#[derive(Clone, Copy)]
pub struct StrictDepth;

impl Measure for StrictDepth {
    ghost group = { pairs };

    ghost admits = { λ a. up_to 20000000 a.mm && (int_le (negsuc 0) a.marks && int_le a.marks (pos 0)) };

    ghost within = { λ k a. UpTo (k * 20000000) a.mm × UpTo k a.marks };

    ghost value = { λ a. (a.mm, a.marks) };

    ghost zero = { record { mm = pos 0; marks = pos 0 } };

    ghost laws = { strict_laws };

    fn zero(&self) -> Amount {
        Amount::default()
    }

    fn admitted(&self, amount: Amount) -> bool {
        amount.has_admitted_mm() && (-1..=0).contains(&amount.marks)
    }

    fn sum(&self, a: Amount, b: Amount) -> Amount {
        a.plus(b)
    }

    fn opposite(&self, a: Amount) -> Amount {
        a.negated()
    }

    fn compare(&self, a: Amount, b: Amount) -> Ordering {
        a.cmp(&b)
    }
}
