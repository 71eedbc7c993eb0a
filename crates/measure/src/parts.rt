//! Amounts, part by part.

ghost use Rattle.std.specs.Prelude.{◌≡◌, ◌+ℤ◌, pos};
ghost use Rattle.measure.specs.Bounds.{Exact, up_to};
ghost use Rattle.measure.specs.Parts.{Added, Negated};

use crate::Amount;

impl Amount {
    /// So many millimetres, and no marks.
    pub const fn millimetres(mm: i64) -> Amount
        ensures { result ≡ record { mm = mm; marks = pos 0 } }
    {
        Amount { mm, marks: 0 }
    }

    // Whether the millimetres are few enough for a tie.
    pub(crate) fn has_admitted_mm(self) -> bool
        ensures { result ≡ up_to 20000000 self.mm }
    {
        (-20_000_000..=20_000_000).contains(&self.mm)
    }

    // The sum, part by part. Of the millimetres it is exact as far as 256 admitted amounts reach, whatever the marks are.
    pub(crate) fn plus(self, other: Amount) -> Amount
        ensures added { Added self other result }
        ensures mm { Exact 5120000000 (self.mm +ℤ other.mm) result.mm }
    {
        Amount {
            mm: self.mm.saturating_add(other.mm),
            marks: self.marks.saturating_add(other.marks),
        }
    }

    // The opposite, part by part.
    pub(crate) fn negated(self) -> Amount
        ensures { Negated self result }
    {
        Amount {
            mm: 0i64.saturating_sub(self.mm),
            marks: 0i32.saturating_sub(self.marks),
        }
    }
}
