//! What every measure's order gives.

ghost use Rattle.std.specs.Prelude.{◌≡◌, Decides};
ghost use Rattle.measure.specs.Least.{least};

use crate::{Amount, Measure};

/// Whether `a` stands for no more than `b`.
pub fn at_most<M: Measure>(measure: &M, a: Amount, b: Amount) -> bool
    requires { (M.within 256 a) × (M.within 256 b) }
    ensures { Decides result (M.group.le (M.value a) (M.value b)) }
{
    measure.compare(a, b).is_le()
}

/// The lesser of two amounts: the first, unless it stands for more than the second.
pub fn least<M: Measure>(measure: &M, a: Amount, b: Amount) -> Amount
    requires { (M.within 256 a) × (M.within 256 b) }
    ensures { result ≡ least M.Measure a b }
{
    if at_most(measure, a, b) { a } else { b }
}
