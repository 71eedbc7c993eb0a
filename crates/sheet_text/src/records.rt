//! A text's ties as records of a list.

ghost use Rattle.std.specs.Prelude.{◌≡◌, ◌≤◌, ◌++◌, map, length, drop};
ghost use Rattle.sheet_text.specs.Calls.{record_of};

use crate::ties::Tie;
use measure::Amount;
use store::TieRecord;

impl From<Tie> for TieRecord {
    ghost from_gives = { λ tie written. written ≡ record_of tie };

    fn from(tie: Tie) -> TieRecord {
        let marks = if tie.amount.strict { -1 } else { 0 };
        TieRecord {
            start: tie.start,
            end: tie.end,
            amount: Amount {
                mm: tie.amount.mm,
                marks,
            },
        }
    }
}

/// Writes the ties to the front of `records`.
pub(crate) fn write(ties: &[Tie], records: &mut [TieRecord])
    requires { length ties.now ≤ length records.old }
    ensures { records.new ≡ map record_of ties.now ++ drop (length ties.now) records.old }
{
    // By index: of what a `zip` with `iter_mut` writes, a proof learns nothing.
    for (i, tie) in ties.iter().enumerate() {
        records[i] = TieRecord::from(*tie);
    }
}
