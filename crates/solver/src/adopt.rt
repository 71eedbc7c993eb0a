//! Taking over the table that a change leads to.

ghost use Rattle.solver.specs.Changing.{Adopted, SameSize};

use change::{moved, reparented};
use law::Counts;
use measure::Measure;
use table::DepthTable;

// Takes over the next table, if there is one: how many markers then have another depth, and how many another parent.
pub(crate) fn adopt<M: Measure>(
    measure: &M,
    table: &mut DepthTable,
    next: Option<DepthTable>,
) -> Counts
    requires { SameSize M.Measure table.old next }
    ensures { Adopted M.Measure table.old next result table.new }
{
    match next {
        None => Counts::default(),
        Some(next) => {
            let counts = Counts {
                moved: moved(measure, table, &next),
                reparented: reparented(table, &next),
            };
            *table = next;
            counts
        }
    }
}
