//! A marker's row, and the count of changes.

ghost use Rattle.std.specs.Prelude.{◌≡◌, []};
ghost use Rattle.law.specs.Calls.{Answered};
ghost use Rattle.law.specs.Telling.{Logged};
ghost use Rattle.law.specs.declared.call.Call.TheVariants as call;
ghost use Rattle.solver.specs.Model.{model, read_row};
ghost use Rattle.solver.specs.Trials.{Upheld};

use crate::solver::Solver;
use law::Refusal;
use measure::Measure;
use store::TieStore;
use table::Row;

impl<S: TieStore, M: Measure> Solver<S, M> {
    /// The deepest depth of a marker, and the marker before it on its path.
    pub fn depth(&self, marker: u16) -> Result<Row, Refusal>
        ensures answered { Answered M.Measure (model S.TieStore self.now) (call.Depth marker) [] (read_row result) [] (model S.TieStore self.now) }
        ensures logged { Logged M.Measure (model S.TieStore self.now) (call.Depth marker) (read_row result) [] (model S.TieStore self.now) }
    {
        self.check_marker(marker)?;
        Ok(self.table.row(marker))
    }

    /// How many changes were accepted; it stays at its largest value. Here a proof also learns what is so of every solver.
    pub fn change_count(&self) -> u32
        ensures count { result ≡ (model S.TieStore self.now).changes }
        ensures upheld { Upheld S.TieStore M.Measure self.now }
    {
        self.changes
    }
}
