//! The table that a change of one tie leads to.

ghost use Rattle.std.specs.Prelude.{◌≡◌, ◌<◌, false};
ghost use Rattle.bounds.specs.Small.{Small};
ghost use Rattle.law.specs.Refusals.{is_new};
ghost use Rattle.store.specs.Meaning.{set_tie};
ghost use Rattle.solver.specs.Changing.{LeadsTo};

use crate::solver::Solver;
use bounds::Bounds;
use bounds::scope::{Change, Scope};
use change::{change, finish};
use graph::Graph;
use measure::Measure;
use store::TieStore;
use table::DepthTable;
use update::{Contradiction, Update};

impl<S: TieStore, M: Measure> Solver<S, M> {
    // The table of the ties with one changed, if it is another; or rows whose parents lead round a cycle.
    pub(crate) fn next_table(&self, step: Change) -> Result<Option<DepthTable>, Contradiction>
        requires opened { is_new self.now.state ≡ false }
        requires start { step.start < (S.TieStore.meaning self.now.store).count }
        requires end { step.end < (S.TieStore.meaning self.now.store).count }
        requires small { Small M.Measure step.amount }
        ensures { LeadsTo M.Measure self.now.total (S.TieStore.meaning self.now.store).count (set_tie (S.TieStore.meaning self.now.store).tie step.start step.end step.amount) step.start step.end self.now.table result }
    {
        let all = Bounds {
            store: &self.store,
            measure: &self.measure,
            total: self.total,
            scope: Scope::All,
        };
        let before = all.weight(step.start, step.end);
        let bounds = Bounds {
            store: &self.store,
            measure: &self.measure,
            total: self.total,
            scope: Scope::Changed(step),
        };
        let update = Update::new(&bounds, &self.measure, &self.table);
        let Some(next) = change(&update, step.start, step.end, before)? else {
            return Ok(None);
        };
        Ok(Some(finish(&bounds, &self.measure, &self.table, &next)))
    }
}
