//! One tie changed: the new table is found first, and only then are store and rows written.

ghost use Rattle.std.specs.Prelude.{◌≡◌, ◌<◌, true, Ok};
ghost use Rattle.law.specs.declared.call.State.TheVariants as state;
ghost use Rattle.solver.specs.Settling.{admitted_step, Settles};
ghost use Rattle.solver.specs.Writing.{set_answer};

use crate::adopt::adopt;
use crate::solver::Solver;
use crate::write::set_tie;
use bounds::scope::Change;
use law::Counts;
use measure::{Amount, Measure};
use store::TieStore;
use update::Contradiction;

impl<S: TieStore, M: Measure> Solver<S, M> {
    // Gives a pair of an open solver an amount, or none: how many markers then have another depth, and how many another parent; or
    // rows whose parents lead round a cycle, and nothing is changed.
    pub(crate) fn settle(
        &mut self,
        from: u16,
        to: u16,
        amount: Option<Amount>,
    ) -> Result<Counts, Contradiction>
        requires opened { self.old.state ≡ state.Open }
        requires start { from < (S.TieStore.meaning self.old.store).count }
        requires end { to < (S.TieStore.meaning self.old.store).count }
        requires admitted { admitted_step M.Measure amount ≡ true }
        requires taken { set_answer (S.TieStore.meaning self.old.store) from to amount ≡ Ok tt }
        ensures { Settles S.TieStore M.Measure self.old from to amount result self.new }
    {
        let next = self.next_table(Change {
            start: from,
            end: to,
            amount,
        })?;
        set_tie(&mut self.store, from, to, amount);
        self.changes = self.changes.saturating_add(1);
        Ok(adopt(&self.measure, &mut self.table, next))
    }
}
