//! Opening: the store's ties are inserted one after another into the table without ties.

ghost use Rattle.std.specs.Prelude.{◌≡◌, ◌+◌, ◌/◌, ◌%◌, ◌<◌, ◌≤◌, true, is_some, length};
ghost use Rattle.bounds.specs.Scopes.{in_scope};
ghost use Rattle.bounds.specs.Small.{BoundsSound};
ghost use Rattle.bounds.specs.declared.scope.Scope.TheVariants as scope;
ghost use Rattle.law.specs.Calls.{Answered};
ghost use Rattle.law.specs.Results.{opened};
ghost use Rattle.law.specs.Telling.{Logged};
ghost use Rattle.law.specs.declared.call.Call.TheVariants as call;
ghost use Rattle.measure.specs.Group.{Lt};
ghost use Rattle.solver.specs.Model.{model};
ghost use Rattle.solver.specs.Opening.{Solves};
ghost use Rattle.solver.specs.Suits.{TableSuits};

use crate::solver::Solver;
use bounds::Bounds;
use bounds::scope::Scope;
use graph::Graph;
use law::{Refusal, State};
use measure::Measure;
use store::TieStore;
use table::{DepthTable, trail};
use update::Update;

impl<S: TieStore, M: Measure> Solver<S, M> {
    // Whether pair `k` has a tie.
    fn is_tied(&self, k: usize) -> bool
        requires { k < 4096 }
        ensures { result ≡ is_some ((S.TieStore.meaning self.now.store).tie (k / 64) (k % 64)) }
    {
        let a = (k / 64) as u16;
        let b = (k % 64) as u16;
        self.store.amount(a, b).is_some()
    }

    // The table of the ties before pair `k`, which has one, becomes that of the ties up to it; or a cycle goes to the buffer's
    // front, and its length is answered.
    fn insert(&self, table: DepthTable, k: usize, cycle: &mut [u16]) -> Result<DepthTable, u16>
        requires limits { BoundsSound M.Measure self.now.total (S.TieStore.meaning self.now.store).tie }
        requires pair { k < 4096 }
        requires room { (S.TieStore.meaning self.now.store).count ≤ length cycle.old }
        requires tied { is_some ((S.TieStore.meaning self.now.store).tie (k / 64) (k % 64)) ≡ true }
        requires table { TableSuits M.Measure self.now.total (S.TieStore.meaning self.now.store).count (in_scope (S.TieStore.meaning self.now.store).tie (scope.First k)) table }
        ensures { Solves M.Measure self.now.total (S.TieStore.meaning self.now.store).count (in_scope (S.TieStore.meaning self.now.store).tie (scope.First (k + 1))) cycle.old cycle.new result }
    {
        let a = (k / 64) as u16;
        let b = (k % 64) as u16;
        let bounds = Bounds {
            store: &self.store,
            measure: &self.measure,
            total: self.total,
            scope: Scope::First(k + 1),
        };
        let Some(bound) = bounds.weight(a, b) else {
            return Ok(table);
        };
        match Update::new(&bounds, &self.measure, &table).lower(a, b, bound) {
            Ok(next) => Ok(next.unwrap_or(table)),
            Err(found) => Err(trail(&found.rows, a, b, cycle)),
        }
    }

    // The table of all ties; or a cycle goes to the buffer's front, and its length is answered.
    fn solve(&self, cycle: &mut [u16]) -> Result<DepthTable, u16>
        requires limits { BoundsSound M.Measure self.now.total (S.TieStore.meaning self.now.store).tie }
        requires deep { Lt M.group M.group.neutral (M.value self.now.total) }
        requires room { (S.TieStore.meaning self.now.store).count ≤ length cycle.old }
        ensures { Solves M.Measure self.now.total (S.TieStore.meaning self.now.store).count (S.TieStore.meaning self.now.store).tie cycle.old cycle.new result }
    {
        let mut table = DepthTable::flat(
            self.store.marker_count(),
            self.measure.zero(),
            self.total,
        );
        for k in 0..4096usize {
            // most pairs have none, and the table stays where it is
            if !self.is_tied(k) {
                continue;
            }
            table = self.insert(table, k, cycle)?;
        }
        Ok(table)
    }

    /// Solves the ties that the store holds: the number of markers. A contradiction puts a cycle of markers whose bounds add up
    /// to less than zero at the front of `cycle`.
    pub fn open(&mut self, cycle: &mut [u16]) -> Result<u16, Refusal>
        ensures answered { Answered M.Measure (model S.TieStore self.old) (call.Open (length cycle.old)) cycle.old (opened result) cycle.new (model S.TieStore self.new) }
        ensures logged { Logged M.Measure (model S.TieStore self.old) (call.Open (length cycle.old)) (opened result) cycle.new (model S.TieStore self.new) }
    {
        self.check_opening(cycle.len())?;
        let table = self
            .solve(cycle)
            .map_err(|length| Refusal::Contradiction { length })?;
        self.table = table;
        self.state = State::Open;
        Ok(self.table.n())
    }
}
