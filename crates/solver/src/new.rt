//! Making a solver.

ghost use Rattle.std.specs.Prelude.{◌≡◌, []};
ghost use Rattle.law.specs.Telling.{Tells};
ghost use Rattle.law.specs.declared.call.State.TheVariants as state;
ghost use Rattle.solver.specs.Model.{model, standing_of};

use crate::solver::Solver;
use law::State;
use measure::{Amount, Measure};
use store::TieStore;
use table::DepthTable;

impl<S: TieStore, M: Measure> Solver<S, M> {
    /// A new solver over the ties that `store` holds. No marker may lie deeper than `total_depth`. Tokens bear `number`.
    pub fn new(store: S, measure: M, total_depth: Amount, number: u32) -> Solver<S, M>
        ensures standing { (model S.TieStore result).standing ≡ standing_of (S.TieStore.meaning store) total_depth number state.New }
        ensures changes { (model S.TieStore result).changes ≡ 0 }
        ensures tells { Tells M.Measure (model S.TieStore result).standing [] (model S.TieStore result) }
    {
        let zero = measure.zero();
        let table = DepthTable::flat(store.marker_count(), zero, zero);
        Solver {
            store,
            measure,
            total: total_depth,
            number,
            state: State::New,
            changes: 0,
            table,
        }
    }
}
