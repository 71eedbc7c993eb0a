//! Logs of a new solver.

ghost use Rattle.std.specs.Prelude.{◌≡◌};
ghost use Rattle.law.specs.Law.{Lawful};
ghost use Rattle.law.specs.declared.call.State.TheVariants as state;
ghost use Rattle.solver.specs.Model.{model, standing_of};
ghost use Rattle.replay.specs.Replays.{Holds, log_of};

use crate::replay;
use law::Entry;
use measure::{Amount, Measure};
use solver::{Solver, TrialToken};
use store::TieStore;

/// A solver after a list of calls, with the token of the trial that is out, if one is.
pub struct Run<S: TieStore, M: Measure> {
    pub solver: Solver<S, M>,
    pub token: Option<TrialToken>,
}

// Makes the calls on a solver that is new.
fn run_new<S: TieStore, M: Measure>(
    solver: &mut Solver<S, M>,
    entries: &mut [Entry],
) -> Option<TrialToken>
    requires new { (model S.TieStore solver.old).standing.state ≡ state.New }
    ensures holds { Holds (model S.TieStore solver.new) result }
    ensures lawful { Lawful M.Measure (model S.TieStore solver.old).standing (log_of entries.new) }
{
    replay(solver, None, entries)
}

/// Makes a new solver over the store, and then the calls of the entries, as `replay` does. Whatever the store, the measure and the
/// calls: the log is lawful.
pub fn replay_new<S: TieStore, M: Measure>(
    store: S,
    measure: M,
    total_depth: Amount,
    number: u32,
    entries: &mut [Entry],
) -> Run<S, M>
    ensures holds { Holds (model S.TieStore result.solver) result.token }
    ensures lawful { Lawful M.Measure (standing_of (S.TieStore.meaning store) total_depth number state.New) (log_of entries.new) }
{
    let mut solver = Solver::new(store, measure, total_depth, number);
    let token = run_new(&mut solver, entries);
    Run { solver, token }
}
