//! The end of a trial, by the token that is in hand.

ghost use Rattle.solver.specs.Model.{model};
ghost use Rattle.replay.specs.Replays.{Ended, Holds, Kept};

use law::Counts;
use measure::Measure;
use solver::{Solver, TrialToken};
use store::TieStore;

/// Rolls the trial back that is out, if one is: its two counts.
pub fn end_trial<S: TieStore, M: Measure>(
    solver: &mut Solver<S, M>,
    token: Option<TrialToken>,
) -> Option<Counts>
    requires holds { Holds (model S.TieStore solver.old) token }
    ensures ended { Ended M.Measure (model S.TieStore solver.old) token result (model S.TieStore solver.new) }
{
    let held = token?;
    // the token in hand is that of the trial
    Some(solver.roll_back(held).unwrap())
}

/// Commits the trial that is out, if one is: whether one was.
pub fn keep_trial<S: TieStore, M: Measure>(
    solver: &mut Solver<S, M>,
    token: Option<TrialToken>,
) -> bool
    requires holds { Holds (model S.TieStore solver.old) token }
    ensures kept { Kept M.Measure (model S.TieStore solver.old) token result (model S.TieStore solver.new) }
{
    let Some(held) = token else {
        return false;
    };
    // the token in hand is that of the trial
    solver.commit(held).unwrap();
    true
}
