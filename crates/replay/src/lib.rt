//! Lists of calls, made one after another, with their answers filled in.

#![tactic(auto)]

ghost use Rattle.std.specs.Prelude.{◌≡◌, ℕ, slice_index_or};
ghost use Rattle.law.specs.Telling.{Ran};
ghost use Rattle.solver.specs.Model.{model};
ghost use Rattle.replay.specs.Replays.{blank, capped, Holds, log_of, Replayed};

use crate::answer::cap;
use law::Entry;
use measure::Measure;
use solver::{Solver, TrialToken};
use store::TieStore;

pub mod answer;
pub mod calls;
pub mod end;
pub mod results;
pub mod start;

pub use answer::answer_to;
pub use end::{end_trial, keep_trial};
pub use start::{Run, replay_new};

/// Makes the calls of the entries one after another, and fills in their answers and buffers. `token` is that of the trial that
/// is out, if one is; the answer is that of the trial that is out then. A call is lent at most the 64 places of its entry.
pub fn replay<S: TieStore, M: Measure>(
    solver: &mut Solver<S, M>,
    token: Option<TrialToken>,
    entries: &mut [Entry],
) -> Option<TrialToken>
    requires holds { Holds (model S.TieStore solver.old) token }
    ensures holds { Holds (model S.TieStore solver.new) result }
    ensures calls { (k : ℕ) → (slice_index_or entries.new k blank).call ≡ capped (slice_index_or entries.old k blank).call }
    ensures ran { Ran M.Measure (model S.TieStore solver.old) (log_of entries.new) (model S.TieStore solver.new) }
    ensures lawful { Replayed M.Measure (model S.TieStore solver.old) entries.new (model S.TieStore solver.new) }
{
    let mut held = token;
    for entry in entries.iter_mut() {
        entry.call = cap(entry.call);
        let (answer, left) = answer_to(solver, entry.call, held, &mut entry.buffer);
        held = left;
        entry.answer = answer;
    }
    held
}
