//! One call of a list.

ghost use Rattle.std.specs.Prelude.{◌≡◌, ◌≤◌, length};
ghost use Rattle.solver.specs.Model.{model};
ghost use Rattle.replay.specs.Replays.{capped, Holds, Made, room};

use crate::calls::{commit, open, path, roll_back, tie, trial};
use crate::results::{answer, changed, read};
use law::{Answer, Call};
use measure::Measure;
use solver::{Solver, TrialToken};
use store::TieStore;

// The call, lent no more places than an entry has.
pub(crate) fn cap(call: Call) -> Call
    ensures { result ≡ capped call }
{
    match call {
        Call::Open { room } => Call::Open { room: room.min(64) },
        Call::Tie {
            from,
            to,
            amount,
            room,
        } => Call::Tie {
            from,
            to,
            amount,
            room: room.min(64),
        },
        Call::Trial {
            from,
            to,
            amount,
            room,
        } => Call::Trial {
            from,
            to,
            amount,
            room: room.min(64),
        },
        Call::Path { marker, room } => Call::Path {
            marker,
            room: room.min(64),
        },
        other => other,
    }
}

/// Makes a call, with the token in hand: its answer, and the token that is then in hand.
pub fn answer_to<S: TieStore, M: Measure>(
    solver: &mut Solver<S, M>,
    call: Call,
    token: Option<TrialToken>,
    buffer: &mut [u16],
) -> (Answer, Option<TrialToken>)
    requires holds { Holds (model S.TieStore solver.old) token }
    requires fits { room call ≤ length buffer.old }
    ensures made { Made M.Measure (model S.TieStore solver.old) call result.0 buffer.new (model S.TieStore solver.new) }
    ensures holds { Holds (model S.TieStore solver.new) result.1 }
{
    match call {
        Call::Open { room } => (open(solver, room, buffer), token),
        Call::Tie {
            from,
            to,
            amount,
            room,
        } => (tie(solver, from, to, amount, room, buffer), token),
        Call::Untie { from, to } => (answer(solver.untie(from, to), changed), token),
        Call::Trial {
            from,
            to,
            amount,
            room,
        } => trial(solver, from, to, amount, room, buffer, token),
        Call::Commit { number } => commit(solver, number, token),
        Call::RollBack { number } => roll_back(solver, number, token),
        Call::Depth { marker } => (answer(solver.depth(marker), read), token),
        Call::Path { marker, room } => (path(solver, marker, room, buffer), token),
    }
}
