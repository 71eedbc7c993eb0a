//! The calls that are lent a buffer or a token.

ghost use Rattle.std.specs.Prelude.{◌≤◌, [], length};
ghost use Rattle.law.specs.declared.call.Call.TheVariants as call;
ghost use Rattle.solver.specs.Model.{model};
ghost use Rattle.replay.specs.Replays.{Bears, Holds, Made};

use crate::results::{answer, changed, ended};
use law::{Answer, Refusal};
use measure::{Amount, Measure};
use solver::{Solver, TrialToken};
use store::TieStore;

const WRONG_TOKEN: Answer = Answer::Refused {
    why: Refusal::WrongToken,
};

pub(crate) fn open<S: TieStore, M: Measure>(
    solver: &mut Solver<S, M>,
    room: usize,
    buffer: &mut [u16],
) -> Answer
    requires fits { room ≤ length buffer.old }
    ensures made { Made M.Measure (model S.TieStore solver.old) (call.Open room) result buffer.new (model S.TieStore solver.new) }
{
    answer(
        solver.open(&mut buffer[0..room]),
        |markers| Answer::Opened { markers },
    )
}

pub(crate) fn tie<S: TieStore, M: Measure>(
    solver: &mut Solver<S, M>,
    from: u16,
    to: u16,
    amount: Amount,
    room: usize,
    buffer: &mut [u16],
) -> Answer
    requires fits { room ≤ length buffer.old }
    ensures made { Made M.Measure (model S.TieStore solver.old) (call.Tie from to amount room) result buffer.new (model S.TieStore solver.new) }
{
    answer(solver.tie(from, to, amount, &mut buffer[0..room]), changed)
}

pub(crate) fn path<S: TieStore, M: Measure>(
    solver: &Solver<S, M>,
    marker: u16,
    room: usize,
    buffer: &mut [u16],
) -> Answer
    requires fits { room ≤ length buffer.old }
    ensures { Made M.Measure (model S.TieStore solver.now) (call.Path marker room) result buffer.new (model S.TieStore solver.now) }
{
    answer(solver.path(marker, &mut buffer[0..room]), |length| {
        Answer::Length { length }
    })
}

pub(crate) fn trial<S: TieStore, M: Measure>(
    solver: &mut Solver<S, M>,
    from: u16,
    to: u16,
    amount: Amount,
    room: usize,
    buffer: &mut [u16],
    token: Option<TrialToken>,
) -> (Answer, Option<TrialToken>)
    requires holds { Holds (model S.TieStore solver.old) token }
    requires fits { room ≤ length buffer.old }
    ensures made { Made M.Measure (model S.TieStore solver.old) (call.Trial from to amount room) result.0 buffer.new (model S.TieStore solver.new) }
    ensures holds { Holds (model S.TieStore solver.new) result.1 }
{
    match solver.trial(from, to, amount, &mut buffer[0..room]) {
        Ok((counts, new)) => match token {
            None => (changed(counts), Some(new)),
            // while a trial is out no other is accepted
            Some(_held) => unreachable(),
        },
        Err(why) => (Answer::Refused { why }, token),
    }
}

// The token in hand, if it bears the number; else what is in hand, again.
fn bearing(token: Option<TrialToken>, number: u32) -> Result<TrialToken, Option<TrialToken>>
    ensures { Bears token number result }
{
    match token {
        Some(held) if held.number() == number => Ok(held),
        other => Err(other),
    }
}

// Commits by the token in hand, if it bears the number.
pub(crate) fn commit<S: TieStore, M: Measure>(
    solver: &mut Solver<S, M>,
    number: u32,
    token: Option<TrialToken>,
) -> (Answer, Option<TrialToken>)
    requires holds { Holds (model S.TieStore solver.old) token }
    ensures made { Made M.Measure (model S.TieStore solver.old) (call.Commit number) result.0 [] (model S.TieStore solver.new) }
    ensures holds { Holds (model S.TieStore solver.new) result.1 }
{
    match bearing(token, number) {
        Ok(held) => ended(solver.commit(held), |()| Answer::Committed),
        Err(token) => (WRONG_TOKEN, token),
    }
}

// Rolls back by the token in hand, if it bears the number.
pub(crate) fn roll_back<S: TieStore, M: Measure>(
    solver: &mut Solver<S, M>,
    number: u32,
    token: Option<TrialToken>,
) -> (Answer, Option<TrialToken>)
    requires holds { Holds (model S.TieStore solver.old) token }
    ensures made { Made M.Measure (model S.TieStore solver.old) (call.RollBack number) result.0 [] (model S.TieStore solver.new) }
    ensures holds { Holds (model S.TieStore solver.new) result.1 }
{
    match bearing(token, number) {
        Ok(held) => ended(solver.roll_back(held), changed),
        Err(token) => (WRONG_TOKEN, token),
    }
}
