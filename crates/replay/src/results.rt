//! The results of the calls, as answers.

ghost use Rattle.std.specs.Prelude.{◌≡◌, Ok};
ghost use Rattle.std.specs.Result.{MatchResult};
ghost use Rattle.law.specs.declared.call.Answer.TheVariants.{Changed, Refused};
ghost use Rattle.solver.specs.Model.{read_row};
ghost use Rattle.replay.specs.Replays.{token_back};

use law::{Answer, Counts, Refusal};
use solver::{Returned, TrialToken};
use table::Row;

// The answer to a call with this result.
pub(crate) fn answer<T, F: FnOnce(T) -> Answer>(r: Result<T, Refusal>, accepted: F) -> Answer
    requires { F.IsAlwaysCallable accepted }
    ensures { MatchResult r (λ x. F.post accepted x result) (λ why. result ≡ Refused why) }
{
    match r {
        Ok(x) => accepted(x),
        Err(why) => Answer::Refused { why },
    }
}

// The same of a call that took a token, with the token that is then in hand.
pub(crate) fn ended<T, F: FnOnce(T) -> Answer>(
    r: Result<T, Returned>,
    accepted: F,
) -> (Answer, Option<TrialToken>)
    requires { F.IsAlwaysCallable accepted }
    ensures answer { MatchResult r (λ x. F.post accepted x result.0) (λ back. result.0 ≡ Refused back.why) }
    ensures held { result.1 ≡ token_back r }
{
    match r {
        Ok(x) => (accepted(x), None),
        Err(Returned { why, token }) => (Answer::Refused { why }, Some(token)),
    }
}

pub(crate) fn changed(counts: Counts) -> Answer
    ensures { result ≡ Changed counts.moved counts.reparented }
{
    Answer::Changed {
        moved: counts.moved,
        reparented: counts.reparented,
    }
}

pub(crate) fn read(row: Row) -> Answer
    ensures { result ≡ read_row (Ok row) }
{
    Answer::Row {
        depth: row.depth,
        parent: row.parent,
    }
}
