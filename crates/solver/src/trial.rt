//! Ties for the time being: tried, and then left standing or taken back.

ghost use Rattle.std.specs.Prelude.{◌≡◌, [], length};
ghost use Rattle.law.specs.Calls.{Answered};
ghost use Rattle.law.specs.Telling.{Logged};
ghost use Rattle.law.specs.declared.call.Call.TheVariants as call;
ghost use Rattle.law.specs.declared.call.State.TheVariants as state;
ghost use Rattle.solver.specs.Model.{model};
ghost use Rattle.solver.specs.Tokens.{tried, committed, ComesBack, Numbered};

use crate::solver::Solver;
use crate::token::{Returned, TrialToken};
use law::{Counts, Refusal, State};
use measure::{Amount, Measure};
use store::TieStore;

impl<S: TieStore, M: Measure> Solver<S, M> {
    // What a pair has that may be tried. A solver that is not open will refuse, and the store is not searched for it.
    fn amount_before(&self, from: u16, to: u16) -> Option<Amount>
        ensures { (model S.TieStore self.now).standing.state ≡ state.Open → result ≡ (model S.TieStore self.now).standing.ties from to }
    {
        match self.state {
            State::Open => self.store.amount(from, to),
            State::New | State::OnTrial { .. } => None,
        }
    }

    /// A tie for the time being: the same two counts, and a token, which `commit` or `roll_back` takes. Until then no tie can be
    /// put or taken away, and readings go on.
    pub fn trial(
        &mut self,
        from: u16,
        to: u16,
        amount: Amount,
        cycle: &mut [u16],
    ) -> Result<(Counts, TrialToken), Refusal>
        ensures answered { Answered M.Measure (model S.TieStore self.old) (call.Trial from to amount (length cycle.old)) cycle.old (tried result) cycle.new (model S.TieStore self.new) }
        ensures logged { Logged M.Measure (model S.TieStore self.old) (call.Trial from to amount (length cycle.old)) (tried result) cycle.new (model S.TieStore self.new) }
        ensures numbered { Numbered (model S.TieStore self.old).standing.number result }
    {
        let number = self.number;
        let before = self.amount_before(from, to);
        let counts = self.tie(from, to, amount, cycle)?;
        self.state = State::OnTrial { from, to, before };
        Ok((counts, TrialToken { number }))
    }

    /// Leaves the tried tie standing. A token that is not of the trial that is out comes back.
    pub fn commit(&mut self, token: TrialToken) -> Result<(), Returned>
        ensures answered { Answered M.Measure (model S.TieStore self.old) (call.Commit token.number) [] (committed result) [] (model S.TieStore self.new) }
        ensures logged { Logged M.Measure (model S.TieStore self.old) (call.Commit token.number) (committed result) [] (model S.TieStore self.new) }
        ensures back { ComesBack token result }
    {
        match self.state {
            State::OnTrial { .. } if token.number == self.number => {
                let TrialToken { number: _ } = token;
                self.state = State::Open;
                Ok(())
            }
            _ => Err(Returned {
                why: Refusal::WrongToken,
                token,
            }),
        }
    }
}
