//! A trial that is taken back.

ghost use Rattle.std.specs.Prelude.{[]};
ghost use Rattle.law.specs.Calls.{Answered};
ghost use Rattle.law.specs.Telling.{Logged};
ghost use Rattle.law.specs.declared.call.Call.TheVariants as call;
ghost use Rattle.solver.specs.Model.{model};
ghost use Rattle.solver.specs.Tokens.{rolled_back, ComesBack};

use crate::solver::Solver;
use crate::token::{Returned, TrialToken};
use law::{Counts, Refusal, State};
use measure::Measure;
use store::TieStore;

impl<S: TieStore, M: Measure> Solver<S, M> {
    /// Gives the tried pair what it had before: how many markers then have another depth, and how many another parent. A token
    /// that is not of the trial that is out comes back.
    pub fn roll_back(&mut self, token: TrialToken) -> Result<Counts, Returned>
        ensures answered { Answered M.Measure (model S.TieStore self.old) (call.RollBack token.number) [] (rolled_back result) [] (model S.TieStore self.new) }
        ensures logged { Logged M.Measure (model S.TieStore self.old) (call.RollBack token.number) (rolled_back result) [] (model S.TieStore self.new) }
        ensures back { ComesBack token result }
    {
        match self.state {
            State::OnTrial { from, to, before } if token.number == self.number => {
                let TrialToken { number: _ } = token;
                self.state = State::Open;
                // what fitted before the trial fits again
                Ok(self.settle(from, to, before).unwrap())
            }
            _ => Err(Returned {
                why: Refusal::WrongToken,
                token,
            }),
        }
    }
}
