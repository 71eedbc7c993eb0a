//! Ties put, replaced and taken away.

ghost use Rattle.std.specs.Prelude.{[], length};
ghost use Rattle.law.specs.Calls.{Answered};
ghost use Rattle.law.specs.Results.{changed};
ghost use Rattle.law.specs.Telling.{Logged};
ghost use Rattle.law.specs.declared.call.Call.TheVariants as call;
ghost use Rattle.solver.specs.Model.{model};

use crate::solver::Solver;
use law::{Counts, Refusal};
use measure::{Amount, Measure};
use store::TieStore;
use table::trail;

impl<S: TieStore, M: Measure> Solver<S, M> {
    /// Puts the tie from one marker to another, or replaces its amount: how many markers then have another depth, and how many
    /// another parent. A contradiction puts a cycle, from `to` round to `from`, at the front of `cycle`.
    pub fn tie(
        &mut self,
        from: u16,
        to: u16,
        amount: Amount,
        cycle: &mut [u16],
    ) -> Result<Counts, Refusal>
        ensures answered { Answered M.Measure (model S.TieStore self.old) (call.Tie from to amount (length cycle.old)) cycle.old (changed result) cycle.new (model S.TieStore self.new) }
        ensures logged { Logged M.Measure (model S.TieStore self.old) (call.Tie from to amount (length cycle.old)) (changed result) cycle.new (model S.TieStore self.new) }
    {
        // lets the proof see what is so of every solver
        let _ = &self.table;
        self.check_tie(from, to, amount, cycle.len())?;
        // by a match, since a proof has no name for a buffer that a closure wrote
        match self.settle(from, to, Some(amount)) {
            Ok(counts) => Ok(counts),
            Err(found) => Err(Refusal::Contradiction {
                length: trail(&found.rows, from, to, cycle),
            }),
        }
    }

    /// Takes the tie from one marker to another away: the same two counts.
    pub fn untie(&mut self, from: u16, to: u16) -> Result<Counts, Refusal>
        ensures answered { Answered M.Measure (model S.TieStore self.old) (call.Untie from to) [] (changed result) [] (model S.TieStore self.new) }
        ensures logged { Logged M.Measure (model S.TieStore self.old) (call.Untie from to) (changed result) [] (model S.TieStore self.new) }
    {
        // lets the proof see what is so of every solver
        let _ = &self.table;
        self.check_untie(from, to)?;
        // whatever fits the ties fits them without this one
        Ok(self.settle(from, to, None).unwrap())
    }
}
