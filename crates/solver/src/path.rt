//! A marker's path.

ghost use Rattle.std.specs.Prelude.{length};
ghost use Rattle.law.specs.Calls.{Answered};
ghost use Rattle.law.specs.Results.{read_path};
ghost use Rattle.law.specs.Telling.{Logged};
ghost use Rattle.law.specs.declared.call.Call.TheVariants as call;
ghost use Rattle.solver.specs.Model.{model};

use crate::solver::Solver;
use law::Refusal;
use measure::Measure;
use store::TieStore;

impl<S: TieStore, M: Measure> Solver<S, M> {
    /// Writes the path of a marker, datum first, to the front of `out`: its length.
    pub fn path(&self, marker: u16, out: &mut [u16]) -> Result<u16, Refusal>
        ensures answered { Answered M.Measure (model S.TieStore self.now) (call.Path marker (length out.old)) out.old (read_path result) out.new (model S.TieStore self.now) }
        ensures logged { Logged M.Measure (model S.TieStore self.now) (call.Path marker (length out.old)) (read_path result) out.new (model S.TieStore self.now) }
    {
        self.check_marker(marker)?;
        if out.len() < self.table.n() as usize {
            return Err(Refusal::ShortBuffer);
        }
        Ok(self.table.path(marker, out))
    }
}
