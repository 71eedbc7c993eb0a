ghost use Rattle.std.specs.Prelude.{◌≡◌, ℕ, ◌<◌, Some, Decides, IfOk, MatchBool};
ghost use Rattle.graph.specs.Graph.{Weight};
ghost use Rattle.graph.specs.Theorems.{Solved};
ghost use Rattle.graph.specs.Weights.{weights};
ghost use Rattle.table.specs.Climb.{up as parents_of};
ghost use Rattle.update.specs.Reading.{Deep, depth, flag};
ghost use Rattle.update.specs.Lowering.{Falls, Growing, Room, Settlement, SolvedBefore};
ghost use Rattle.update.specs.Lowers.{Deeper, Falling, Lowers};

use crate::start::ancestors;
use crate::{Contradiction, Update, Work};
use graph::Graph;
use measure::{Amount, Measure};
use table::{DepthTable, Row};

impl<'a, G: Graph, M: Measure> Update<'a, G, M> {
    // Whether the depth of y has not fallen.
    fn stays(&self, work: &Work, y: u16) -> bool
        requires marker { y < self.now.table.n }
        requires labels { Deep M.Measure self.now.table.n 128 work.now.rows }
        ensures { Decides result (M.group.le (depth M.Measure self.now.table.rows y) (depth M.Measure work.now.rows y)) }
    {
        measure::at_most(self.measure, self.depth(y), work.rows[y as usize].depth)
    }

    // Settles one marker after another until none has fallen, or one of `up` would fall.
    fn settle_fallen(&self, up: &[bool; 64], mut work: Work) -> Result<Work, Contradiction>
        requires { Room M.Measure self.now.table.n work }
        ensures outcome { (w : Weight M.group) (a b : ℕ) (c : M.group.carrier)
            → Falls M.group self.now.table.n w (weights G.Graph M.Measure self.now.graph) a b c (depth M.Measure self.now.table.rows) (parents_of self.now.table.rows) (flag up.now)
            → Growing M.group self.now.table.n w (weights G.Graph M.Measure self.now.graph) a b c (depth M.Measure self.now.table.rows) (parents_of self.now.table.rows) (flag up.now) (flag work.done) (depth M.Measure work.rows) (parents_of work.rows)
            → Settlement M.Measure self.now.table.n (weights G.Graph M.Measure self.now.graph) a b result }
        ensures sizes { IfOk result (λ v. Deep M.Measure self.now.table.n 128 v.rows) }
    {
        while let Some(y) = self.nearest(&work) {
            if self.stays(&work, y) {
                break;
            }
            if let Err(z) = self.settle(up, &mut work, y) {
                return Err(work.closed(z, y));
            }
        }
        Ok(work)
    }

    // Whether the old depths still solve the graph, since b is no deeper than the edge from a allows.
    fn stands(&self, a: u16, b: u16, w: Amount) -> bool
        requires start { a < self.now.table.n }
        requires end { b < self.now.table.n }
        requires edge { G.Graph.weight self.now.graph a b ≡ Some w }
        requires standing { SolvedBefore M.group self.now.table.n (weights G.Graph M.Measure self.now.graph) a b (M.value w) (depth M.Measure self.now.table.rows) (parents_of self.now.table.rows) }
        ensures { MatchBool result
            (Solved M.group self.now.table.n (weights G.Graph M.Measure self.now.graph) (depth M.Measure self.now.table.rows) (parents_of self.now.table.rows))
            (Deeper M.Measure self.now.table.rows a b w) }
    {
        measure::at_most(self.measure, self.depth(b), self.allowed(a, b, w))
    }

    // Lowers b to the edge from a, and every marker that falls with it.
    fn fall(&self, a: u16, b: u16, w: Amount) -> Result<DepthTable, Contradiction>
        requires start { a < self.now.table.n }
        requires end { b < self.now.table.n }
        requires edge { G.Graph.weight self.now.graph a b ≡ Some w }
        requires standing { SolvedBefore M.group self.now.table.n (weights G.Graph M.Measure self.now.graph) a b (M.value w) (depth M.Measure self.now.table.rows) (parents_of self.now.table.rows) }
        requires falls { Deeper M.Measure self.now.table.rows a b w }
        ensures { Falling M.Measure self.now.table.n (weights G.Graph M.Measure self.now.graph) a b result }
    {
        let up = ancestors(self.table, a);
        let mut work = self.start();
        if up[b as usize] {
            return Err(Contradiction { rows: work.rows });
        }
        work.rows[b as usize] = Row {
            depth: self.allowed(a, b, w),
            parent: a,
        };
        let work = self.settle_fallen(&up, work)?;
        Ok(self.solved(work.rows))
    }

    /// The edge from a to b has fallen to w: the new table, if it is another; or a cycle that sums to below zero.
    pub fn lower(&self, a: u16, b: u16, w: Amount) -> Result<Option<DepthTable>, Contradiction>
        requires start { a < self.now.table.n }
        requires end { b < self.now.table.n }
        requires edge { G.Graph.weight self.now.graph a b ≡ Some w }
        requires standing { SolvedBefore M.group self.now.table.n (weights G.Graph M.Measure self.now.graph) a b (M.value w) (depth M.Measure self.now.table.rows) (parents_of self.now.table.rows) }
        ensures { Lowers M.Measure self.now.table.n (weights G.Graph M.Measure self.now.graph) a b self.now.table.rows result }
    {
        if self.stands(a, b, w) {
            return Ok(None);
        }
        Ok(Some(self.fall(a, b, w)?))
    }
}
