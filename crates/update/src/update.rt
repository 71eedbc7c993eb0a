ghost use Rattle.std.specs.Prelude.{◌≡◌, ℕ, ◌+◌, ◌<◌, ◌≤◌, Some, true, false, replicate};
ghost use Rattle.graph.specs.Settling.{Settles};
ghost use Rattle.graph.specs.Theorems.{Solved};
ghost use Rattle.graph.specs.Weights.{Usable, weights};
ghost use Rattle.table.specs.Climb.{deep, up as parents_of};
ghost use Rattle.update.specs.Reading.{Deep, depth, flag};
ghost use Rattle.update.specs.Nearest.{Best};
ghost use Rattle.update.specs.Relaxing.{Relaxation};
ghost use Rattle.update.specs.Lowering.{Room, settled};
ghost use Rattle.update.specs.Lowers.{Solution};

use crate::Work;
use crate::nearest::nearest;
use crate::relax::relax_from;
use graph::Graph;
use measure::{Amount, Measure};
use std::marker::Model;
use table::{DepthTable, Row};

/// A graph that can be solved, the measure of its amounts, and a table of its markers to bring up to date.
#[derive(Drop)]
pub struct Update<'a, G: Graph, M: Measure> {
    pub graph: &'a G,
    pub measure: &'a M,
    pub table: &'a DepthTable,
}

impl<'a, G: Graph, M: Measure> Model for Update<'a, G, M> {
    ghost use Rattle.update.specs.Tabled.{Tabled, Ready};

    ghost Value = { Tabled G };

    ghost view = { λ u. record { graph = u.graph.now; table = u.table.now } };

    ghost invariant = { λ u. Ready G.Graph M.Measure (record { graph = u.graph.now; table = u.table.now }) };
}

impl<'a, G: Graph, M: Measure> Update<'a, G, M> {
    /// The three together.
    pub fn new(graph: &'a G, measure: &'a M, table: &'a DepthTable) -> Update<'a, G, M>
        requires graph { Usable G.Graph M.Measure graph.now }
        requires same { table.now.n ≡ G.Graph.count graph.now }
        requires depths { Deep M.Measure table.now.n 63 table.now.rows }
        ensures graph { result.graph ≡ graph.now }
        ensures table { result.table ≡ table.now }
    {
        Update {
            graph,
            measure,
            table,
        }
    }

    // The depth of a marker.
    pub(crate) fn depth(&self, m: u16) -> Amount
        requires { m < self.now.table.n }
        ensures is { result ≡ deep self.now.table.rows m }
        ensures small { M.within 63 result }
    {
        self.table.depth(m)
    }

    // The depth that the edge from a, of weight w, allows b.
    pub(crate) fn allowed(&self, a: u16, b: u16, w: Amount) -> Amount
        requires start { a < self.now.table.n }
        requires edge { G.Graph.weight self.now.graph a b ≡ Some w }
        ensures is { M.value result ≡ M.group.plus (depth M.Measure self.now.table.rows a) (M.value w) }
        ensures small { M.within 64 result }
    {
        self.measure.sum(self.depth(a), w)
    }

    /// The depths and parents of the table, and no marker that is done.
    pub fn start(&self) -> Work
        ensures { result ≡ record { rows = self.now.table.rows; done = replicate 64 false } }
    {
        Work {
            rows: self.table.rows(),
            done: [false; 64],
        }
    }

    /// The marker that is not done whose depth has fallen furthest.
    pub fn nearest(&self, work: &Work) -> Option<u16>
        requires { Deep M.Measure self.now.table.n 128 work.now.rows }
        ensures { Best M.Measure.group (flag work.now.done) (depth M.Measure self.now.table.rows) (depth M.Measure work.now.rows) self.now.table.n result }
    {
        nearest(self.measure, self.table, work)
    }

    /// Lowers each marker that is not done by its edge from y, or says which marker of `up` would be lowered.
    pub fn relax(&self, up: &[bool; 64], work: &mut Work, y: u16) -> Result<(), u16>
        requires marker { y < self.now.table.n }
        requires done { flag work.old.done y ≡ true }
        requires sizes { Deep M.Measure self.now.table.n 255 work.old.rows }
        ensures relaxed { Relaxation M.Measure.group self.now.table.n (weights G.Graph M.Measure self.now.graph) (flag work.old.done) (flag up.now) (depth M.Measure work.old.rows) (parents_of work.old.rows) y (depth M.Measure work.new.rows) (parents_of work.new.rows) result }
        ensures done { work.new.done ≡ work.old.done }
        ensures sizes { (k : ℕ) → k ≤ 255 → M.within k (deep work.old.rows y) → Deep M.Measure self.now.table.n (k + 1) work.old.rows → Deep M.Measure self.now.table.n (k + 1) work.new.rows }
    {
        relax_from(self.graph, self.measure, up, work, y)
    }

    /// Makes the depth of y final, and lowers the others by their edges from y; or says which marker of `up` would be lowered.
    pub fn settle(&self, up: &[bool; 64], work: &mut Work, y: u16) -> Result<(), u16>
        requires marker { y < self.now.table.n }
        requires free { flag work.old.done y ≡ false }
        requires room { Room M.Measure self.now.table.n work.old }
        ensures settles { Settles (flag work.old.done) y (flag work.new.done) }
        ensures relaxed { Relaxation M.Measure.group self.now.table.n (weights G.Graph M.Measure self.now.graph) (flag work.new.done) (flag up.now) (depth M.Measure work.old.rows) (parents_of work.old.rows) y (depth M.Measure work.new.rows) (parents_of work.new.rows) result }
        ensures one { settled (flag work.new.done) self.now.table.n ≡ settled (flag work.old.done) self.now.table.n + 1 }
        ensures room { Room M.Measure self.now.table.n work.new }
    {
        work.done[y as usize] = true;
        self.relax(up, work, y)
    }

    /// The table of rows that solve the graph.
    pub fn solved(&self, rows: [Row; 64]) -> DepthTable
        requires sizes { Deep M.Measure self.now.table.n 128 rows }
        requires solved { Solved M.Measure.group self.now.table.n (weights G.Graph M.Measure self.now.graph) (depth M.Measure rows) (parents_of rows) }
        ensures rows { result.rows ≡ rows }
        ensures solution { Solution M.Measure self.now.table.n (weights G.Graph M.Measure self.now.graph) result }
    {
        DepthTable::of(self.table.n(), rows)
    }
}
