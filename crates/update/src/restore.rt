ghost use Rattle.std.specs.Prelude.{◌≡◌, ℕ, ◌<◌, Decides};
ghost use Rattle.graph.specs.Graph.{PathTo};
ghost use Rattle.graph.specs.Tree.{path_to};
ghost use Rattle.graph.specs.Theorems.{Solved};
ghost use Rattle.graph.specs.Weights.{weights};
ghost use Rattle.table.specs.Climb.{deep, up as parents_of};
ghost use Rattle.update.specs.Lowers.{Solution};
ghost use Rattle.update.specs.Reading.{depth};
ghost use Rattle.update.specs.Restoring.{Stands, TightEdge};

use crate::Update;
use graph::Graph;
use measure::Measure;
use table::DepthTable;

impl<'a, G: Graph, M: Measure> Update<'a, G, M> {
    // Whether the depth of z is that of x and the edge from x to z.
    fn tight(&self, x: u16, z: u16) -> bool
        requires start { x < self.now.table.n }
        requires end { z < self.now.table.n }
        ensures { Decides result (TightEdge M.group self.now.table.n (weights G.Graph M.Measure self.now.graph) (depth M.Measure self.now.table.rows) x z) }
    {
        let Some(w) = self.graph.weight(x, z) else {
            return false;
        };
        self.measure
            .compare(self.depth(z), self.allowed(x, z, w))
            .is_eq()
    }

    // Whether each edge of the old path to m is tight.
    fn path_stands(&self, old: &DepthTable, m: u16) -> bool
        requires same { old.now.n ≡ self.now.table.n }
        requires marker { m < old.now.n }
        ensures { Decides result (Stands M.group self.now.table.n (weights G.Graph M.Measure self.now.graph) (depth M.Measure self.now.table.rows) (parents_of old.now.rows) m) }
    {
        let mut here = m;
        while here != 0 {
            let above = old.parent(here);
            if !self.tight(above, here) {
                return false;
            }
            here = above;
        }
        true
    }

    /// The table with the old parents along each old path that still adds up to its marker's depth.
    pub fn restore(&self, old: &DepthTable) -> DepthTable
        requires same { old.now.n ≡ self.now.table.n }
        requires solved { Solved M.group self.now.table.n (weights G.Graph M.Measure self.now.graph) (depth M.Measure self.now.table.rows) (parents_of self.now.table.rows) }
        ensures depths { (z : ℕ) → deep result.rows z ≡ deep self.now.table.rows z }
        ensures solution { Solution M.Measure self.now.table.n (weights G.Graph M.Measure self.now.graph) result }
        ensures kept { (m : ℕ) → m < old.now.n
            → PathTo M.group old.now.n (weights G.Graph M.Measure self.now.graph) (path_to (parents_of old.now.rows) old.now.n m) m (depth M.Measure result.rows m)
            → path_to (parents_of result.rows) old.now.n m ≡ path_to (parents_of old.now.rows) old.now.n m }
    {
        let mut rows = self.table.rows();
        for m in 0..old.n() {
            let parent = old.parent(m);
            if rows[m as usize].parent != parent && self.path_stands(old, m) {
                rows[m as usize].parent = parent;
            }
        }
        self.solved(rows)
    }
}
