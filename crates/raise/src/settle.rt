ghost use Rattle.std.specs.Prelude.{ℕ, ◌≡◌, ◌<◌, true};
ghost use Rattle.graph.specs.Theorems.{Solved};
ghost use Rattle.graph.specs.Weights.{weights};
ghost use Rattle.table.specs.Climb.{deep, up as parents_of};
ghost use Rattle.update.specs.Reading.{Deep, depth, flag};
ghost use Rattle.update.specs.Lowering.{Room};
ghost use Rattle.raise.specs.Raising.{Begun, Gathered, Rises};

use graph::Graph;
use measure::Measure;
use update::{Update, Work};

// Relaxes the edges from each marker that is done.
pub fn gather<G: Graph, M: Measure>(update: &Update<G, M>, work: &mut Work)
    requires sizes { Deep M.Measure update.now.table.n 64 work.old.rows }
    requires kept { (z : ℕ) → z < update.now.table.n → flag work.old.done z ≡ true → M.Measure.within 63 (deep work.old.rows z) }
    requires rises { Rises M.group update.now.table.n (weights G.Graph M.Measure update.now.graph) (depth M.Measure update.now.table.rows) (parents_of update.now.table.rows) (flag work.old.done) }
    requires gathered { Gathered M.group update.now.table.n (weights G.Graph M.Measure update.now.graph) (depth M.Measure update.now.table.rows) (parents_of update.now.table.rows) (flag work.old.done) 0 (depth M.Measure work.old.rows) (parents_of work.old.rows) }
    ensures begun { Begun M.group update.now.table.n (weights G.Graph M.Measure update.now.graph) (depth M.Measure update.now.table.rows) (parents_of update.now.table.rows) (flag work.new.done) (depth M.Measure work.new.rows) (parents_of work.new.rows) }
    ensures room { Room M.Measure update.now.table.n work.new }
{
    for x in 0..update.table.n() {
        if work.done[x as usize] {
            // no marker is fixed, so each is lowered
            let _ = update.relax(&[false; 64], work, x);
        }
    }
}

// Settles one marker after another until all are.
pub fn settle_rest<G: Graph, M: Measure>(update: &Update<G, M>, work: &mut Work)
    requires begun { Begun M.group update.now.table.n (weights G.Graph M.Measure update.now.graph) (depth M.Measure update.now.table.rows) (parents_of update.now.table.rows) (flag work.old.done) (depth M.Measure work.old.rows) (parents_of work.old.rows) }
    requires room { Room M.Measure update.now.table.n work.old }
    ensures solved { Solved M.group update.now.table.n (weights G.Graph M.Measure update.now.graph) (depth M.Measure work.new.rows) (parents_of work.new.rows) }
    ensures sizes { Deep M.Measure update.now.table.n 128 work.new.rows }
{
    while let Some(y) = update.nearest(work) {
        let _ = update.settle(&[false; 64], work, y);
    }
}
