ghost use Rattle.std.specs.Prelude.{◌≡◌, ℕ, ◌+◌, ◌<◌, ◌≤◌, true};
ghost use Rattle.graph.specs.Weights.{Usable, weights};
ghost use Rattle.table.specs.Climb.{deep, up as parents_of};
ghost use Rattle.update.specs.Reading.{Deep, depth, flag};
ghost use Rattle.update.specs.Relaxing.{Relaxation};

use crate::Work;
use graph::Graph;
use measure::Measure;
use table::Row;

/// Lowers each marker that is not done by its edge from y, or says which marker of `up` would be lowered.
pub fn relax_from<G: Graph, M: Measure>(
    graph: &G,
    measure: &M,
    up: &[bool; 64],
    work: &mut Work,
    y: u16,
) -> Result<(), u16>
    requires graph { Usable G.Graph M.Measure graph.now }
    requires marker { y < G.Graph.count graph.now }
    requires done { flag work.old.done y ≡ true }
    requires wide { M.Measure.within 255 (deep work.old.rows y) }
    requires sizes { Deep M.Measure (G.Graph.count graph.now) 256 work.old.rows }
    ensures relaxed { Relaxation M.Measure.group (G.Graph.count graph.now) (weights G.Graph M.Measure graph.now) (flag work.old.done) (flag up.now) (depth M.Measure work.old.rows) (parents_of work.old.rows) y (depth M.Measure work.new.rows) (parents_of work.new.rows) result }
    ensures done { work.new.done ≡ work.old.done }
    ensures sizes { (k : ℕ) → k ≤ 255 → M.Measure.within k (deep work.old.rows y) → Deep M.Measure (G.Graph.count graph.now) (k + 1) work.old.rows → Deep M.Measure (G.Graph.count graph.now) (k + 1) work.new.rows }
{
    let from = work.rows[y as usize].depth;
    for z in 0..graph.marker_count() {
        if !work.done[z as usize] {
            if let Some(w) = graph.weight(y, z) {
                let sum = measure.sum(from, w);
                if !measure::at_most(measure, work.rows[z as usize].depth, sum) {
                    if up[z as usize] {
                        return Err(z);
                    }
                    work.rows[z as usize] = Row {
                        depth: sum,
                        parent: y,
                    };
                }
            }
        }
    }
    Ok(())
}
