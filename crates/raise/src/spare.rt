ghost use Rattle.std.specs.Prelude.{◌≡◌, ℕ, ◌<◌, true};
ghost use Rattle.table.specs.Climb.{deep};
ghost use Rattle.update.specs.Reading.{Deep, flag};
ghost use Rattle.raise.specs.Sparing.{Parted};

use graph::Graph;
use measure::Measure;
use table::Row;
use update::{Update, Work};

// The work before the edges to b rise: a marker whose path passes b hangs from the datum, and the others are done.
pub fn spared<G: Graph, M: Measure>(update: &Update<G, M>, b: u16) -> Work
    requires { 0 < b }
    ensures parted { (z : ℕ) → z < update.now.table.n → Parted G.Graph update.now.graph update.now.table.rows b result z }
    ensures sizes { Deep M.Measure update.now.table.n 64 result.rows }
    ensures kept { (z : ℕ) → z < update.now.table.n → flag result.done z ≡ true → M.within 63 (deep result.rows z) }
{
    let mut work = update.start();
    for z in 0..update.table.n() {
        if update.table.passes(z, b) {
            if let Some(w) = update.graph.weight(0, z) {
                work.rows[z as usize] = Row {
                    depth: w,
                    parent: 0,
                };
            }
        } else {
            work.done[z as usize] = true;
        }
    }
    work
}
