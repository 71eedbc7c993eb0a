ghost use Rattle.std.specs.Prelude.{◌≡◌, ℕ, ◌<◌};
ghost use Rattle.table.specs.Climb.{up as parents_of};

use table::Row;

/// Depths and parents as they are worked out, and the markers whose depth is final.
#[derive(Drop)]
pub struct Work {
    pub rows: [Row; 64],
    pub done: [bool; 64],
}

/// Why no depths fit: of an edge from a to b, the markers from b to a, along the parents, are a cycle that sums to below zero.
#[derive(Drop)]
pub struct Contradiction {
    pub rows: [Row; 64],
}

impl Work {
    // The cycle that is closed as z hangs on y.
    pub(crate) fn closed(mut self, z: u16, y: u16) -> Contradiction
        requires { z < 64 }
        ensures here { parents_of result.rows z ≡ y }
        ensures other { (u : ℕ) → ¬ (u ≡ z) → parents_of result.rows u ≡ parents_of self.rows u }
    {
        self.rows[z as usize].parent = y;
        Contradiction { rows: self.rows }
    }
}
