ghost use Rattle.std.specs.Prelude.{◌≡◌, ℕ, ◌+◌, ◌<◌, ◌≤◌, ◌∷◌, length};
ghost use Rattle.graph.specs.Tree.{way, path_to, Tree};
ghost use Rattle.table.specs.Climb.{up, over_front, FirstClimb, Leads};

use crate::row::Row;

/// Writes the markers from `to` down to `from` along the parents over the front of `out`, and answers their number.
pub fn trail(rows: &[Row; 64], from: u16, to: u16, out: &mut [u16]) -> u16
    requires { Leads (up rows.now) from to (length out.old) }
    ensures count { (k : ℕ) → FirstClimb (up rows.now) k from to → result ≡ k + 1 }
    ensures out { (k : ℕ) → FirstClimb (up rows.now) k from to → out.new ≡ over_front (to ∷ way (up rows.now) k from) out.old }
{
    let mut steps: u16 = 0;
    let mut at = from;
    while at != to {
        at = rows[at as usize].parent;
        steps += 1;
    }
    let mut here = from;
    for i in (0..steps + 1).rev() {
        out[i as usize] = here;
        here = rows[here as usize].parent;
    }
    steps + 1
}

/// Writes the path from the datum to `m`, of n markers, over the front of `out`, and answers its length.
pub(crate) fn path_down(rows: &[Row; 64], n: u16, m: u16, out: &mut [u16]) -> u16
    requires few { n ≤ 64 }
    requires tree { Tree n (up rows.now) }
    requires marker { m < n }
    requires room { n ≤ length out.old }
    ensures count { result ≡ length (path_to (up rows.now) n m) }
    ensures out { out.new ≡ over_front (path_to (up rows.now) n m) out.old }
{
    trail(rows, m, 0, out)
}
