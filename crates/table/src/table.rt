ghost use Rattle.std.specs.Prelude.{◌≡◌, ℕ, ◌-◌, ◌<◌, ◌≤◌, length, replicate, MatchBool, ◌≢◌, slice_index_or, slice_set};
ghost use Rattle.graph.specs.Tree.{climb, path_to, Tree};
ghost use Rattle.table.specs.Climb.{up, deep, no_row, over_front};

use crate::climb::path_down;
use crate::row::Row;
use measure::Amount;

/// A row for each marker; the parents lead from every marker to the datum within n − 1 steps.
#[derive(Drop)]
pub struct DepthTable {
    n: u16,
    rows: [Row; 64],
    ghost some: { 0 < n },
    ghost few: { n ≤ 64 },
    ghost root: { up rows 0 ≡ 0 },
    ghost within: { (m : ℕ) → m < n → up rows m < n },
    ghost tree: { (m : ℕ) → m < n → climb (up rows) (n - 1) m ≡ 0 },
}

impl DepthTable {
    /// The table in which every marker hangs from the datum at one depth, and the datum has a depth of its own.
    pub fn flat(n: u16, datum: Amount, depth: Amount) -> DepthTable
        requires some { 0 < n }
        requires few { n ≤ 64 }
        ensures n { result.n ≡ n }
        ensures rows { result.rows ≡ slice_set (replicate 64 (record { depth = depth; parent = 0 })) 0 (record { depth = datum; parent = 0 }) }
    {
        let mut rows = [Row { depth, parent: 0 }; 64];
        rows[0] = Row {
            depth: datum,
            parent: 0,
        };
        DepthTable::of(n, rows)
    }

    /// The table of these rows.
    pub fn of(n: u16, rows: [Row; 64]) -> DepthTable
        requires some { 0 < n }
        requires few { n ≤ 64 }
        requires tree { Tree n (up rows) }
        ensures n { result.n ≡ n }
        ensures rows { result.rows ≡ rows }
    {
        DepthTable { n, rows }
    }

    /// The number of markers.
    pub fn n(&self) -> u16
        ensures { result ≡ self.now.n }
    {
        self.n
    }

    /// All rows, those past n included.
    pub fn rows(&self) -> [Row; 64]
        ensures { result ≡ self.now.rows }
    {
        return self.rows;
    }

    /// The row of marker `m`.
    pub fn row(&self, m: u16) -> Row
        requires { m < self.now.n }
        ensures { result ≡ slice_index_or self.now.rows m no_row }
    {
        self.rows[m as usize]
    }

    /// The depth of marker `m`.
    pub fn depth(&self, m: u16) -> Amount
        requires { m < self.now.n }
        ensures { result ≡ deep self.now.rows m }
    {
        self.row(m).depth
    }

    /// The parent of marker `m`; the datum is its own.
    pub fn parent(&self, m: u16) -> u16
        requires { m < self.now.n }
        ensures is { result ≡ up self.now.rows m }
        ensures within { result < self.now.n }
    {
        self.row(m).parent
    }

    /// Whether the climb from `from` passes `m`.
    pub fn passes(&self, from: u16, m: u16) -> bool
        requires { from < self.now.n }
        ensures { MatchBool result ((k : ℕ) × (climb (up self.now.rows) k from ≡ m)) ((k : ℕ) → climb (up self.now.rows) k from ≢ m) }
    {
        let mut at = from;
        while at != m {
            if at == 0 {
                return false;
            }
            at = self.parent(at);
        }
        true
    }

    /// Writes the path from the datum to `m` over the front of `out`, and answers its length.
    pub fn path(&self, m: u16, out: &mut [u16]) -> u16
        requires marker { m < self.now.n }
        requires room { self.now.n ≤ length out.old }
        ensures count { result ≡ length (path_to (up self.now.rows) self.now.n m) }
        ensures out { out.new ≡ over_front (path_to (up self.now.rows) self.now.n m) out.old }
    {
        path_down(&self.rows, self.n, m, out)
    }
}
