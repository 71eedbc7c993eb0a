//! A store that has a cell for every pair of markers.

#![tactic(auto)]

ghost use Rattle.std.specs.Prelude.{◌≡◌, ◌+◌, ◌-◌, ◌*◌, ◌<◌, ◌≤◌, true, length, is_some, Ok};
ghost use Rattle.store.specs.Meaning.{empty_meaning, pair_answer, put_answer, put_done, clear_done};
ghost use Rattle.matrix.specs.Laws.{matrix_lawful};
ghost use Rattle.matrix.specs.Matrix.{cell_tie, Emptied, matrix_meaning, MatrixSound, size_answer};

use measure::Amount;
use store::{Refusal, TieStore};

/// Ties in n × n lent cells, one for every pair. Those of a marker with itself are not used.
#[derive(Drop)]
pub struct TieMatrix<'a> {
    n: u16,
    ties: usize,
    cells: &'a mut [Option<Amount>],
    ghost sound: { MatrixSound n ties cells.now },
}

// The place of the cell in row `a` and column `b`.
fn place(n: u16, a: u16, b: u16) -> usize
    requires { (n ≤ 64) × ((a < n) × (b < n)) }
    ensures at { result ≡ a * n + b }
    ensures within { result < n * n }
{
    a as usize * n as usize + b as usize
}

impl<'a> TieMatrix<'a> {
    /// Whether a matrix of `n` markers may lie in so many cells.
    pub fn check(n: u16, cells: usize) -> Result<(), Refusal>
        ensures { result ≡ size_answer n cells }
    {
        if (2..=64).contains(&n) && cells == n as usize * n as usize {
            Ok(())
        } else {
            Err(Refusal::BadSize)
        }
    }

    /// A matrix without ties, where `check` has passed.
    pub fn new(n: u16, cells: &'a mut [Option<Amount>]) -> TieMatrix<'a>
        requires { size_answer n (length cells.old) ≡ Ok tt }
        ensures emptied { Emptied result.cells.now }
        ensures meaning { matrix_meaning result.n result.cells.now ≡ empty_meaning n (n * (n - 1)) }
    {
        cells.fill(None);
        TieMatrix { n, ties: 0, cells }
    }

    // Gives a pair its tie, in place of the one that it may have.
    fn write_cell(&mut self, a: u16, b: u16, amount: Amount)
        requires { pair_answer (matrix_meaning self.old.n self.old.cells.now) a b (Ok tt) ≡ Ok tt }
        ensures accepted { put_answer (matrix_meaning self.old.n self.old.cells.now) a b ≡ Ok tt }
        ensures after { matrix_meaning self.new.n self.new.cells.now ≡ put_done (matrix_meaning self.old.n self.old.cells.now) a b amount }
    {
        let i = place(self.n, a, b);
        let before = self.cells[i];
        self.cells[i] = Some(amount);
        if before.is_none() {
            self.ties += 1;
        }
    }

    // Takes the tie of a pair away.
    fn empty_cell(&mut self, a: u16, b: u16)
        requires pair { pair_answer (matrix_meaning self.old.n self.old.cells.now) a b (Ok tt) ≡ Ok tt }
        requires tied { is_some (cell_tie self.old.n self.old.cells.now a b) ≡ true }
        ensures { matrix_meaning self.new.n self.new.cells.now ≡ clear_done (matrix_meaning self.old.n self.old.cells.now) a b }
    {
        self.cells[place(self.n, a, b)] = None;
        self.ties -= 1;
    }
}

impl<'a> TieStore for TieMatrix<'a> {
    ghost meaning = { λ s. matrix_meaning s.n s.cells.now };

    ghost lawful = { λ s. matrix_lawful s.n s.ties s.cells.now s.sound };

    fn marker_count(&self) -> u16 {
        self.n
    }

    fn is_closed(&self, _marker: u16) -> bool {
        false
    }

    fn amount(&self, a: u16, b: u16) -> Option<Amount> {
        if a >= self.n || b >= self.n || a == b {
            return None;
        }
        self.cells[place(self.n, a, b)]
    }

    fn free(&self) -> usize {
        let n = self.n as usize;
        n * (n - 1) - self.ties
    }

    fn put(&mut self, a: u16, b: u16, amount: Amount) -> Result<(), Refusal> {
        self.check_pair(a, b)?;
        self.write_cell(a, b, amount);
        Ok(())
    }

    fn clear(&mut self, a: u16, b: u16) -> Result<(), Refusal> {
        self.check_pair(a, b)?;
        if self.amount(a, b).is_none() {
            return Err(Refusal::PairEmpty);
        }
        self.empty_cell(a, b);
        Ok(())
    }
}
