ghost use Rattle.std.specs.Prelude.{◌≡◌, ℕ, ◌<◌, Bool, not, ◌==◌};
ghost use Rattle.law.specs.Amounts.{same_value};
ghost use Rattle.law.specs.Calls.{tally};
ghost use Rattle.table.specs.Climb.{deep, up as parents_of};
ghost use Rattle.update.specs.Reading.{Deep};

use measure::Measure;
use table::DepthTable;

// How many of the first n markers differ.
fn how_many<F: Fn(u16) -> bool>(n: u16, differs: F) -> u16
    requires { (k : ℕ) → k < n → F.pre differs k }
    ensures { (f : ℕ → Bool) → ((k : ℕ) (r : Bool) → k < n → F.post differs k r → r ≡ f k) → result ≡ tally n f }
{
    let mut count: u16 = 0;
    for m in 0..n {
        if differs(m) {
            count += 1;
        }
    }
    count
}

// Whether marker m has another depth in the new table.
fn moves<M: Measure>(measure: &M, old: &DepthTable, new: &DepthTable, m: u16) -> bool
    requires inside { (m < old.now.n) × (m < new.now.n) }
    requires small { M.within 256 (deep old.now.rows m) × M.within 256 (deep new.now.rows m) }
    ensures { result ≡ not (same_value M.Measure (deep old.now.rows m) (deep new.now.rows m)) }
{
    measure.compare(old.depth(m), new.depth(m)).is_ne()
}

/// How many markers have another depth in the new table.
pub fn moved<M: Measure>(measure: &M, old: &DepthTable, new: &DepthTable) -> u16
    requires same { new.now.n ≡ old.now.n }
    requires old { Deep M.Measure old.now.n 256 old.now.rows }
    requires new { Deep M.Measure old.now.n 256 new.now.rows }
    ensures { result ≡ tally old.now.n (λ k. not (same_value M.Measure (deep old.now.rows k) (deep new.now.rows k))) }
{
    how_many(old.n(), |m| moves(measure, old, new, m))
}

/// How many markers have another parent in the new table.
pub fn reparented(old: &DepthTable, new: &DepthTable) -> u16
    requires { new.now.n ≡ old.now.n }
    ensures { result ≡ tally old.now.n (λ k. not (parents_of old.now.rows k == parents_of new.now.rows k)) }
{
    how_many(old.n(), |m| old.parent(m) != new.parent(m))
}
