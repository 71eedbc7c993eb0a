//! One weight of a graph is put, replaced or taken away: the new shortest-path tree, and how many of its rows are new.

#![tactic(auto)]

ghost use Rattle.std.specs.Prelude.{◌≡◌, ℕ, ◌<◌, Some, Decides};
ghost use Rattle.measure.specs.declared.Amount.{Amount};
ghost use Rattle.graph.specs.Graph.{PathTo};
ghost use Rattle.graph.specs.Tree.{path_to};
ghost use Rattle.graph.specs.Weights.{Usable, weights};
ghost use Rattle.table.specs.Climb.{up as parents_of};
ghost use Rattle.update.specs.Lowers.{Lowers, Solution};
ghost use Rattle.update.specs.Reading.{depth};
ghost use Rattle.change.specs.Changing.{ChangedAt, NoContradiction, NoLess, NoMore};

use graph::Graph;
use measure::{Amount, Measure};
use raise::raise;
use table::DepthTable;
use update::{Contradiction, Update};

mod count;

pub use count::{moved, reparented};

// Whether an amount is no more than what was, if anything was.
fn falls<M: Measure>(measure: &M, new: Amount, before: Option<Amount>) -> bool
    requires new { M.within 1 new }
    requires before { (w : Amount) → before ≡ Some w → M.within 1 w }
    ensures { Decides result (NoMore M.Measure new before) }
{
    match before {
        None => true,
        Some(old) => measure::at_most(measure, new, old),
    }
}

/// The weight of the pair a, b has changed, or is gone: the new table, if it is another; or a cycle that sums to below zero.
/// The graph has the new weight; `before` is what the pair had when the table was solved.
pub fn change<G: Graph, M: Measure>(
    update: &Update<G, M>,
    a: u16,
    b: u16,
    before: Option<Amount>,
) -> Result<Option<DepthTable>, Contradiction>
    requires start { a < update.now.table.n }
    requires end { b < update.now.table.n }
    requires changed { ChangedAt G.Graph M.Measure update.now.graph update.now.table.n update.now.table.rows a b before }
    ensures outcome { Lowers M.Measure update.now.table.n (weights G.Graph M.Measure update.now.graph) a b update.now.table.rows result }
    ensures raised { NoLess M.Measure (G.Graph.weight update.now.graph a b) before → NoContradiction result }
{
    if let Some(w) = update.graph.weight(a, b) {
        if falls(update.measure, w, before) {
            return update.lower(a, b, w);
        }
    }
    if b == 0 || update.table.parent(b) != a {
        return Ok(None);
    }
    Ok(Some(raise(update, b)))
}

/// The new table, with each old path that still adds up to its marker's depth.
pub fn finish<G: Graph, M: Measure>(
    graph: &G,
    measure: &M,
    old: &DepthTable,
    new: &DepthTable,
) -> DepthTable
    requires graph { Usable G.Graph M.Measure graph.now }
    requires same { old.now.n ≡ G.Graph.count graph.now }
    requires new { Solution M.Measure old.now.n (weights G.Graph M.Measure graph.now) new.now }
    ensures solution { Solution M.Measure old.now.n (weights G.Graph M.Measure graph.now) result }
    ensures kept { (m : ℕ) → m < old.now.n
        → PathTo M.group old.now.n (weights G.Graph M.Measure graph.now) (path_to (parents_of old.now.rows) old.now.n m) m (depth M.Measure result.rows m)
        → path_to (parents_of result.rows) old.now.n m ≡ path_to (parents_of old.now.rows) old.now.n m }
{
    Update::new(graph, measure, new).restore(old)
}
