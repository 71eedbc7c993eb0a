//! Shortest-path trees, kept up to date as bounds rise.

#![tactic(auto)]

ghost use Rattle.std.specs.Prelude.{◌<◌};
ghost use Rattle.graph.specs.Weights.{weights};
ghost use Rattle.table.specs.Climb.{up as parents_of};
ghost use Rattle.update.specs.Lowers.{Solution};
ghost use Rattle.update.specs.Reading.{depth};
ghost use Rattle.raise.specs.Sparing.{Risen};

use crate::settle::{gather, settle_rest};
use crate::spare::spared;
use graph::Graph;
use measure::Measure;
use table::DepthTable;
use update::Update;

mod settle;
mod spare;

/// The new table where edges to b have risen.
pub fn raise<G: Graph, M: Measure>(update: &Update<G, M>, b: u16) -> DepthTable
    requires some { 0 < b }
    requires risen { Risen M.group update.now.table.n (weights G.Graph M.Measure update.now.graph) b (depth M.Measure update.now.table.rows) (parents_of update.now.table.rows) }
    ensures { Solution M.Measure update.now.table.n (weights G.Graph M.Measure update.now.graph) result }
{
    let mut work = spared(update, b);
    gather(update, &mut work);
    settle_rest(update, &mut work);
    update.solved(work.rows)
}
