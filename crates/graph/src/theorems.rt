//! Theorems over every measure. Each stands on the contract of a function that does nothing.

ghost use Rattle.graph.specs.Theorems.{Certificate, Certifiable, NegativeCycleRefutes, NoNegativeClosedWalk, Pigeonhole, ShortClimbs, TightPrefixes};

use measure::Measure;

/// Depths that fit, with a tree of tight edges, are the distances and the deepest that fit; and a shortest-path tree
/// always is such a tree.
pub fn certificate_stands<M: Measure>()
    ensures gives { Certificate M.Measure.group }
    ensures has { Certifiable M.Measure.group }
{}

/// Where some cycle adds up to less than zero, no depths fit.
pub fn negative_cycle_refutes<M: Measure>()
    ensures closed { NoNegativeClosedWalk M.Measure.group }
    ensures cycle { NegativeCycleRefutes M.Measure.group }
{}

/// A walk from the datum that adds up to the depth it comes to does so at each of its markers.
pub fn tight_prefixes<M: Measure>()
    ensures { TightPrefixes M.Measure.group }
{}

/// Parents that lead to the datum at all lead there in fewer steps than there are markers.
pub fn short_climbs()
    ensures different { Pigeonhole }
    ensures climbs { ShortClimbs }
{}
