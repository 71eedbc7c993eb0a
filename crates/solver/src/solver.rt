//! What a solver holds.

use law::State;
use measure::{Amount, Measure};
use std::marker::Model;
use store::TieStore;
use table::DepthTable;

/// A store of ties, with the table of the deepest depths that they allow.
#[derive(Drop)]
pub struct Solver<S: TieStore, M: Measure> {
    pub(crate) store: S,
    pub(crate) measure: M,
    pub(crate) total: Amount,
    pub(crate) number: u32,
    pub(crate) state: State,
    pub(crate) changes: u32,
    pub(crate) table: DepthTable,
}

// The table suits the store, and a trial that is out can be rolled back.
impl<S: TieStore, M: Measure> Model for Solver<S, M> {
    ghost use Rattle.solver.specs.Held.{Held};

    ghost Value = { Held S };

    ghost use Rattle.solver.specs.Inside.{held};
    ghost use Rattle.solver.specs.Trials.{Upheld};

    ghost view = { held };

    ghost invariant = { λ s. Upheld S.TieStore M.Measure (held s) };
}
