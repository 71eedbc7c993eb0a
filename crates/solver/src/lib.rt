//! The depth solver, over any store of ties and any measure.

#![tactic(auto)]

pub mod adopt;
pub mod check;
pub mod new;
pub mod next;
pub mod open;
pub mod path;
pub mod read;
pub mod settle;
pub mod solver;
pub mod tie;
pub mod token;
pub mod trial;
pub mod undo;
mod write;

pub use solver::Solver;
pub use token::{Returned, TrialToken};
