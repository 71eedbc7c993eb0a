//! Shortest-path trees, kept up to date as the bound of one pair falls.

#![tactic(auto)]

pub mod lower;
pub mod nearest;
pub mod relax;
pub mod restore;
mod start;
pub mod update;
pub mod work;

pub use update::Update;
pub use work::{Contradiction, Work};
