//! Reads a well's text: the total depth, the markers' names and the ties.

#![tactic(auto)]

pub mod codes;
pub mod faults;
pub mod header;
pub mod lists;
pub mod names;
pub mod reader;
mod records;
pub mod state;
mod steps;
pub mod ties;

pub use faults::{Code, Fault};
pub use header::Header;
pub use lists::{make, read_records};
pub use reader::check;
pub use state::State;
