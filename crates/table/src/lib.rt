//! The table of depths and parents, and its paths.

#![tactic(auto)]

pub mod climb;
pub mod row;
pub mod table;

pub use climb::trail;
pub use row::Row;
pub use table::DepthTable;
