//! Stores over another store: the lock and the screen.

#![tactic(auto)]

pub mod lock;
pub mod screen;

pub use lock::Locked;
pub use screen::Screened;
