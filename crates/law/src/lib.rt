//! The calls of a depth solver, their answers and refusals, and the law of every log of them. No solver is in it.

#![tactic(auto)]

pub mod call;
pub mod code;
pub mod theorems;

pub use call::{Answer, Call, Counts, Entry, Refusal, State};
