//! Generated changes of ties. After each, the solver is compared with depths that are worked out afresh and plainly.

#![tactic(auto)]

#[cfg(test)]
mod compare;
#[cfg(test)]
mod draw;
#[cfg(test)]
mod edges;
#[cfg(test)]
mod plain;
#[cfg(test)]
mod runs;
