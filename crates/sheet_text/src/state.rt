//! What has been read of a text.

use crate::names::Names;
use crate::ties::Ties;

/// Which lines may come next.
#[derive(Clone, Copy, PartialEq, Eq)]
pub enum Phase {
    /// The total depth.
    TotalDepth,
    /// Markers, then ties or the trailer.
    Markers,
    /// Ties, then the trailer, where the first tie line stands at this place.
    Ties(u32),
    /// None.
    End,
}

/// What the lines so far say. The names are parts of the text.
#[derive(Drop)]
pub struct State<'a> {
    pub(crate) phase: Phase,
    pub total_depth: i64,
    pub names: Names<'a>,
    pub(crate) ties: Ties,
}
