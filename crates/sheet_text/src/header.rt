//! What a check of a text answers.

/// How many markers a text names, and its total depth.
#[derive(Clone, Copy, PartialEq, Eq, Debug)]
pub struct Header {
    pub markers: u16,
    pub total_depth: i64,
}
