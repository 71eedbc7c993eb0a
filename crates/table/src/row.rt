use measure::Amount;

/// The depth of a marker, and the marker before it on its path.
#[derive(Clone, Copy, Debug, PartialEq)]
pub struct Row {
    pub depth: Amount,
    pub parent: u16,
}
