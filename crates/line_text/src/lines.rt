//! What a line of a well's text says.

/// How far a tie's end may lie below its start: at most `mm`, or if `strict` less than that.
#[derive(Clone, Copy, Debug, Default)]
pub struct TieAmount {
    pub mm: i64,
    pub strict: bool,
}

/// A line. Names and the trailer's numerals are parts of the text; the trailer's have no limit, so they stay numerals.
#[derive(Clone, Copy, Debug)]
pub enum Line<'a> {
    TotalDepth(i64),
    Marker(&'a [u8]),
    Tie {
        start: &'a [u8],
        end: &'a [u8],
        amount: TieAmount,
    },
    Trailer {
        place: &'a [u8],
        count: &'a [u8],
    },
}
