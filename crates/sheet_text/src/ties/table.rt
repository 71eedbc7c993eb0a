//! What a table of ties can do.

ghost use Rattle.std.specs.Prelude.{◌≡◌, ◌≤◌, [], length};
ghost use Rattle.sheet_text.specs.Tying.{ties_of, tied_in, Added};

use super::{Tie, Ties};
use arrayvec::ArrayVec;
use store::Refusal;

/// Whether one of `ties` is of the pair.
fn any_of(ties: &[Tie], start: u16, end: u16) -> bool
    ensures { result ≡ tied_in ties.now start end }
{
    ties.iter().any(|tie| tie.start == start && tie.end == end)
}

impl Ties {
    /// No ties, with room for `room`.
    pub(crate) fn new(room: usize) -> Ties
        requires { room ≤ 4096 }
        ensures { (ties_of result ≡ []) × (result.room ≡ room) }
    {
        Ties {
            list: ArrayVec::new(),
            room,
        }
    }

    /// How many ties there are.
    pub(crate) fn len(&self) -> usize
        ensures { (result ≡ length (ties_of self.now)) × (result ≤ 4096) }
    {
        self.list.len()
    }

    /// Whether there is a tie of the pair.
    pub(crate) fn has(&self, start: u16, end: u16) -> bool
        ensures { result ≡ tied_in (ties_of self.now) start end }
    {
        any_of(self.as_slice(), start, end)
    }

    /// Adds a tie, or answers what a store of this room answers.
    pub(crate) fn put(&mut self, tie: Tie) -> Result<(), Refusal>
        ensures { Added self.old tie result self.new }
    {
        if tie.start == tie.end {
            return Err(Refusal::SameMarker);
        }
        if self.list.len() == self.room {
            return Err(Refusal::StoreFull);
        }
        self.list.push(tie);
        Ok(())
    }

    /// The ties, in the order of their lines.
    pub(crate) fn as_slice(&self) -> &[Tie]
        ensures { result.now ≡ ties_of self.now }
    {
        self.list.as_slice()
    }
}
