//! Calls, answers and refusals as data.

use measure::Amount;

/// Why a call is refused.
#[derive(Clone, Copy, PartialEq, Eq, Debug)]
pub enum Refusal {
    /// The solver is new.
    NotOpen,
    /// The solver was opened before.
    NotNew,
    /// A trial is out.
    TrialOut,
    /// A marker is not below the number of markers.
    UnknownMarker,
    /// Both ends are one marker.
    SameMarker,
    /// An end is closed.
    ClosedMarker,
    /// The amount is not admitted; at opening, the total depth is not, or is not above zero.
    BadAmount,
    /// The buffer is shorter than the number of markers.
    ShortBuffer,
    /// The pair that is to be cleared has no tie.
    PairEmpty,
    /// The pair has no tie and the store is free to take none.
    StoreFull,
    /// No depths fit; the buffer has a cycle of this length at its front.
    Contradiction { length: u16 },
    /// No trial is out, or the token is of another solver.
    WrongToken,
    /// At opening, the amount of a tie is not admitted.
    BadTie { from: u16, to: u16 },
}

/// What a solver may be told depends on its state.
#[derive(Clone, Copy, PartialEq, Eq, Debug)]
pub enum State {
    New,
    Open,
    /// The pair that is tried, and what it had before.
    OnTrial {
        from: u16,
        to: u16,
        before: Option<Amount>,
    },
}

/// A call, with the length of the buffer that it is handed.
#[derive(Clone, Copy, PartialEq, Eq, Debug)]
pub enum Call {
    Open {
        room: usize,
    },
    Tie {
        from: u16,
        to: u16,
        amount: Amount,
        room: usize,
    },
    Untie {
        from: u16,
        to: u16,
    },
    Trial {
        from: u16,
        to: u16,
        amount: Amount,
        room: usize,
    },
    Commit {
        number: u32,
    },
    RollBack {
        number: u32,
    },
    Depth {
        marker: u16,
    },
    Path {
        marker: u16,
        room: usize,
    },
}

/// How many markers have another depth after a change, and how many another parent.
#[derive(Clone, Copy, PartialEq, Eq, Default, Debug)]
pub struct Counts {
    pub moved: u16,
    pub reparented: u16,
}

/// What a call answers.
#[derive(Clone, Copy, PartialEq, Eq, Debug)]
pub enum Answer {
    Refused { why: Refusal },
    Opened { markers: u16 },
    /// How many markers have another depth, and how many another parent.
    Changed { moved: u16, reparented: u16 },
    Committed,
    Row { depth: Amount, parent: u16 },
    Length { length: u16 },
}

/// A call with its answer, and what its buffer then has. (A log of the law is a list of such entries, with buffers of any
/// length.)
#[derive(Clone, Copy, Debug)]
pub struct Entry {
    pub call: Call,
    pub answer: Answer,
    pub buffer: [u16; 64],
}
