//! Calls of a solver, and their answers as text.

use arrayvec::ArrayVec;
use law::{Counts, Refusal};
use measure::{Amount, Measure};
use solver::Solver;
use std::fmt;
use store::TieStore;
use table::Row;

#[derive(Clone, Copy)]
pub enum Call {
    Open,
    Tie(u16, u16, i64),
    Untie(u16, u16),
    Depth(u16),
    Path(u16),
    // into a buffer that is too short
    ShortPath(u16),
    ChangeCount,
}

#[derive(Drop)]
pub enum Answer {
    Markers(u16),
    Changed(Counts),
    Row(Row),
    Path(ArrayVec<u16, 4>),
    Cycle(ArrayVec<u16, 4>),
    Count(u32),
    Refused(Refusal),
}

impl fmt::Display for Call {
    fn fmt<W: fmt::Write>(&self, f: &mut fmt::Formatter<W>) -> fmt::Result {
        match *self {
            Call::Open => write!(f, "open"),
            Call::Tie(from, to, mm) => write!(f, "tie {from} to {to}, {mm}"),
            Call::Untie(from, to) => write!(f, "untie {from} to {to}"),
            Call::Depth(marker) => write!(f, "depth {marker}"),
            Call::Path(marker) => write!(f, "path {marker}"),
            Call::ShortPath(marker) => write!(f, "path {marker}, short"),
            Call::ChangeCount => write!(f, "change count"),
        }
    }
}

impl fmt::Display for Answer {
    fn fmt<W: fmt::Write>(&self, f: &mut fmt::Formatter<W>) -> fmt::Result {
        match self {
            Answer::Markers(n) => write!(f, "{n} markers"),
            Answer::Changed(Counts { moved, reparented }) => write!(f, "ok {moved} {reparented}"),
            Answer::Row(row) => write!(f, "{} ({})", row.depth.mm, row.parent),
            Answer::Path(markers) => write_markers(f, "path", markers),
            Answer::Cycle(markers) => write_markers(f, "cycle", markers),
            Answer::Count(count) => write!(f, "{count}"),
            Answer::Refused(why) => write!(f, "refused {}", why.code()),
        }
    }
}

fn write_markers<W: fmt::Write>(
    f: &mut fmt::Formatter<W>,
    word: &str,
    markers: &[u16],
) -> fmt::Result {
    write!(f, "{word}")?;
    for marker in markers {
        write!(f, " {marker}")?;
    }
    Ok(())
}

fn front(buffer: [u16; 4], length: u16) -> ArrayVec<u16, 4> {
    let mut markers = ArrayVec::from(buffer);
    markers.truncate(usize::from(length));
    markers
}

// Makes a call that may be refused.
fn try_call<S: TieStore, M: Measure>(
    solver: &mut Solver<S, M>,
    call: Call,
    buffer: &mut [u16; 4],
) -> Result<Answer, Refusal> {
    match call {
        Call::Open => Ok(Answer::Markers(solver.open(buffer)?)),
        Call::Tie(from, to, mm) => {
            let amount = Amount::millimetres(mm);
            Ok(Answer::Changed(solver.tie(from, to, amount, buffer)?))
        }
        Call::Untie(from, to) => Ok(Answer::Changed(solver.untie(from, to)?)),
        Call::Depth(marker) => Ok(Answer::Row(solver.depth(marker)?)),
        Call::Path(marker) => {
            let length = solver.path(marker, buffer)?;
            Ok(Answer::Path(front(*buffer, length)))
        }
        Call::ShortPath(marker) => {
            let length = solver.path(marker, &mut buffer[..3])?;
            Ok(Answer::Path(front(*buffer, length)))
        }
        Call::ChangeCount => Ok(Answer::Count(solver.change_count())),
    }
}

/// Makes a call.
pub fn make_call<S: TieStore, M: Measure>(solver: &mut Solver<S, M>, call: Call) -> Answer {
    let mut buffer = [0; 4];
    match try_call(solver, call, &mut buffer) {
        Ok(answer) => answer,
        Err(Refusal::Contradiction { length }) => Answer::Cycle(front(buffer, length)),
        Err(why) => Answer::Refused(why),
    }
}
