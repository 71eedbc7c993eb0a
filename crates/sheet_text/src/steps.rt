//! Takes in one line more.

ghost use Rattle.std.specs.Prelude.{◌≡◌, ◌≤◌};
ghost use Rattle.sheet_text.specs.Reading.{known, start as beginning, Does, read_depth, read_marker, first_tie, read_tie, read_trailer, read_line, DoesBytes};
ghost use Rattle.line_text.specs.Lines.{said};

use crate::faults::Code;
use crate::names::Names;
use crate::state::{Phase, State};
use crate::ties::{Tie, Ties};
use line_text::lines::{Line, TieAmount};
use line_text::numbers::spells;
use line_text::parse::parse_line;

impl<'a> State<'a> {
    /// Nothing read.
    pub fn new() -> State<'a>
        ensures { known result ≡ beginning 0 }
    {
        State::with_room(0)
    }

    /// Nothing read, with room for so many ties.
    pub(crate) fn with_room(room: usize) -> State<'a>
        requires { room ≤ 4096 }
        ensures { known result ≡ beginning room }
    {
        State {
            phase: Phase::TotalDepth,
            total_depth: 0,
            names: Names::new(),
            ties: Ties::new(room),
        }
    }

    fn total_depth(&mut self, mm: i64) -> Result<(), Code>
        ensures { Does (read_depth self.old.phase (known self.old) mm) result self.new }
    {
        if self.phase != Phase::TotalDepth {
            return Err(Code::Form);
        }
        self.phase = Phase::Markers;
        self.total_depth = mm;
        Ok(())
    }

    fn marker(&mut self, name: &'a [u8]) -> Result<(), Code>
        ensures { Does (read_marker self.old.phase (known self.old) name.now) result self.new }
    {
        if self.phase != Phase::Markers {
            return Err(Code::Form);
        }
        if self.names.len() >= 64 {
            return Err(Code::Count);
        }
        if self.names.find(name).is_some() {
            return Err(Code::Name);
        }
        self.names.add(name);
        Ok(())
    }

    /// Where the first tie line stands, if the line at `here` may be a tie line or the trailer.
    fn first_tie(&self, here: u32) -> Result<u32, Code>
        ensures { result ≡ first_tie self.now.phase (known self.now) here }
    {
        match self.phase {
            Phase::Markers if self.names.len() < 2 => Err(Code::Count),
            Phase::Markers => Ok(here),
            Phase::Ties(first) => Ok(first),
            Phase::TotalDepth | Phase::End => Err(Code::Form),
        }
    }

    fn tie(&mut self, here: u32, start: &[u8], end: &[u8], amount: TieAmount) -> Result<(), Code>
        ensures { Does (read_tie (known self.old) here start.now end.now amount) result self.new }
    {
        let first = self.first_tie(here)?;
        let start = self.names.find(start).ok_or(Code::Name)?;
        let end = self.names.find(end).ok_or(Code::Name)?;
        if self.ties.has(start, end) {
            return Err(Code::Name);
        }
        self.ties.put(Tie { start, end, amount })?;
        self.phase = Phase::Ties(first);
        Ok(())
    }

    fn trailer(&mut self, here: u32, place: &[u8], count: &[u8]) -> Result<(), Code>
        ensures { Does (read_trailer (known self.old) here place.now count.now) result self.new }
    {
        let first = self.first_tie(here)?;
        let ties = self.ties.len() as u32;
        if !spells(place, first) || !spells(count, ties) {
            return Err(Code::Trailer);
        }
        self.phase = Phase::End;
        Ok(())
    }

    /// Takes in the line that stands at `here`.
    fn take(&mut self, here: u32, line: Line<'a>) -> Result<(), Code>
        ensures { Does (read_line (known self.old) here (said line.entry)) result self.new }
    {
        match line {
            Line::TotalDepth(mm) => self.total_depth(mm),
            Line::Marker(name) => self.marker(name),
            Line::Tie { start, end, amount } => self.tie(here, start, end, amount),
            Line::Trailer { place, count } => self.trailer(here, place, count),
        }
    }

    /// Takes in the line that stands at `here` and has the bytes `bytes`.
    pub(crate) fn take_bytes(&mut self, here: u32, bytes: &'a [u8]) -> Result<(), Code>
        ensures { DoesBytes (known self.old) here bytes.now result self.new }
    {
        let line = parse_line(bytes).ok_or(Code::Form)?;
        self.take(here, line)
    }
}
