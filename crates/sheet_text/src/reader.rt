//! Reads a text line by line.

ghost use Rattle.std.specs.Prelude.{◌≡◌, ℕ, ◌-◌, ◌<◌, ◌≤◌, ◌≢◌, length, Decides, slice_index};
ghost use Rattle.sheet_text.specs.Calls.{Checked, Roomy};
ghost use Rattle.sheet_text.specs.Reading.{known, well_of, filled, start as beginning, Outcome, Whole, Answer, Only};

use crate::faults::{Code, Fault};
use crate::header::Header;
use crate::state::State;
use line_text::parts::cut;

/// Reads the lines of a text into `state`, which is new.
#[tactic(auto, using(crate::proofs::Progress::cut_length))]
fn read_lines<'a>(file: &'a [u8], state: &mut State<'a>) -> Result<(), Fault>
    requires { (length file.now ≤ 65536) × (known state.old ≡ beginning state.old.ties.room) }
    ensures { Outcome (filled (known state.new) result) (beginning state.old.ties.room) 0 file.now }
{
    let mut rest = file;
    let mut place = 0;
    while let Some((line, after)) = cut(rest, b'\n') {
        state
            .take_bytes(place, line)
            .map_err(|code| Fault { code, place })?;
        place += line.len() as u32 + 1;
        rest = after;
    }
    Ok(())
}

/// Where the last line begins, of lines of which it alone is not ended.
fn last_line(lines: &[u8]) -> usize
    ensures { (result ≤ length lines.now) × (0 < result → slice_index lines.now (result - 1) ≡ 10) × ((k : ℕ) → result ≤ k → k < length lines.now → slice_index lines.now k ≢ 10) }
{
    match lines.iter().rposition(|b| *b == b'\n') {
        Some(end) => end + 1,
        None => 0,
    }
}

/// Whether a text is not too long, and has an ended last line that begins with `Z`.
fn is_whole(file: &[u8]) -> bool
    ensures { Decides result (Whole file.now) }
{
    let [lines @ .., b'\n'] = file else {
        return false;
    };
    file.len() <= 65_536 && file[last_line(lines)] == b'Z'
}

/// Reads a text into `state`, which is new.
pub(crate) fn read<'a>(text: &'a [u8], state: &mut State<'a>) -> Result<(), Fault>
    requires { known state.old ≡ beginning state.old.ties.room }
    ensures { Only (Answer state.old.ties.room text.now) (filled (well_of state.new) result) }
{
    if !is_whole(text) {
        return Err(Fault {
            code: Code::Length,
            place: 0,
        });
    }
    read_lines(text, state)
}

/// Checks a text: how many markers it names, and its total depth.
pub fn check(text: &[u8]) -> Result<Header, Fault>
    ensures header { Checked text.now result }
    ensures roomy { Roomy result }
{
    let mut state = State::with_room(4096);
    read(text, &mut state)?;
    Ok(Header {
        markers: state.names.len() as u16,
        total_depth: state.total_depth,
    })
}
