//! Makes a list of a text's ties.

ghost use Rattle.std.specs.Prelude.{◌≡◌, length, Ok, Err, MatchResult};
ghost use Rattle.store.specs.List.{list_meaning};
ghost use Rattle.sheet_text.specs.Reading.{well_of, Only};
ghost use Rattle.sheet_text.specs.Calls.{Making, well_store, Recorded};

use crate::faults::{Code, Fault};
use crate::reader::read;
use crate::records::write;
use crate::state::State;
use store::{Refusal, TieList, TieRecord};

/// Reads a text into `state`, and writes its ties to the front of `records`: how many there are. A refusal leaves the
/// records as they were; what `state` then holds is free.
pub fn read_records<'a>(
    text: &'a [u8],
    state: &mut State<'a>,
    records: &mut [TieRecord],
) -> Result<usize, Fault>
    ensures { Recorded text.now records.old result state.new records.new }
{
    if records.len() > 4096 {
        return Err(Fault {
            code: Code::Store(Refusal::BadSize),
            place: 0,
        });
    }
    *state = State::with_room(records.len());
    read(text, state)?;
    write(state.ties.as_slice(), records);
    Ok(state.ties.len())
}

/// Reads a text into `state`, and makes a list of its ties in `records`. What a refusal leaves, `read_records` says.
pub fn make<'a, 'r>(
    text: &'a [u8],
    state: &mut State<'a>,
    records: &'r mut [TieRecord],
) -> Result<TieList<'r>, Fault>
    ensures { MatchResult result
        (λ l. Only (Making (length records.old) text.now) (Ok (well_of state.new))
        × (list_meaning l.n l.count l.records.now ≡ well_store (length records.old) (well_of state.new)))
        (λ f. Only (Making (length records.old) text.now) (Err f)) }
{
    let count = read_records(text, state, records)?;
    Ok(TieList::with_ties(state.names.len() as u16, count, records))
}
