//! The answer to a well's text, as bytes: the depths of its markers, or a contradiction, or a refusal.

#![tactic(auto)]

ghost use Rattle.std.specs.Prelude.{◌≡◌, length, IfOk};
ghost use Rattle.report.specs.Reports.{Reports};

use crate::told::add_answer;
use depth_text::add_refused;
use measure::{Amount, StrictDepth};
use sheet_text::lists::make;
use sheet_text::state::State;
use std::alloc::{AllocError, Global};
use store::TieRecord;

pub mod told;

/// How many ties a text may have.
pub const ROOM: usize = 256;

/// An answer, and whether it gives depths.
#[derive(Drop)]
pub struct Report {
    pub bytes: Vec<u8>,
    pub solved: bool,
}

// The answer to a well's text, under strict depth, with its ties in a list of the records.
fn answer_in<'a>(
    heap: Global,
    text: &'a [u8],
    state: &mut State<'a>,
    records: &mut [TieRecord],
) -> Result<Report, AllocError>
    requires { length records.old ≡ 256 }
    ensures { IfOk result (λ a. Reports text.now a.bytes.items a.solved) }
{
    let mut bytes = Vec::new(heap);
    match make(text, state, records) {
        Ok(list) => {
            let total = Amount::millimetres(state.total_depth);
            let solved = add_answer(&mut bytes, &state.names, list, StrictDepth, total)?;
            Ok(Report { bytes, solved })
        }
        Err(fault) => {
            add_refused(&mut bytes, fault.code.number(), fault.place)?;
            Ok(Report {
                bytes,
                solved: false,
            })
        }
    }
}

/// The answer to a well's text, under strict depth, with its ties in a list of 256 records.
pub fn answer(heap: Global, text: &[u8]) -> Result<Report, AllocError>
    ensures { IfOk result (λ a. Reports text.now a.bytes.items a.solved) }
{
    let mut state = State::new();
    let mut records = [TieRecord::default(); ROOM];
    answer_in(heap, text, &mut state, &mut records)
}
