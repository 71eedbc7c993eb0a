//! One small well: ten calls, with their answers and the rows after each, as the definitions of the calls have them.

#![tactic(auto)]

ghost use Rattle.small_well.specs.SmallWell.{SmallWellRuns, SmallWellForced};

/// The calls of the small well may be answered as its table says, one after the other, and in no other way.
pub fn small_well_stands()
    ensures runs { SmallWellRuns }
    ensures forced { SmallWellForced }
{}
