//! What follows, over every measure, from calls that are answered as they have to be. Each theorem stands on the contract
//! of a function that does nothing.

ghost use Rattle.law.specs.Telling.{Starts, Goes_on, EveryLogLawful, Pinned};

use measure::Measure;

/// A new solver's empty log tells of it; each call that is answered as it has to be goes on with the log; so every log of
/// such calls is lawful; and two outcomes of one call differ in nothing but parents and cycles.
pub fn law_stands<M: Measure>()
    ensures starts { Starts M.Measure }
    ensures goes_on { Goes_on M.Measure }
    ensures lawful { EveryLogLawful M.Measure }
    ensures pinned { Pinned M.Measure }
{}
