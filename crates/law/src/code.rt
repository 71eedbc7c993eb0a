//! What a refusal tells.

ghost use Rattle.std.specs.Prelude.{◌≡◌};
ghost use Rattle.law.specs.Refusals.{code_of, cycle_length};

use crate::call::Refusal;

impl Refusal {
    /// The number by which users know the refusal.
    pub fn code(&self) -> u8
        ensures { result ≡ code_of self.now }
    {
        match *self {
            Refusal::NotOpen => 1,
            Refusal::NotNew => 2,
            Refusal::TrialOut => 3,
            Refusal::UnknownMarker => 4,
            Refusal::SameMarker => 5,
            Refusal::ClosedMarker => 6,
            Refusal::BadAmount => 7,
            Refusal::ShortBuffer => 8,
            Refusal::PairEmpty => 9,
            Refusal::StoreFull => 10,
            Refusal::Contradiction { length: _ } => 11,
            Refusal::WrongToken => 12,
            Refusal::BadTie { from: _, to: _ } => 13,
        }
    }

    /// The length of the cycle that a contradiction leaves in the buffer.
    pub fn cycle_length(&self) -> Option<u16>
        ensures { result ≡ cycle_length self.now }
    {
        match *self {
            Refusal::Contradiction { length } => Some(length),
            _ => None,
        }
    }
}
