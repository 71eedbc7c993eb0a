//! The numbers of codes, and how a store's refusal becomes one.

ghost use Rattle.std.specs.Prelude.{◌≡◌};
ghost use Rattle.sheet_text.specs.Reading.{number_of};
ghost use Rattle.sheet_text.specs.declared.faults.Code.TheVariants.{Store};

use crate::faults::Code;
use store::Refusal;

impl From<Refusal> for Code {
    ghost from_gives = { λ refusal code. code ≡ Store refusal };

    fn from(why: Refusal) -> Code {
        Code::Store(why)
    }
}

impl Code {
    /// The number by which a code is known.
    pub fn number(&self) -> u8
        ensures { result ≡ number_of self.now }
    {
        match self {
            Code::Store(refusal) => refusal.code(),
            Code::Length => 21,
            Code::Form => 22,
            Code::Name => 23,
            Code::Count => 24,
            Code::Trailer => 25,
        }
    }
}
