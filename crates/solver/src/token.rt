//! What a trial hands out, and how it comes back where it is refused.

ghost use Rattle.std.specs.Prelude.{◌≡◌};

use law::Refusal;

/// A trial that is out. It comes from `Solver::trial` alone, cannot be copied, and goes back by `Solver::commit` or
/// `Solver::roll_back`: a program that lets it go does not compile.
pub struct TrialToken {
    pub(crate) number: u32,
}

/// A token that was refused, and why.
pub struct Returned {
    pub why: Refusal,
    pub token: TrialToken,
}

impl TrialToken {
    /// The number of the solver that handed it out.
    pub fn number(&self) -> u32
        ensures { result ≡ self.now.number }
    {
        self.number
    }
}
