//! What is checked before anything is solved.

ghost use Rattle.std.specs.Prelude.{◌≡◌, []};
ghost use Rattle.law.specs.Refusals.{bad_tie, first, first_bad_tie, first_refusal, lowest, pair_checks};
ghost use Rattle.law.specs.declared.call.Call.TheVariants as call;
ghost use Rattle.solver.specs.Model.{model};
ghost use Rattle.solver.specs.Opening.{as_result};

use crate::solver::Solver;
use law::{Refusal, State};
use measure::{Amount, Measure};
use store::TieStore;

impl<S: TieStore, M: Measure> Solver<S, M> {
    // Refuses a tie from `a` to `b` whose amount is not admitted.
    fn check_tie_at(&self, a: u16, b: u16) -> Result<(), Refusal>
        ensures { result ≡ as_result (bad_tie M.Measure a b ((S.TieStore.meaning self.now.store).tie a b)) }
    {
        match self.store.amount(a, b) {
            Some(amount) if !self.measure.admitted(amount) => {
                Err(Refusal::BadTie { from: a, to: b })
            }
            _ => Ok(()),
        }
    }

    // The same of all ties from `a`, by their ends.
    fn check_ties_from(&self, a: u16) -> Result<(), Refusal>
        ensures { result ≡ as_result (lowest (S.TieStore.meaning self.now.store).count (λ b. bad_tie M.Measure a b ((S.TieStore.meaning self.now.store).tie a b))) }
    {
        for b in 0..self.store.marker_count() {
            self.check_tie_at(a, b)?;
        }
        Ok(())
    }

    // The same of all ties, by start and then by end.
    fn check_ties(&self) -> Result<(), Refusal>
        ensures { result ≡ as_result (first_bad_tie M.Measure (S.TieStore.meaning self.now.store).count (S.TieStore.meaning self.now.store).tie) }
    {
        for a in 0..self.store.marker_count() {
            self.check_ties_from(a)?;
        }
        Ok(())
    }

    // Why the solver may not be opened with a buffer of this length, before anything is solved.
    pub(crate) fn check_opening(&self, room: usize) -> Result<(), Refusal>
        ensures { result ≡ as_result (first_refusal M.Measure (model S.TieStore self.now).standing (call.Open room)) }
    {
        let State::New = self.state else {
            return Err(Refusal::NotNew);
        };
        let zero = self.measure.zero();
        if !self.measure.admitted(self.total) || measure::at_most(&self.measure, self.total, zero) {
            return Err(Refusal::BadAmount);
        }
        if room < self.store.marker_count() as usize {
            return Err(Refusal::ShortBuffer);
        }
        self.check_ties()
    }

    // Why nothing may be read of a marker.
    pub(crate) fn check_marker(&self, marker: u16) -> Result<(), Refusal>
        ensures { result ≡ as_result (first_refusal M.Measure (model S.TieStore self.now).standing (call.Depth marker)) }
    {
        if let State::New = self.state {
            return Err(Refusal::NotOpen);
        }
        if marker >= self.store.marker_count() {
            return Err(Refusal::UnknownMarker);
        }
        Ok(())
    }

    // Why the pair may be neither tied nor cleared.
    fn check_pair(&self, from: u16, to: u16) -> Result<(), Refusal>
        ensures { result ≡ as_result (first (pair_checks M.Measure (model S.TieStore self.now).standing from to [])) }
    {
        match self.state {
            State::New => return Err(Refusal::NotOpen),
            State::OnTrial { .. } => return Err(Refusal::TrialOut),
            State::Open => {}
        }
        let n = self.store.marker_count();
        if from >= n || to >= n {
            return Err(Refusal::UnknownMarker);
        }
        if from == to {
            return Err(Refusal::SameMarker);
        }
        if self.store.is_closed(from) || self.store.is_closed(to) {
            return Err(Refusal::ClosedMarker);
        }
        Ok(())
    }

    // Why a tie may not be put with a buffer of this length, before anything is solved.
    pub(crate) fn check_tie(
        &self,
        from: u16,
        to: u16,
        amount: Amount,
        room: usize,
    ) -> Result<(), Refusal>
        ensures { result ≡ as_result (first_refusal M.Measure (model S.TieStore self.now).standing (call.Tie from to amount room)) }
    {
        self.check_pair(from, to)?;
        if !self.measure.admitted(amount) {
            return Err(Refusal::BadAmount);
        }
        let n = self.store.marker_count();
        if room < n as usize {
            return Err(Refusal::ShortBuffer);
        }
        if self.store.amount(from, to).is_none() && self.store.free() == 0 {
            return Err(Refusal::StoreFull);
        }
        Ok(())
    }

    // Why a tie may not be cleared.
    pub(crate) fn check_untie(&self, from: u16, to: u16) -> Result<(), Refusal>
        ensures { result ≡ as_result (first_refusal M.Measure (model S.TieStore self.now).standing (call.Untie from to)) }
    {
        self.check_pair(from, to)?;
        if self.store.amount(from, to).is_none() {
            return Err(Refusal::PairEmpty);
        }
        Ok(())
    }
}
