//! The effective bounds of a store's ties, as a graph: every marker lies between the datum and the total depth.

#![tactic(auto)]

ghost use Rattle.std.specs.Prelude.{◌≡◌};
ghost use Rattle.law.specs.Standing.{bound_at, capped};
ghost use Rattle.bounds.specs.Scopes.{in_scope};
ghost use Rattle.bounds.specs.Small.{BoundsSound, Small};

use crate::scope::Scope;
use graph::Graph;
use measure::{Amount, Measure};
use store::TieStore;

pub mod scope;

/// The lesser of the cap and a tie's amount, where there is a tie.
pub fn capped<M: Measure>(measure: &M, cap: Amount, tie: Option<Amount>) -> Amount
    requires cap { M.within 1 cap }
    requires small { Small M.Measure tie }
    ensures { result ≡ capped M.Measure cap tie }
{
    match tie {
        None => cap,
        Some(amount) => measure::least(measure, amount, cap),
    }
}

/// The bounds of the ties in scope, over a lent store.
#[derive(Clone, Copy)]
pub struct Bounds<'s, S, M> {
    pub store: &'s S,
    pub measure: &'s M,
    pub total: Amount,
    pub scope: Scope,
}

impl<'s, S: TieStore, M: Measure> Bounds<'s, S, M> {
    // The tie of a pair that is in scope.
    fn tie(&self, from: u16, to: u16) -> Option<Amount>
        ensures { result ≡ in_scope (S.TieStore.meaning self.now.store.now).tie self.now.scope from to }
    {
        match self.scope {
            Scope::Changed(change) if from == change.start && to == change.end => change.amount,
            Scope::First(k) if from as usize * 64 + to as usize >= k => None,
            _ => self.store.amount(from, to),
        }
    }
}

impl<'s, S: TieStore, M: Measure> Graph for Bounds<'s, S, M> {
    ghost count = { λ b. (S.TieStore.meaning b.store.now).count };

    ghost weight = { λ b x y. bound_at M.Measure b.total x y (in_scope (S.TieStore.meaning b.store.now).tie b.scope x y) };

    ghost sound = { λ b. BoundsSound M.Measure b.total (in_scope (S.TieStore.meaning b.store.now).tie b.scope) };

    fn marker_count(&self) -> u16 {
        self.store.marker_count()
    }

    fn weight(&self, from: u16, to: u16) -> Option<Amount> {
        if from == to {
            return None;
        }
        let tie = self.tie(from, to);
        if to == 0 {
            return Some(capped(self.measure, self.measure.zero(), tie));
        }
        if from == 0 {
            return Some(capped(self.measure, self.total, tie));
        }
        tie
    }
}
