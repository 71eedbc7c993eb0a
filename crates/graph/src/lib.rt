//! Graphs on markers: walks, cycles, distances, shortest-path trees, and what is true of them over any measure.

#![tactic(auto)]

ghost use Rattle.std.specs.Prelude.{◌≡◌, ℕ, Option};
ghost use Rattle.measure.specs.declared.Amount.{Amount};

use measure::Amount;

pub mod theorems;

/// A graph on the markers below n, with an amount on each edge.
pub trait Graph {
    // the number of markers
    ghost count: { Self → ℕ };

    // the amount of an ordered pair, where it is an edge
    ghost weight: { Self → ℕ → ℕ → Option Amount };

    // what reading the graph needs
    ghost sound: { Self → Type 0 };

    fn marker_count(&self) -> u16
        requires { sound self.now }
        ensures { result ≡ count self.now };

    fn weight(&self, from: u16, to: u16) -> Option<Amount>
        requires { sound self.now }
        ensures { result ≡ weight self.now from to };
}
