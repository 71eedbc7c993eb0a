//! Changes drawn by a linear congruential generator.

use crate::plain::{Change, Well, index};
use measure::Amount;

#[derive(Drop)]
struct Generator {
    state: u64,
}

impl Generator {
    // A number below `n`.
    fn below(&mut self, n: u16) -> u16 {
        self.state = self
            .state
            .wrapping_mul(6_364_136_223_846_793_005)
            .wrapping_add(1_442_695_040_888_963_407);
        u16::try_from((self.state >> 33) % u64::from(n.max(1))).unwrap_or(0)
    }
}

/// Draws changes. Most of the ties fit the depths that it aims at.
#[derive(Drop)]
pub struct Draw {
    numbers: Generator,
    aims: [i64; 64],
}

impl Draw {
    /// Aims at depths in whole metres, from 0 to 8.
    pub fn new(seed: u64) -> Draw {
        let mut numbers = Generator { state: seed };
        let mut aims = [0; 64];
        for aim in aims.iter_mut().skip(1) {
            *aim = 1000 * i64::from(numbers.below(9));
        }
        Draw { numbers, aims }
    }

    // Millimetres that a tie has to spare: often none, so that many paths are equally short, and at times too few.
    fn slack(&mut self) -> i64 {
        match self.numbers.below(8) {
            0..=1 => 0,
            2..=5 => 1000 * (1 + i64::from(self.numbers.below(4))),
            _ => -500 * i64::from(self.numbers.below(5)),
        }
    }

    fn amount(&mut self, least_mark: i32, difference: i64) -> Amount {
        if self.numbers.below(40) == 0 {
            return Amount::millimetres(20_000_001);
        }
        let marks = if self.numbers.below(4) == 0 {
            least_mark
        } else {
            0
        };
        let mm = difference.saturating_add(self.slack());
        Amount { mm, marks }
    }

    // Two markers that lie near each other by number, or the datum and another: few enough pairs that they recur. At times one
    // marker twice, or a marker that is not there.
    fn pair(&mut self, n: u16) -> (u16, u16) {
        let a = self.numbers.below(n);
        let near = a.saturating_add(1).saturating_add(self.numbers.below(3)) % n.max(1);
        let b = if self.numbers.below(4) == 0 { 0 } else { near };
        match self.numbers.below(40) {
            0 => (a, n),
            k if k % 2 == 0 => (a, b),
            _ => (b, a),
        }
    }

    /// A tie to be put, replaced or taken away.
    pub fn change(&mut self, well: &Well) -> Change {
        let (from, to) = self.pair(well.n);
        let odds = if well.tie(from, to).is_some() { 2 } else { 30 };
        let amount = if self.numbers.below(odds) == 0 {
            None
        } else {
            let difference = self.aims[index(to)].saturating_sub(self.aims[index(from)]);
            Some(self.amount(well.least_mark, difference))
        };
        Change { from, to, amount }
    }
}
