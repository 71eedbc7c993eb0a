//! Ties, bounds and depths, plainly. An amount is one number here: its millimetres times 1,024, and its marks.

ghost use Rattle.std.specs.Prelude.{◌<◌};

use law::Refusal;
use measure::Amount;

/// One pair of markers, and the amount that its tie is to have; none if the tie is to go.
#[derive(Clone, Copy)]
pub struct Change {
    pub from: u16,
    pub to: u16,
    pub amount: Option<Amount>,
}

/// The ties that a solver should have.
#[derive(Clone, Copy)]
pub struct Well {
    pub n: u16,
    total: Amount,
    pub least_mark: i32,
    room: usize,
    ties: [Option<Amount>; 4096],
}

pub fn number(amount: Amount) -> i64 {
    amount
        .mm
        .saturating_mul(1024)
        .saturating_add(i64::from(amount.marks))
}

/// The place of a marker's row in a table.
pub fn index(marker: u16) -> usize
    ensures { result < 64 }
{
    usize::from(marker % 64)
}

// Where a pair stands among the ties.
fn place(from: u16, to: u16) -> usize
    ensures { result < 4096 }
{
    index(from) * 64 + index(to)
}

impl Well {
    /// A well without ties, with room for so many. The marks of an amount are from `least_mark` to 0.
    pub fn new(n: u16, total: Amount, least_mark: i32, room: usize) -> Well {
        Well {
            n,
            total,
            least_mark,
            room,
            ties: [None; 4096],
        }
    }

    pub fn tie(&self, from: u16, to: u16) -> Option<Amount> {
        self.ties[place(from, to)]
    }

    pub fn changed(&self, change: Change) -> Well {
        let mut next = *self;
        next.ties[place(change.from, change.to)] = change.amount;
        next
    }

    /// How far below the first marker the second lies at most, if that is bounded.
    pub fn bound(&self, from: u16, to: u16) -> Option<i64> {
        let tie = self.tie(from, to).map(number);
        let total = number(self.total);
        if from == to || from >= self.n || to >= self.n {
            None
        } else if from == 0 {
            Some(tie.unwrap_or(total).min(total))
        } else if to == 0 {
            Some(tie.unwrap_or(0).min(0))
        } else {
            tie
        }
    }

    fn is_full(&self) -> bool {
        self.ties.iter().flatten().count() >= self.room
    }

    fn admits(&self, amount: Amount) -> bool {
        (-20_000_000..=20_000_000).contains(&amount.mm)
            && (self.least_mark..=0).contains(&amount.marks)
    }

    /// Why a change is refused before anything is solved.
    pub fn refusal(&self, change: Change) -> Option<Refusal> {
        if change.from >= self.n || change.to >= self.n {
            return Some(Refusal::UnknownMarker);
        }
        if change.from == change.to {
            return Some(Refusal::SameMarker);
        }
        match (self.tie(change.from, change.to), change.amount) {
            (_, Some(amount)) if !self.admits(amount) => Some(Refusal::BadAmount),
            (None, Some(_)) if self.is_full() => Some(Refusal::StoreFull),
            (None, None) => Some(Refusal::PairEmpty),
            _ => None,
        }
    }

    /// The deepest depths that fit the bounds: in n passes over all bounds, of which the last changes nothing unless no depths
    /// fit.
    pub fn depths(&self) -> Option<[i64; 64]> {
        // worked out once: asked for anew in each pass, the bounds take most of the time
        let bounds = self.bounds();
        let mut depths = [number(self.total); 64];
        depths[0] = 0;
        for _pass in 0..self.n {
            if !lowered(self.n, &bounds, &mut depths) {
                return Some(depths);
            }
        }
        None
    }

    fn bounds(&self) -> [Option<i64>; 4096] {
        let mut bounds = [None; 4096];
        for from in 0..self.n {
            for to in 0..self.n {
                bounds[place(from, to)] = self.bound(from, to);
            }
        }
        bounds
    }
}

// One pass over all bounds: whether a depth was too deep for one of them.
fn lowered(n: u16, bounds: &[Option<i64>; 4096], depths: &mut [i64; 64]) -> bool {
    let mut any = false;
    for from in 0..n {
        for to in 0..n {
            if let Some(bound) = bounds[place(from, to)] {
                let most = depths[index(from)].saturating_add(bound);
                if most < depths[index(to)] {
                    depths[index(to)] = most;
                    any = true;
                }
            }
        }
    }
    any
}
