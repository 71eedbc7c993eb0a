//! A store that keeps its ties one after another in lent records.

ghost use Rattle.std.specs.Prelude.{◌≡◌, length, Ok, position};
ghost use Rattle.store.specs.Meaning.{empty_meaning};
ghost use Rattle.store.specs.Laws.{list_lawful};
ghost use Rattle.store.specs.List.{is_pair, list_meaning, ListSound, Placed, size_answer};

use crate::{Refusal, TieRecord, TieStore};
use measure::Amount;

/// Ties in 0 to 4,096 lent records, of which the first `count` are in use.
#[derive(Drop)]
pub struct TieList<'a> {
    n: u16,
    count: usize,
    records: &'a mut [TieRecord],
    ghost sound: { ListSound n count records.now },
}

// The place of the pair among the ties, if it is there.
fn find(ties: &[TieRecord], a: u16, b: u16) -> Option<usize>
    ensures { result ≡ position (is_pair a b) ties.now }
{
    ties.iter().position(|tie| tie.start == a && tie.end == b)
}

impl<'a> TieList<'a> {
    /// Whether a list of `n` markers may lie in so many records.
    pub fn check(n: u16, records: usize) -> Result<(), Refusal>
        ensures { result ≡ size_answer n records }
    {
        if (2..=64).contains(&n) && records <= 4096 {
            Ok(())
        } else {
            Err(Refusal::BadSize)
        }
    }

    /// A list without ties, where `check` has passed.
    pub fn new(n: u16, records: &'a mut [TieRecord]) -> TieList<'a>
        requires { size_answer n (length records.old) ≡ Ok tt }
        ensures { list_meaning result.n result.count result.records.now ≡ empty_meaning n (length records.old) }
    {
        TieList {
            n,
            count: 0,
            records,
        }
    }

    /// A list of the first `count` records, which are ties of different pairs of `n` markers.
    pub fn with_ties(n: u16, count: usize, records: &'a mut [TieRecord]) -> TieList<'a>
        requires { ListSound n count records.old }
        ensures { list_meaning result.n result.count result.records.now ≡ list_meaning n count records.old }
    {
        TieList { n, count, records }
    }

    // The place of the pair among the ties, if it is there.
    fn place(&self, a: u16, b: u16) -> Option<usize>
        ensures { Placed self.now.records.now self.now.count a b result }
    {
        find(&self.records[..self.count], a, b)
    }
}

impl<'a> TieStore for TieList<'a> {
    ghost meaning = { λ s. list_meaning s.n s.count s.records.now };

    ghost lawful = { λ s. list_lawful s.n s.count s.records.now s.sound };

    fn marker_count(&self) -> u16 {
        self.n
    }

    fn is_closed(&self, _marker: u16) -> bool {
        false
    }

    fn amount(&self, a: u16, b: u16) -> Option<Amount> {
        let i = self.place(a, b)?;
        Some(self.records[i].amount)
    }

    fn free(&self) -> usize {
        self.records.len() - self.count
    }

    fn put(&mut self, a: u16, b: u16, amount: Amount) -> Result<(), Refusal> {
        self.check_pair(a, b)?;
        if let Some(i) = self.place(a, b) {
            self.records[i].amount = amount;
            return Ok(());
        }
        if self.count == self.records.len() {
            return Err(Refusal::StoreFull);
        }
        self.records[self.count] = TieRecord {
            start: a,
            end: b,
            amount,
        };
        self.count += 1;
        Ok(())
    }

    fn clear(&mut self, a: u16, b: u16) -> Result<(), Refusal> {
        self.check_pair(a, b)?;
        let i = self.place(a, b).ok_or(Refusal::PairEmpty)?;
        // the last tie fills the gap
        self.count -= 1;
        self.records[i] = self.records[self.count];
        Ok(())
    }
}
