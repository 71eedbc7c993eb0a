//! The same calls on every store.

use crate::call::{Answer, Call, make_call};
use layers::{Locked, Screened};
use matrix::TieMatrix;
use measure::{Amount, PlainDepth};
use solver::Solver;
use std::alloc::{AllocError, Global};
use store::{TieList, TieRecord, TieStore};

// Marker 3, and every bit that stands for no marker.
pub const THREE: u64 = 0xffff_ffff_ffff_fff8;

// Marker 2.
pub const TWO: u64 = 4;

pub const CALLS: [Call; 24] = [
    Call::Depth(1),
    Call::Open,
    Call::Open,
    Call::Depth(3),
    Call::Path(3),
    Call::Tie(1, 2, 12),
    Call::Tie(2, 3, 50),
    Call::Tie(1, 3, 90),
    Call::Depth(3),
    Call::Untie(1, 3),
    Call::Tie(2, 1, -10),
    Call::Tie(1, 2, 9),
    Call::Tie(2, 2, 5),
    Call::Tie(4, 3, 5),
    Call::Tie(0, 2, 20_000_001),
    Call::ShortPath(2),
    Call::Untie(0, 2),
    Call::Tie(1, 0, 0),
    Call::Tie(0, 1, 1900),
    Call::Depth(1),
    Call::Depth(2),
    Call::Depth(3),
    Call::Path(3),
    Call::ChangeCount,
];

// The store with two ties more, one of them to marker 3.
fn filled<S: TieStore>(mut store: S, to_three: i64) -> S {
    let _ = store.put(0, 1, Amount::millimetres(2000));
    let _ = store.put(1, 3, Amount::millimetres(to_three));
    store
}

// A list of four markers with room for four ties, two of them taken.
pub fn list(records: &mut [TieRecord; 4], to_three: i64) -> TieList<'_> {
    filled(TieList::new(4, records), to_three)
}

// A matrix of four markers with the same ties.
pub fn matrix(cells: &mut [Option<Amount>; 16], to_three: i64) -> TieMatrix<'_> {
    filled(TieMatrix::new(4, cells), to_three)
}

// A call, and the answer of each store to it.
#[derive(Drop)]
struct Line {
    call: Call,
    answers: Vec<Answer>,
}

// A line for each call, a column for each store.
#[derive(Drop)]
struct Table {
    names: Vec<&'static str>,
    lines: Vec<Line>,
}

impl Table {
    fn new(alloc: Global, calls: &[Call]) -> Result<Table, AllocError> {
        let mut lines = Vec::new(alloc);
        for call in calls {
            lines.push(Line {
                call: *call,
                answers: Vec::new(alloc),
            })?;
        }
        Ok(Table {
            names: Vec::new(alloc),
            lines,
        })
    }

    // Makes the calls over a store.
    fn add<S: TieStore + Drop>(&mut self, name: &'static str, store: S) -> Result<(), AllocError> {
        self.names.push(name)?;
        let mut solver = Solver::new(store, PlainDepth, Amount::millimetres(5000), 0);
        for line in &mut self.lines {
            line.answers.push(make_call(&mut solver, line.call))?;
        }
        Ok(())
    }

    fn tell(&self, rt: &HostRuntime) -> anyhow::Result<()> {
        print!(rt; "{:<20}", "")?;
        for name in &self.names {
            print!(rt; "{name:>13}")?;
        }
        println!(rt)?;
        for line in &self.lines {
            let call = line.call.to_string(rt.alloc())?;
            print!(rt; "{call:<20}")?;
            for answer in &line.answers {
                let answer = answer.to_string(rt.alloc())?;
                print!(rt; "{answer:>13}")?;
            }
            println!(rt)?;
        }
        Ok(())
    }
}

/// The answers of each store to these calls, with this amount from marker 1 to marker 3.
pub fn tell_calls(rt: &HostRuntime, to_three: i64, calls: &[Call]) -> anyhow::Result<()> {
    let mut table = Table::new(rt.alloc(), calls)?;
    table.add("list", list(&mut [TieRecord::default(); 4], to_three))?;
    table.add("matrix", matrix(&mut [None; 16], to_three))?;
    table.add(
        "L list",
        Locked::new(list(&mut [TieRecord::default(); 4], to_three), THREE),
    )?;
    table.add(
        "L matrix",
        Locked::new(matrix(&mut [None; 16], to_three), THREE),
    )?;
    table.add(
        "S list",
        Screened::new(list(&mut [TieRecord::default(); 4], to_three), THREE),
    )?;
    table.add(
        "S matrix",
        Screened::new(matrix(&mut [None; 16], to_three), THREE),
    )?;
    table.add(
        "LS list",
        Locked::new(
            Screened::new(list(&mut [TieRecord::default(); 4], to_three), THREE),
            TWO,
        ),
    )?;
    table.add(
        "LS matrix",
        Locked::new(Screened::new(matrix(&mut [None; 16], to_three), THREE), TWO),
    )?;
    println!(rt; "with the ties 0 to 1, 2000, and 1 to 3, {to_three}")?;
    table.tell(rt)?;
    println!(rt)?;
    Ok(())
}
