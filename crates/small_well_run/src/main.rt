//! The calls on one small well, a line for each: its answer, and then the depths of the markers 1 and 2 with their parents.

#![tactic(auto)]

use law::{Counts, Refusal};
use measure::{Amount, Measure, PlainDepth};
use solver::Solver;
use std::fmt;
use store::{TieList, TieRecord, TieStore};

// The answer to a change. The cycle of a contradiction stands at the front of the buffer.
#[derive(Clone, Copy)]
struct Told<'a> {
    answer: Result<Counts, Refusal>,
    buffer: &'a [u16],
}

impl fmt::Display for Told<'_> {
    fn fmt<W: fmt::Write>(&self, f: &mut fmt::Formatter<W>) -> fmt::Result {
        match self.answer {
            Ok(Counts { moved, reparented }) => write!(
                f,
                "{moved} moved and {reparented} reparented"
            ),
            Err(Refusal::Contradiction { length }) => {
                write!(f, "contradiction")?;
                for marker in self.buffer.iter().take(usize::from(length)) {
                    write!(f, " {marker}")?;
                }
                Ok(())
            }
            Err(why) => write!(f, "refused {}", why.code()),
        }
    }
}

// Ends a line with the row of each of the markers 1 and 2.
fn tell_rows<S: TieStore, M: Measure>(
    rt: &HostRuntime,
    solver: &Solver<S, M>,
) -> anyhow::Result<()> {
    for m in 1..3u16 {
        if let Ok(row) = solver.depth(m) {
            print!(rt; ", {} ({})", row.depth.mm, row.parent)?;
        }
    }
    println!(rt)?;
    Ok(())
}

fn open<S: TieStore, M: Measure>(
    rt: &HostRuntime,
    solver: &mut Solver<S, M>,
) -> anyhow::Result<()> {
    match solver.open(&mut [0; 4]) {
        Ok(n) => print!(rt; "open: {n} markers")?,
        Err(why) => print!(rt; "open: refused {}", why.code())?,
    }
    tell_rows(rt, solver)
}

fn tie<S: TieStore, M: Measure>(
    rt: &HostRuntime,
    solver: &mut Solver<S, M>,
    from: u16,
    to: u16,
    mm: i64,
) -> anyhow::Result<()> {
    let mut buffer = [0; 4];
    let answer = solver.tie(from, to, Amount::millimetres(mm), &mut buffer);
    let told = Told {
        answer,
        buffer: &buffer,
    };
    print!(rt; "tie {from} to {to}, {mm}: {told}")?;
    tell_rows(rt, solver)
}

fn untie<S: TieStore, M: Measure>(
    rt: &HostRuntime,
    solver: &mut Solver<S, M>,
    from: u16,
    to: u16,
) -> anyhow::Result<()> {
    let answer = solver.untie(from, to);
    let told = Told {
        answer,
        buffer: &[],
    };
    print!(rt; "untie {from} to {to}: {told}")?;
    tell_rows(rt, solver)
}

fn run(rt: &HostRuntime) -> anyhow::Result<()> {
    let mut records = [TieRecord::default(); 8];
    let list = TieList::new(4, &mut records);
    let mut solver = Solver::new(list, PlainDepth, Amount::millimetres(3_000_000), 0);
    open(rt, &mut solver)?;
    tie(rt, &mut solver, 0, 1, 2_000_000)?;
    tie(rt, &mut solver, 1, 2, 12_000)?;
    tie(rt, &mut solver, 2, 1, -10_000)?;
    tie(rt, &mut solver, 1, 2, 9_999)?;
    tie(rt, &mut solver, 1, 2, 10_000)?;
    untie(rt, &mut solver, 0, 1)?;
    tie(rt, &mut solver, 3, 0, -3_000_001)?;
    tie(rt, &mut solver, 3, 0, -3_000_000)?;
    let count = solver.change_count();
    println!(rt; "{count} changes")?;
    Ok(())
}

fn main(rt: HostRuntime) -> anyhow::Result<()> {
    run(&rt)
}
