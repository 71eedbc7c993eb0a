//! Layers taken off, bit 63, and the sizes that a store may have.

use crate::call::{Call, make_call};
use crate::stores::{THREE, TWO, list, matrix};
use layers::{Locked, Screened};
use matrix::TieMatrix;
use measure::{Amount, PlainDepth};
use solver::Solver;
use std::fmt;
use store::{Refusal, TieList, TieRecord, TieStore};

// A pair of markers, whether one of them is closed, and the amount of its tie.
#[derive(Clone, Copy)]
struct Pair {
    from: u16,
    to: u16,
    closed: bool,
    amount: Option<Amount>,
}

// In brackets if a marker is closed.
impl fmt::Display for Pair {
    fn fmt<W: fmt::Write>(&self, f: &mut fmt::Formatter<W>) -> fmt::Result {
        let (open, end) = if self.closed { ("[", "]") } else { (" ", "") };
        write!(f, "{open}{} to {}, ", self.from, self.to)?;
        match self.amount {
            Some(amount) => write!(f, "{}{end}", amount.mm),
            None => write!(f, "none{end}"),
        }
    }
}

fn read_pair<S: TieStore>(store: &S, from: u16, to: u16) -> Pair {
    Pair {
        from,
        to,
        closed: store.is_closed(from) || store.is_closed(to),
        amount: store.amount(from, to),
    }
}

// What a store says to a change.
#[derive(Clone, Copy)]
struct Said(Result<(), Refusal>);

impl fmt::Display for Said {
    fn fmt<W: fmt::Write>(&self, f: &mut fmt::Formatter<W>) -> fmt::Result {
        match self.0 {
            Ok(()) => write!(f, "ok"),
            Err(why) => write!(f, "refused {}", why.code()),
        }
    }
}

// What a check answers: the number of a refusal, or 0.
#[derive(Clone, Copy)]
struct Checked(Result<(), Refusal>);

impl fmt::Display for Checked {
    fn fmt<W: fmt::Write>(&self, f: &mut fmt::Formatter<W>) -> fmt::Result {
        match self.0 {
            Ok(()) => write!(f, "0"),
            Err(why) => write!(f, "{}", why.code()),
        }
    }
}

fn tell_store<S: TieStore>(rt: &HostRuntime, name: &str, store: &S) -> anyhow::Result<()> {
    let free = store.free();
    println!(rt;
        "{name}: {free} free, {} {} {}",
        read_pair(store, 0, 1),
        read_pair(store, 1, 2),
        read_pair(store, 1, 3)
    )?;
    Ok(())
}

// The deepest depth of marker 3 over a store.
fn tell_depth<S: TieStore + Drop>(rt: &HostRuntime, name: &str, store: S) -> anyhow::Result<()> {
    let mut solver = Solver::new(store, PlainDepth, Amount::millimetres(5000), 0);
    let opened = make_call(&mut solver, Call::Open);
    let depth = make_call(&mut solver, Call::Depth(3));
    println!(rt; "{name}: open {opened}, depth 3 {depth}")?;
    println!(rt)?;
    Ok(())
}

fn put<S: TieStore>(
    rt: &HostRuntime,
    store: &mut S,
    from: u16,
    to: u16,
    mm: i64,
) -> anyhow::Result<()> {
    let said = Said(store.put(from, to, Amount::millimetres(mm)));
    println!(rt; "put {from} to {to}, {mm}: {said}")?;
    Ok(())
}

// Puts a screen on marker 3 over the store, changes what can be changed, and takes it off again.
fn take_off<S: TieStore + Drop>(rt: &HostRuntime, name: &str, below: S) -> anyhow::Result<()> {
    tell_store(rt, name, &below)?;
    let mut screened = Screened::new(below, THREE);
    tell_store(rt, "screened", &screened)?;
    put(rt, &mut screened, 1, 2, 12)?;
    put(rt, &mut screened, 1, 3, 7)?;
    println!(rt; "clear 1 to 3: {}", Said(screened.clear(1, 3)))?;
    tell_store(rt, "screened", &screened)?;
    let below = screened.into_below();
    tell_store(rt, "taken off", &below)?;
    tell_depth(rt, "taken off", below)
}

/// A hidden tie stands again once the screen is taken off.
pub fn tell_taken_off(rt: &HostRuntime) -> anyhow::Result<()> {
    let mut cells = [None; 16];
    let locked = Locked::new(matrix(&mut cells, 100), TWO);
    tell_depth(rt, "screened locked matrix", Screened::new(locked, THREE))?;
    take_off(rt, "list", list(&mut [TieRecord::default(); 4], 100))?;
    take_off(rt, "matrix", matrix(&mut [None; 16], 100))?;
    take_off(
        rt,
        "locked matrix",
        Locked::new(matrix(&mut [None; 16], 100), TWO),
    )
}

/// Bit 63 stands for marker 63 of 64.
pub fn tell_last_bit(rt: &HostRuntime) -> anyhow::Result<()> {
    let mut cells = [None; 4096];
    let mut matrix = TieMatrix::new(64, &mut cells);
    put(rt, &mut matrix, 0, 62, 8)?;
    put(rt, &mut matrix, 0, 63, 7)?;
    let mut screened = Screened::new(matrix, 1 << 63);
    println!(rt;
        " {} {} {}",
        read_pair(&screened, 0, 62),
        read_pair(&screened, 0, 63),
        read_pair(&screened, 0, 64)
    )?;
    put(rt, &mut screened, 62, 0, 0)?;
    put(rt, &mut screened, 63, 0, 0)?;
    put(rt, &mut screened, 64, 0, 0)?;
    let free = screened.free();
    println!(rt; "{free} free")?;
    println!(rt)?;
    Ok(())
}

/// The sizes that a list and a matrix may have.
pub fn tell_sizes(rt: &HostRuntime) -> anyhow::Result<()> {
    let sizes = [
        (1, 1),
        (2, 4),
        (4, 15),
        (4, 16),
        (4, 17),
        (64, 4096),
        (65, 4225),
        (2, 4097),
    ];
    for (n, records) in sizes {
        let list = Checked(TieList::check(n, records));
        let matrix = Checked(TieMatrix::check(n, records));
        println!(rt; "{n} markers, {records} records: list {list}, matrix {matrix}")?;
    }
    Ok(())
}
