//! Runs of changes, on few and many markers, by both measures.

use crate::compare::{
    Rows, UNTOUCHED, check_cycle, check_depths, check_kept, check_paths, check_untouched,
    differences, rows_of, written,
};
use crate::draw::Draw;
use crate::plain::{Change, Well};
use law::{Counts, Refusal};
use measure::{Amount, Measure, PlainDepth, StrictDepth};
use solver::Solver;
use std::process::Abort;
use std::test::Fail;
use store::{TieList, TieRecord, TieStore};

// What a change is answered: the two counts, or the refusal.
type Answer = Result<Counts, Refusal>;

// What holds of the rows after an accepted change, and of the counts that it answered.
fn check_accepted<S: TieStore, M: Measure>(
    rt: &impl Abort,
    solver: &Solver<S, M>,
    next: &Well,
    old: &Rows,
    counts: Counts,
) -> Result<(), Fail> {
    let new = rows_of(solver, next.n)?;
    check_depths(rt, next, &new)?;
    check_paths(rt, solver, next.n, &new)?;
    check_kept(rt, next, old, &new)?;
    let Counts { moved, reparented } = counts;
    assert_eq!(rt;
        (usize::from(moved), usize::from(reparented)),
        differences(old, &new)
    );
    Ok(())
}

// What holds of a refusal, and of the buffer that it leaves.
fn check_refused(
    rt: &impl Abort,
    well: &Well,
    change: Change,
    why: Refusal,
    buffer: &[u16],
) -> Result<(), Fail> {
    let Refusal::Contradiction { length } = why else {
        assert_eq!(rt; well.refusal(change), Some(why));
        check_untouched(rt, buffer);
        return Ok(());
    };
    assert_eq!(rt; well.refusal(change), None);
    let next = well.changed(change);
    assert!(rt; next.depths().is_none());
    check_cycle(rt, &next, change, written(rt, buffer, length)?)
}

fn make<S: TieStore, M: Measure>(
    solver: &mut Solver<S, M>,
    change: Change,
    cycle: &mut [u16; 64],
) -> Answer {
    match change.amount {
        Some(amount) => solver.tie(change.from, change.to, amount, cycle),
        None => solver.untie(change.from, change.to),
    }
}

// Makes a change, and compares the answer and what it leaves behind with what they have to be.
fn step<S: TieStore, M: Measure>(
    rt: &impl Abort,
    solver: &mut Solver<S, M>,
    well: &mut Well,
    change: Change,
) -> Result<Answer, Fail> {
    let old = rows_of(solver, well.n)?;
    let count = solver.change_count();
    let mut buffer = [UNTOUCHED; 64];
    let answer = make(solver, change, &mut buffer);
    match answer {
        Ok(counts) => {
            assert_eq!(rt; well.refusal(change), None);
            check_untouched(rt, &buffer);
            let next = well.changed(change);
            check_accepted(rt, solver, &next, &old, counts)?;
            assert_eq!(rt; solver.change_count(), count.saturating_add(1));
            *well = next;
        }
        Err(why) => {
            check_refused(rt, well, change, why, &buffer)?;
            assert_eq!(rt; rows_of(solver, well.n)?, old);
            assert_eq!(rt; solver.change_count(), count);
        }
    }
    Ok(answer)
}

// Makes so many changes of a well that has no ties at first: the answers.
fn run<S: TieStore, M: Measure>(
    rt: &(impl Abort + AllocGlobal),
    solver: &mut Solver<S, M>,
    mut well: Well,
    seed: u64,
    changes: u16,
) -> Result<Vec<Answer>, Fail> {
    let mut buffer = [UNTOUCHED; 64];
    assert_eq!(rt; solver.open(&mut buffer), Ok(well.n));
    let mut draw = Draw::new(seed);
    let mut answers = Vec::new(rt.alloc());
    for i in 0..changes {
        let change = draw.change(&well);
        answers.push(step(rt, solver, &mut well, change)?)?;
    }
    Ok(answers)
}

// No run is of one kind of answer alone.
fn check_mixed(rt: &impl Abort, answers: &[Answer]) {
    let accepted = answers.iter().filter(|answer| answer.is_ok()).count();
    let moving = answers
        .iter()
        .filter(|answer| answer.is_ok_and(|counts| counts.moved > 0))
        .count();
    let contradictions = answers
        .iter()
        .filter(|answer| answer.is_err_and(|why| why.cycle_length().is_some()))
        .count();
    let others = answers
        .iter()
        .filter(|answer| answer.is_err_and(|why| why.cycle_length().is_none()))
        .count();
    assert!(rt; accepted >= 200);
    assert!(rt; moving >= 50);
    assert!(rt; contradictions >= 40);
    assert!(rt; others >= 40);
}

// A run over a list in these records.
fn run_on_list<M: Measure + Drop>(
    rt: &(impl Abort + AllocGlobal),
    measure: M,
    least_mark: i32,
    n: u16,
    records: &mut [TieRecord],
    seed: u64,
    changes: u16,
) -> Result<(), Fail> {
    TieList::check(n, records.len())?;
    let total = Amount::millimetres(8000);
    let well = Well::new(n, total, least_mark, records.len());
    let list = TieList::new(n, records);
    let mut solver = Solver::new(list, measure, total, 0);
    check_mixed(rt, &run(rt, &mut solver, well, seed, changes)?);
    Ok(())
}

// Two runs in these records, by plain and by strict depth.
fn run_both(
    rt: &(impl Abort + AllocGlobal),
    n: u16,
    records: &mut [TieRecord],
    seeds: [u64; 2],
    changes: u16,
) -> Result<(), Fail> {
    let [plain, strict] = seeds;
    run_on_list(rt, PlainDepth, 0, n, records, plain, changes)?;
    run_on_list(rt, StrictDepth, -1, n, records, strict, changes)
}

#[test]
fn eight_markers(rt: HostRuntime) -> Result<(), Fail> {
    run_both(&rt, 8, &mut [TieRecord::default(); 24], [1, 2], 400)
}

#[test]
fn sixteen_markers(rt: HostRuntime) -> Result<(), Fail> {
    run_both(&rt, 16, &mut [TieRecord::default(); 60], [3, 4], 400)
}

#[test]
fn sixty_four_markers(rt: HostRuntime) -> Result<(), Fail> {
    run_both(&rt, 64, &mut [TieRecord::default(); 220], [5, 6], 600)
}
