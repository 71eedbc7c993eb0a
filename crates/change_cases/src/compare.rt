//! What has to hold of a solver's rows after a change.

use crate::plain::{Change, Well, index, number};
use arrayvec::ArrayVec;
use measure::{Amount, Measure};
use solver::Solver;
use std::process::Abort;
use std::test::Fail;
use store::TieStore;
use table::Row;

/// What a buffer has before a call.
pub const UNTOUCHED: u16 = 999;

/// The row of each marker. Those past the last marker never change.
pub type Rows = [Row; 64];

/// All rows of a solver.
pub fn rows_of<S: TieStore, M: Measure>(solver: &Solver<S, M>, n: u16) -> Result<Rows, Fail> {
    let depth = Amount::default();
    let mut rows = [Row { depth, parent: 0 }; 64];
    for (m, row) in (0..n).zip(&mut rows) {
        *row = solver.depth(m)?;
    }
    Ok(rows)
}

// The path of a marker, datum first, by the parents of the rows.
fn path_of(rows: &Rows, marker: u16) -> Option<ArrayVec<u16, 64>> {
    let mut path = ArrayVec::new();
    let mut m = marker;
    for _step in 0..64u16 {
        path.try_push(m).ok()?;
        if m == 0 {
            path.reverse();
            return Some(path);
        }
        m = rows[index(m)].parent;
    }
    None
}

// What the bounds from each marker to the next add up to, if all of them stand.
fn sum_along(well: &Well, markers: &[u16]) -> Option<i64> {
    let mut sum: i64 = 0;
    for &[from, to] in markers.array_windows::<2>() {
        sum = sum.saturating_add(well.bound(from, to)?);
    }
    Some(sum)
}

/// A buffer is as it was.
pub fn check_untouched(rt: &impl Abort, buffer: &[u16]) {
    assert!(rt; buffer.iter().all(|&marker| marker == UNTOUCHED));
}

/// What a call wrote to the front of a buffer; the rest is as it was.
pub fn written<'a>(rt: &impl Abort, buffer: &'a [u16], length: u16) -> Result<&'a [u16], Fail> {
    let (front, rest) = buffer
        .split_at_checked(usize::from(length))
        .ok_or("longer than the buffer")?;
    check_untouched(rt, rest);
    Ok(front)
}

/// Every path goes from the datum to its marker, by the parents of the rows.
pub fn check_paths<S: TieStore, M: Measure>(
    rt: &impl Abort,
    solver: &Solver<S, M>,
    n: u16,
    rows: &Rows,
) -> Result<(), Fail> {
    for m in 0..n {
        let mut buffer = [UNTOUCHED; 64];
        let length = solver.path(m, &mut buffer)?;
        assert!(rt; length <= n);
        let path = path_of(rows, m).ok_or("parents that do not lead to the datum")?;
        assert_eq!(rt; written(rt, &buffer, length)?, path.as_slice());
    }
    Ok(())
}

/// The depths are the deepest that fit, and every parent's bound is met exactly.
pub fn check_depths(rt: &impl Abort, well: &Well, rows: &Rows) -> Result<(), Fail> {
    let deepest = well.depths().ok_or("no depths fit")?;
    assert_eq!(rt; number(rows[0].depth), 0);
    assert_eq!(rt; rows[0].parent, 0);
    for m in 1..well.n {
        let Row { depth, parent } = rows[index(m)];
        assert_eq!(rt; number(depth), deepest[index(m)]);
        assert!(rt; parent < well.n);
        let bound = well.bound(parent, m).ok_or("no bound from the parent")?;
        assert_eq!(rt;
            number(rows[index(parent)].depth).saturating_add(bound),
            number(depth)
        );
    }
    Ok(())
}

/// A marker whose old path stands, and adds up to its new depth, has that path still.
pub fn check_kept(rt: &impl Abort, well: &Well, old: &Rows, new: &Rows) -> Result<(), Fail> {
    for m in 0..well.n {
        let path = path_of(old, m).ok_or("old parents that do not lead to the datum")?;
        if sum_along(well, &path) == Some(number(new[index(m)].depth)) {
            assert_eq!(rt; path_of(new, m), Some(path));
        }
    }
    Ok(())
}

/// How many markers have another depth, and how many another parent.
pub fn differences(old: &Rows, new: &Rows) -> (usize, usize) {
    let moved = old
        .iter()
        .zip(new)
        .filter(|(old, new)| old.depth != new.depth);
    let reparented = old
        .iter()
        .zip(new)
        .filter(|(old, new)| old.parent != new.parent);
    (moved.count(), reparented.count())
}

/// The markers are a cycle from the end of the changed pair to its start, which sums to less than zero.
pub fn check_cycle(
    rt: &impl Abort,
    well: &Well,
    change: Change,
    cycle: &[u16],
) -> Result<(), Fail> {
    assert!(rt; 2 <= cycle.len() && cycle.len() <= usize::from(well.n));
    assert_eq!(rt; cycle.first(), Some(&change.to));
    assert_eq!(rt; cycle.last(), Some(&change.from));
    let mut seen = [false; 64];
    for &m in cycle {
        assert!(rt; m < well.n && !seen[index(m)]);
        seen[index(m)] = true;
    }
    let closing = well
        .bound(change.from, change.to)
        .ok_or("no bound that closes the cycle")?;
    let others = sum_along(well, cycle).ok_or("no bound along the cycle")?;
    assert!(rt; closing.saturating_add(others) < 0);
    Ok(())
}
