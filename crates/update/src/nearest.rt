ghost use Rattle.std.specs.Prelude.{◌<◌, Decides};
ghost use Rattle.update.specs.Reading.{Deep, depth, flag};
ghost use Rattle.update.specs.Nearest.{Best};

use crate::Work;
use measure::Measure;
use table::DepthTable;

// Whether the depth of y has fallen at least as far as that of z.
fn leads<M: Measure>(measure: &M, old: &DepthTable, work: &Work, y: u16, z: u16) -> bool
    requires depths { Deep M.Measure old.now.n 128 old.now.rows }
    requires labels { Deep M.Measure old.now.n 128 work.now.rows }
    requires first { y < old.now.n }
    requires second { z < old.now.n }
    ensures { Decides result (M.group.le (M.group.plus (depth M.Measure work.now.rows y) (depth M.Measure old.now.rows z)) (M.group.plus (depth M.Measure work.now.rows z) (depth M.Measure old.now.rows y))) }
{
    let first = measure.sum(work.rows[y as usize].depth, old.depth(z));
    let second = measure.sum(work.rows[z as usize].depth, old.depth(y));
    measure::at_most(measure, first, second)
}

/// The marker that is not done whose depth has fallen furthest.
pub fn nearest<M: Measure>(measure: &M, old: &DepthTable, work: &Work) -> Option<u16>
    requires depths { Deep M.Measure old.now.n 128 old.now.rows }
    requires labels { Deep M.Measure old.now.n 128 work.now.rows }
    ensures { Best M.Measure.group (flag work.now.done) (depth M.Measure old.now.rows) (depth M.Measure work.now.rows) old.now.n result }
{
    let mut best: Option<u16> = None;
    for z in 0..old.n() {
        if work.done[z as usize] {
            continue;
        }
        match best {
            Some(y) if leads(measure, old, work, y, z) => {}
            _ => best = Some(z),
        }
    }
    best
}
