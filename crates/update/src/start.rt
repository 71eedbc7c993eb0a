ghost use Rattle.std.specs.Prelude.{◌<◌, true};
ghost use Rattle.table.specs.Climb.{up as parents_of};
ghost use Rattle.update.specs.Reading.{flag};
ghost use Rattle.update.specs.Lowering.{Ancestors};

use table::DepthTable;

// Marks m and its ancestors.
pub fn ancestors(old: &DepthTable, m: u16) -> [bool; 64]
    requires { m < old.now.n }
    ensures { Ancestors (parents_of old.now.rows) m (flag result) }
{
    let mut up = [false; 64];
    let mut here = m;
    while here != 0 {
        up[here as usize] = true;
        here = old.parent(here);
    }
    up[0] = true;
    up
}
