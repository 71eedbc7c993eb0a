//! What an opened solver tells, as lines.

ghost use Rattle.std.specs.Prelude.{◌≡◌, ◌<◌, ◌≤◌, false, [], length, slice_index_or};
ghost use Rattle.depth_text.specs.Lines.{Adds, rows_text};
ghost use Rattle.law.specs.Refusals.{cycle_length, is_new};
ghost use Rattle.sheet_text.specs.Naming.{names_of};
ghost use Rattle.solver.specs.Model.{model};
ghost use Rattle.report.specs.Refusing.{Front, refusal_text};
ghost use Rattle.report.specs.Told.{AddsTold};

use depth_text::{add_contradiction, add_refused, add_row};
use law::Refusal;
use measure::{Amount, Measure};
use sheet_text::names::Names;
use solver::Solver;
use std::alloc::AllocError;
use store::TieStore;

// Adds a line for each of the first `n` markers.
fn add_rows<S: TieStore, M: Measure>(
    out: &mut Vec<u8>,
    names: &Names<'_>,
    solver: &Solver<S, M>,
    n: u16,
) -> Result<(), AllocError>
    requires opened { is_new (model S.TieStore solver.now).standing.state ≡ false }
    requires known { n ≤ (model S.TieStore solver.now).standing.count }
    ensures { Adds out.old.items (rows_text (λ m. slice_index_or (names_of names.now) m []) (model S.TieStore solver.now).depth (model S.TieStore solver.now).parent n) result out.new.items }
{
    for m in 0..n {
        let Ok(row) = solver.depth(m) else {
            // the solver is open, and m is one of its markers
            unreachable()
        };
        add_row(out, names.name(m), row.depth, names.name(row.parent))?;
    }
    Ok(())
}

// Adds the line of a refusal, or of a contradiction, whose cycle stands at the front of `cycle`.
fn add_refusal(
    out: &mut Vec<u8>,
    names: &Names<'_>,
    why: Refusal,
    cycle: &[u16; 64],
) -> Result<(), AllocError>
    requires { Front (cycle_length why) cycle.now (length (names_of names.now)) }
    ensures { Adds out.old.items (refusal_text (λ m. slice_index_or (names_of names.now) m []) why cycle.now) result out.new.items }
{
    match why.cycle_length() {
        Some(length) => add_contradiction(out, names.as_slice(), &cycle[0..length as usize]),
        None => add_refused(out, why.code(), 0),
    }
}

// Opens a solver over the store, and adds what it tells, with a buffer for the cycle of a contradiction.
fn add_opened<S: TieStore + Drop, M: Measure + Drop>(
    out: &mut Vec<u8>,
    names: &Names<'_>,
    store: S,
    measure: M,
    total_depth: Amount,
    cycle: &mut [u16; 64],
) -> Result<bool, AllocError>
    requires { length (names_of names.now) ≡ (S.TieStore.meaning store).count }
    ensures { AddsTold M.Measure total_depth (S.TieStore.meaning store) (λ m. slice_index_or (names_of names.now) m []) out.old.items out.new.items result }
{
    let mut solver = Solver::new(store, measure, total_depth, 0);
    match solver.open(cycle) {
        Ok(n) => {
            add_rows(out, names, &solver, n)?;
            Ok(true)
        }
        Err(why) => {
            add_refusal(out, names, why, cycle)?;
            Ok(false)
        }
    }
}

/// Opens a solver over the store, and adds what it tells: the rows, the contradiction, or the refusal. Answers whether there
/// are depths.
pub fn add_answer<S: TieStore + Drop, M: Measure + Drop>(
    out: &mut Vec<u8>,
    names: &Names<'_>,
    store: S,
    measure: M,
    total_depth: Amount,
) -> Result<bool, AllocError>
    requires { length (names_of names.now) ≡ (S.TieStore.meaning store).count }
    ensures { AddsTold M.Measure total_depth (S.TieStore.meaning store) (λ m. slice_index_or (names_of names.now) m []) out.old.items out.new.items result }
{
    let mut cycle = [0u16; 64];
    add_opened(out, names, store, measure, total_depth, &mut cycle)
}
