//! The lines that the program writes, as bytes.

#![tactic(auto)]

ghost use Rattle.std.specs.Prelude.{length};
ghost use Rattle.depth_text.specs.Lines.{Adds, Named, row_line, contradiction_line, refused_line, name_in};

use measure::Amount;
use std::alloc::AllocError;

/// Adds a marker's line: its name, its depth's millimetres and marks, and its parent's name.
pub fn add_row(
    out: &mut Vec<u8>,
    name: &[u8],
    depth: Amount,
    parent: &[u8],
) -> Result<(), AllocError>
    ensures { Adds out.old.items (row_line name.now depth parent.now) result out.new.items }
{
    let Amount { mm, marks } = depth;
    let numbers = format!(in *out.allocator(); " {mm} {marks} ")?;
    out.extend_from_slice(name)?;
    out.extend_from_slice(numbers.as_bytes())?;
    out.extend_from_slice(parent)?;
    out.extend_from_slice(b"\n")
}

/// Adds the line of a contradiction: the names of the cycle's markers.
pub fn add_contradiction(
    out: &mut Vec<u8>,
    names: &[&[u8]],
    cycle: &[u16],
) -> Result<(), AllocError>
    requires { Named names.now cycle.now (length cycle.now) }
    ensures { Adds out.old.items (contradiction_line (name_in names.now) cycle.now) result out.new.items }
{
    out.extend_from_slice(b"contradiction")?;
    for &marker in cycle {
        out.extend_from_slice(b" ")?;
        out.extend_from_slice(names[marker as usize])?;
    }
    out.extend_from_slice(b"\n")
}

/// Adds the line of a refusal: its code, and the place in the text.
pub fn add_refused(out: &mut Vec<u8>, code: u8, place: u32) -> Result<(), AllocError>
    ensures { Adds out.old.items (refused_line code place) result out.new.items }
{
    let line = format!(in *out.allocator(); "refused {code} {place}\n")?;
    out.extend_from_slice(line.as_bytes())
}
