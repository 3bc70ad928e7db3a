//! The line of a change.
ghost use Rattle.std.specs.Prelude.{◌≡◌, ◌++◌, OnOk};
ghost use Rattle.pp_language.specs.Answers.{line};
ghost use Rattle.pp_language.specs.Told.{change_line};

use crate::numbers::write_natural;
use crate::rows::write_row;
use pp_term::{Names, Row};
use std::alloc::AllocError;

/// Appends the line of a change: in this turn this goal was narrowed to this row.
pub fn write_change_line(
    out: &mut Vec<u8>,
    names: &Names,
    turn: u64,
    goal: u32,
    given: &Row,
) -> Result<(), AllocError>
    ensures { OnOk result (out.new.items ≡ out.old.items ++ line (change_line names.now turn goal given.now)) }
{
    out.extend_from_slice(b"turn ")?;
    write_natural(out, turn)?;
    out.extend_from_slice(b" goal ")?;
    write_natural(out, u64::from(goal))?;
    out.extend_from_slice(b": ")?;
    write_row(out, names, given)?;
    out.push(b'\n')?;
    Ok(())
}
