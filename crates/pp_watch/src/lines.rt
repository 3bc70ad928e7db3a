//! Changes as text.
ghost use Rattle.std.specs.Prelude.{◌≡◌, IfOk, map};
ghost use Rattle.pp_language.specs.Answers.{lines};
ghost use Rattle.pp_language.specs.Told.{change_line};
ghost use Rattle.pp_watch.specs.Watching.{change_by};
ghost use Rattle.pp_propagation.specs.Histories.{Change as Told};

use crate::change::Change;
use pp_print::write_change_line;
use pp_term::Names;
use std::alloc::{AllocError, Global};

/// A line for each change.
pub(crate) fn lines_of(
    alloc: Global,
    names: &Names,
    changes: &[Change],
) -> Result<Vec<u8>, AllocError>
    ensures { IfOk result (λ bytes. bytes.items
        ≡ lines (map (λ (c : Told). change_line names.now c.turn c.goal c.given) (map change_by changes.now))) }
{
    let mut out = Vec::new(alloc);
    for change in changes {
        write_change_line(&mut out, names, change.turn, change.goal, &change.given)?;
    }
    Ok(out)
}
