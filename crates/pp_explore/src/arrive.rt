//! Where the search of a work begins.
ghost use Rattle.std.specs.Prelude.{◌≡◌, ◌≢◌, IfOk, None};
ghost use Rattle.pp_path.specs.Works.{work_by};
ghost use Rattle.pp_explore.specs.Standing.{StaysOver};
ghost use Rattle.pp_explore.specs.Searching.{Arrives};

use crate::Walker;
use crate::stage::Stage;
use pp_path::Work;
use pp_walk::SearchMachine;
use std::alloc::AllocError;

/// Goes to the beginning of the work, past parts of it that miss; None where nothing is left.
pub(crate) fn arrive<M: SearchMachine>(
    walker: &mut Walker<M>,
    work: &mut Work,
) -> Result<Option<Stage>, AllocError>
    requires open { work.old ≢ None }
    ensures clauses { M.clauses walker.new.machine ≡ M.clauses walker.old.machine }
    ensures stands { StaysOver (M.clauses walker.old.machine) (M.place walker.old.machine) walker.old.path.items
        (M.place walker.new.machine) walker.new.path.items }
    ensures arrives { IfOk result (λ o.
        Arrives (M.clauses walker.old.machine) (M.place walker.old.machine) walker.old.path.items (work_by work.old) o
        (M.place walker.new.machine) walker.new.path.items (work_by work.new)) }
{
    if walker.go_to(work.path())? {
        return Ok(Some(Stage::Enter));
    }
    loop {
        if !work.next() {
            return Ok(None);
        }
        if walker.go_above(work.path())? {
            return Ok(Some(Stage::Try(0)));
        }
    }
}
