//! Whether a goal can match a clause's head, by the tops of their arguments.
ghost use Rattle.std.specs.Prelude.{◌≡◌, true, false, Some};
ghost use Rattle.pp_heap.specs.Soundness.{IsCompound};
ghost use Rattle.pp_row.specs.Reading.{IsForest, forest};
ghost use Rattle.pp_unify.specs.States.{present};
ghost use Rattle.pp_clause.specs.Firsts.{may_be};
ghost use Rattle.pp_goal.specs.Apart.{AreApart, top_by};
ghost use Rattle.pp_goal.specs.Arguments.{IsLent, terms_in};

use pp_clause::GoalAt;
use pp_row::Cell;
use pp_unify::Bindings;

/// Whether no term begins with a cell that is known and with that of a head.
fn are_apart(known: Option<Cell>, head: Cell) -> bool
    ensures { result ≡ true → may_be (top_by known) (top_by (Some head)) ≡ false }
{
    match (known, head) {
        (Some(Cell::Int(a)), Cell::Int(b)) => a != b,
        (Some(Cell::Atom(a)), Cell::Atom(b)) => a != b,
        (Some(Cell::Compound(f, k)), Cell::Compound(g, l)) => f != g || k != l,
        (None, _) | (Some(Cell::Var(_)), _) | (_, Cell::Var(_)) => false,
        _ => true,
    }
}

fn is_compound(cell: Cell) -> bool
    ensures { result ≡ false → IsCompound cell → ⊥ }
{
    match cell {
        Cell::Compound(_, _) => true,
        _ => false,
    }
}

fn is_variable(cell: Cell) -> bool {
    match cell {
        Cell::Var(_) => true,
        _ => false,
    }
}

/// Whether a goal may match a head, by the tops of their arguments up to the first compound; what it answers false
/// for can't. The first argument is left to the index of the clauses. It takes no memory.
pub fn may_match(bindings: &Bindings, goal: &GoalAt<'_>, first: u32, head: &[Cell]) -> bool
    requires lent { IsLent (present bindings.now) goal.now first }
    requires head { IsForest head.now }
    ensures { result ≡ false → AreApart (terms_in (present bindings.now) goal.now first) (forest head.now) }
{
    let cells = goal.arguments;
    for at in 0..cells.len().min(head.len()) {
        if at > 0
            && !is_variable(head[at])
            && are_apart(bindings.first_cell(cells, at, first), head[at])
        {
            return false;
        }
        if is_compound(cells[at]) || is_compound(head[at]) {
            return true;
        }
    }
    true
}
