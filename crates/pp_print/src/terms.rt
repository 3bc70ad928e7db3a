//! Terms.
ghost use Rattle.std.specs.Prelude.{◌≡◌, ◌++◌, ℕ, List, IfOk, OnOk};
ghost use Rattle.pp_algebra.specs.Terms.{Trees};
ghost use Rattle.pp_language.specs.Texts.{Text};
ghost use Rattle.pp_language.specs.Printing.{term_text};
ghost use Rattle.pp_print.specs.Left.{cell_text, behind, text_left};

use crate::atoms::write_name;
use crate::numbers::{write_integer, write_variable};
use pp_term::{Cell, Names, Term};
use std::alloc::{AllocError, Global};

/// Appends what a cell writes before its arguments.
fn write_cell(out: &mut Vec<u8>, names: &Names, cell: Cell) -> Result<(), AllocError>
    ensures { OnOk result (out.new.items ≡ out.old.items ++ cell_text names.now cell) }
{
    match cell {
        Cell::Int(value) => write_integer(out, value)?,
        Cell::Atom(name) => write_name(out, names, name)?,
        Cell::Var(variable) => write_variable(out, u64::from(variable))?,
        Cell::Compound(name, _) => {
            write_name(out, names, name)?;
            out.push(b'(')?;
        }
    }
    Ok(())
}

/// Appends what follows a complete term: a comma where its compound has more arguments, else the parenthesis that
/// closes the compound, and what follows that one.
fn write_behind(out: &mut Vec<u8>, unclosed: &mut Vec<u32>) -> Result<(), AllocError>
    ensures { OnOk result ((names : List Text) (ts : Trees ℕ) →
        out.new.items ++ text_left names unclosed.new.items ts ≡ out.old.items ++ behind names unclosed.old.items ts) }
{
    while let Some(arguments) = unclosed.pop() {
        if arguments > 1 {
            unclosed.push(arguments - 1)?;
            out.push(b',')?;
            return Ok(());
        }
        out.push(b')')?;
    }
    Ok(())
}

/// Appends a term. `unclosed` has for each compound that is not closed yet how many of its arguments are not complete.
pub(crate) fn write_term(out: &mut Vec<u8>, names: &Names, term: &Term) -> Result<(), AllocError>
    ensures { OnOk result (out.new.items ≡ out.old.items ++ term_text names.now term.now) }
{
    let mut unclosed = Vec::new(*out.allocator());
    for cell in term.cells() {
        write_cell(out, names, *cell)?;
        let arity = cell.arity();
        if arity == 0 {
            write_behind(out, &mut unclosed)?;
        } else {
            unclosed.push(arity)?;
        }
    }
    Ok(())
}

/// A term as text. A number that no name has is written as the empty atom.
pub fn term_text(alloc: Global, names: &Names, term: &Term) -> Result<Vec<u8>, AllocError>
    ensures { IfOk result (λ t. t.items ≡ term_text names.now term.now) }
{
    let mut out = Vec::new(alloc);
    write_term(&mut out, names, term)?;
    Ok(out)
}
