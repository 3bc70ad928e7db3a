//! The answer of a run that does not fail.
ghost use Rattle.std.specs.Prelude.{◌≡◌, ◌++◌, IfOk, OnOk, map, codes, length};
ghost use Rattle.pp_language.specs.Printing.{name_at, term_text};
ghost use Rattle.pp_language.specs.Answers.{line, lines, last_line, named_lines, domain_lines, first_columns, unfinished_line, store_text};
ghost use Rattle.pp_print.specs.Marks.{marked_lines};
ghost use Rattle.pp_row.specs.Columns.{trees_of, sets_of};

use crate::atoms::name_text;
use crate::domains::write_ranged;
use crate::numbers::write_natural;
use crate::occurring::occurring;
use crate::terms::write_term;
use pp_domain::Domain;
use pp_term::{Names, Query, Row, Term};
use std::alloc::{AllocError, Global};

/// Appends the line of a named variable.
fn write_named_line(
    out: &mut Vec<u8>,
    names: &Names,
    name: u32,
    term: &Term,
) -> Result<(), AllocError>
    ensures { OnOk result (out.new.items
        ≡ out.old.items ++ line (name_at names.now name ++ codes " = " ++ term_text names.now term.now)) }
{
    out.extend_from_slice(name_text(names, name))?;
    out.extend_from_slice(b" = ")?;
    write_term(out, names, term)?;
    out.push(b'\n')?;
    Ok(())
}

/// Appends a line for each named variable, with the term in its column.
fn write_named(
    out: &mut Vec<u8>,
    names: &Names,
    named: &[u32],
    columns: &[Term],
) -> Result<(), AllocError>
    ensures { OnOk result (out.new.items
        ≡ out.old.items ++ lines (named_lines names.now (map (name_at names.now) named.now) (trees_of columns.now))) }
{
    for (name, column) in named.iter().zip(columns) {
        write_named_line(out, names, *name, column)?;
    }
    Ok(())
}

/// Appends a line for each marked variable that has a finite domain.
fn write_marked(
    out: &mut Vec<u8>,
    marks: &[bool],
    domains: &[Option<Domain>],
) -> Result<(), AllocError>
    requires { length marks.now ≡ length domains.now }
    ensures { OnOk result (out.new.items ≡ out.old.items ++ lines (marked_lines marks.now 0 (sets_of domains.now))) }
{
    for (variable, domain) in domains.iter().enumerate() {
        match domain {
            Some(domain) if marks[variable] => {
                write_ranged(out, variable as u64, domain)?;
                out.push(b'\n')?;
            }
            _ => {}
        }
    }
    Ok(())
}

/// The first columns, so many or all.
fn first_columns(columns: &[Term], count: usize) -> &[Term]
    ensures { trees_of result.now ≡ first_columns count (trees_of columns.now) }
{
    &columns[..count.min(columns.len())]
}

/// Appends a line for each variable that occurs in the first columns and has a finite domain.
fn write_domains(out: &mut Vec<u8>, store: &Row, count: usize) -> Result<(), AllocError>
    ensures { OnOk result (out.new.items
        ≡ out.old.items ++ lines (domain_lines (first_columns count store.now.columns) 0 store.now.domains)) }
{
    let domains = store.domains();
    let columns = first_columns(store.columns(), count);
    let marks = occurring(*out.allocator(), columns, domains.len())?;
    write_marked(out, &marks, domains)
}

/// Appends the line of an unfinished goal.
fn write_unfinished_line(out: &mut Vec<u8>, goal: u32) -> Result<(), AllocError>
    ensures { OnOk result (out.new.items ≡ out.old.items ++ line (unfinished_line goal)) }
{
    out.extend_from_slice(b"unfinished ")?;
    write_natural(out, u64::from(goal))?;
    out.push(b'\n')?;
    Ok(())
}

/// Appends a line for each unfinished goal.
fn write_unfinished(out: &mut Vec<u8>, unfinished: &[u32]) -> Result<(), AllocError>
    ensures { OnOk result (out.new.items ≡ out.old.items ++ lines (map unfinished_line unfinished.now)) }
{
    for goal in unfinished {
        write_unfinished_line(out, *goal)?;
    }
    Ok(())
}

/// How a run ended that did not fail.
fn last_line(stopped: bool) -> &'static [u8]
    ensures { result.now ≡ line (last_line stopped) }
{
    if stopped { b"stopped\n" } else { b"yes\n" }
}

/// The answer of a run that did not fail: the named variables with their terms, the finite domains of the variables
/// that occur there, the unfinished goals by their numbers, and how the run ended.
pub fn store_text(
    alloc: Global,
    names: &Names,
    query: &Query,
    store: &Row,
    unfinished: &[u32],
    stopped: bool,
) -> Result<Vec<u8>, AllocError>
    ensures { IfOk result (λ t. t.items
        ≡ store_text names.now (map (name_at names.now) query.now.named) store.now unfinished.now stopped) }
{
    let named = query.named.as_slice();
    let mut out = Vec::new(alloc);
    write_named(&mut out, names, named, store.columns())?;
    write_domains(&mut out, store, named.len())?;
    write_unfinished(&mut out, unfinished)?;
    out.extend_from_slice(last_line(stopped))?;
    Ok(out)
}
