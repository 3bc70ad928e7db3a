// The summary of a run: how it ended, its turns, and what is known of the variables.
ghost use Rattle.std.specs.Prelude.{◌≡◌, ◌++◌, IfOk, IfSome, OnOk, decimal};
ghost use Rattle.pp_language.specs.Answers.{line, lines};
ghost use Rattle.pp_language.specs.Told.{bound_columns, sum_of_sizes, summary_lines};
ghost use Rattle.pp_propagation.specs.Replies.{status_of, summary_by};
ghost use Rattle.pp_row.specs.Columns.{trees_of, sets_of};
ghost use Rattle.pp_fix.specs.Fixing.{end_by};
ghost use Rattle.pp_run.specs.Summing.{bound_of};

use crate::answer::status_of;
use crate::reply::Reply;
use crate::run::Ran;
use itoa::Buffer;
use pp_domain::Domain;
use pp_fix::End;
use pp_term::{Cell, Term};
use std::alloc::{AllocError, Global};

/// 1 for a term that is no variable, and 0 for a variable.
fn bound_of(term: &Term) -> u128
    ensures { result ≡ bound_of term.now }
{
    match term.cells() {
        [Cell::Var(_), ..] => 0,
        _ => 1,
    }
}

/// How many terms are no variable.
fn bound_columns(columns: &[Term]) -> Option<u128>
    ensures { IfSome result (λ n. n ≡ bound_columns (trees_of columns.now)) }
{
    let mut bound: u128 = 0;
    for column in columns {
        bound = bound.checked_add(bound_of(column))?;
    }
    Some(bound)
}

/// The sizes of the finite domains, in sum.
fn sum_of_sizes(domains: &[Option<Domain>]) -> Option<u128>
    ensures { IfSome result (λ n. n ≡ sum_of_sizes (sets_of domains.now)) }
{
    let mut sum: u128 = 0;
    for domain in domains {
        if let Some(domain) = domain {
            sum = sum.checked_add(u128::from(domain.size()))?;
        }
    }
    Some(sum)
}

/// Appends a line of a name and a number.
fn push_count(out: &mut Vec<u8>, name: &[u8], count: u128) -> Result<(), AllocError>
    ensures { OnOk result (out.new.items ≡ out.old.items ++ line (name.now ++ decimal count)) }
{
    let mut digits = Buffer::new();
    out.extend_from_slice(name)?;
    out.extend_from_slice(digits.format(count).as_bytes())?;
    out.push(b'\n')?;
    Ok(())
}

/// The lines of a summary.
fn summary_lines(
    alloc: Global,
    verdict: &[u8],
    turns: u128,
    bound: u128,
    sizes: u128,
) -> Result<Vec<u8>, AllocError>
    ensures { IfOk result (λ bytes. bytes.items ≡ lines (summary_lines verdict.now turns bound sizes)) }
{
    let mut out = Vec::from_slice(alloc, b"verdict ")?;
    out.extend_from_slice(verdict)?;
    out.push(b'\n')?;
    push_count(&mut out, b"turns ", turns)?;
    push_count(&mut out, b"bound ", bound)?;
    push_count(&mut out, b"sizes ", sizes)?;
    Ok(out)
}

/// The summary of a run. A run that failed knows nothing.
pub(crate) fn summary(alloc: Global, ran: &Ran) -> Result<Reply, AllocError>
    ensures status { IfOk result (λ r. r.status ≡ status_of (end_by ran.now.fixed.end)) }
    ensures text { IfOk result (λ r. r.bytes.items
        ≡ summary_by ran.now.fixed.turns ran.now.row (end_by ran.now.fixed.end)) }
{
    let turns = u128::from(ran.fixed.turns);
    let bound = bound_columns(ran.row.columns()).ok_or(AllocError)?;
    let sizes = sum_of_sizes(ran.row.domains()).ok_or(AllocError)?;
    let bytes = match ran.fixed.end {
        End::No => summary_lines(alloc, b"no", turns, 0, 0),
        End::Yes => summary_lines(alloc, b"yes", turns, bound, sizes),
        End::Stopped => summary_lines(alloc, b"stopped", turns, bound, sizes),
    }?;
    Ok(Reply {
        status: status_of(ran.fixed.end),
        bytes,
    })
}
