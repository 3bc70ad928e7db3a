//! The domains of the variables that stand for pairs.
ghost use Rattle.std.specs.Prelude.{◌≡◌, ◌∷◌, [], map, All, Some, IfOk};
ghost use Rattle.std.specs.FinSet as set;
ghost use Rattle.pp_algebra.specs.Members.{IsInteger};
ghost use Rattle.pp_algebra.specs.Rows.{domain_at};
ghost use Rattle.pp_algebra.specs.Least.{both, union_of};
ghost use Rattle.pp_row.specs.Columns.{set_by, sets_of};
ghost use Rattle.pp_row.specs.Cells.{IsLegalCell};
ghost use Rattle.pp_lgg.specs.Pairs.{IsPair, name, names};
ghost use Rattle.pp_lgg.specs.Values.{values_at};

use crate::pair::Pair;
use indexmap::IndexSet;
use pp_domain::Domain;
use pp_row::{Cell, copy_at};
use std::alloc::{AllocError, Global};

/// The domain of one integer.
fn single(alloc: Global, value: i64) -> Result<Option<Domain>, AllocError>
    requires { IsInteger value }
    ensures { IfOk result (λ d. set_by d ≡ Some (set.from_list (value ∷ []))) }
{
    Domain::range(alloc, value, value)
}

/// The integers that a term with this first cell may be, and `None` where it may be something else.
fn values(
    alloc: Global,
    cell: Cell,
    domains: &[Option<Domain>],
) -> Result<Option<Domain>, AllocError>
    requires { IsLegalCell cell }
    ensures { IfOk result (λ d. set_by d ≡ values_at (domain_at (sets_of domains.now)) cell) }
{
    match cell {
        Cell::Int(value) => single(alloc, value),
        Cell::Var(variable) => copy_at(domains, variable),
        _ => Ok(None),
    }
}

/// The integers of both, and `None` where one may be something else.
fn union(a: Option<Domain>, b: Option<Domain>) -> Result<Option<Domain>, AllocError>
    ensures { IfOk result (λ d. set_by d ≡ both (set_by a) (set_by b)) }
{
    match (a, b) {
        (Some(a), Some(b)) => Ok(Some(a.union(&b)?)),
        _ => Ok(None),
    }
}

/// The integers that a variable for the pair may be, and `None` where it may be something else.
fn union_at(
    alloc: Global,
    pair: Pair,
    a: &[Option<Domain>],
    b: &[Option<Domain>],
) -> Result<Option<Domain>, AllocError>
    requires { IsPair pair }
    ensures { IfOk result (λ d. set_by d
        ≡ union_of (domain_at (sets_of a.now) ∷ domain_at (sets_of b.now) ∷ []) (name pair.entry)) }
{
    let left = values(alloc, pair.left[0], a)?;
    let right = values(alloc, pair.right[0], b)?;
    union(left, right)
}

/// The domains of the pairs' variables, where the left terms have the domains `a` and the right terms `b`.
pub(crate) fn unions(
    alloc: Global,
    pairs: &IndexSet<Pair>,
    a: &[Option<Domain>],
    b: &[Option<Domain>],
) -> Result<Vec<Option<Domain>>, AllocError>
    requires { All IsPair pairs.now.keys }
    ensures { IfOk result (λ ds. sets_of ds.items
        ≡ map (union_of (domain_at (sets_of a.now) ∷ domain_at (sets_of b.now) ∷ [])) (names pairs.now.keys)) }
{
    let mut domains = Vec::with_capacity(alloc, pairs.len())?;
    for pair in pairs {
        domains.push(union_at(alloc, *pair, a, b)?)?;
    }
    Ok(domains)
}
