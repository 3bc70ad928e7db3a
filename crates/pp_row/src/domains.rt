//! Lists of domains.
ghost use Rattle.std.specs.Prelude.{◌≡◌, ◌↔◌, IsTrue, IfOk, map};
ghost use Rattle.pp_algebra.specs.Rows.{domain_at};
ghost use Rattle.pp_domain.specs.Sets.{set_of};
ghost use Rattle.pp_row.specs.Columns.{set_by, sets_of};

use indexmap::IndexSet;
use pp_domain::Domain;
use std::alloc::{AllocError, Global};

/// A copy of a domain, where there is one.
pub fn copy_domain(domain: &Option<Domain>) -> Result<Option<Domain>, AllocError>
    ensures { IfOk result (λ d. d ≡ domain.now) }
{
    match domain {
        None => Ok(None),
        Some(domain) => Ok(Some(domain.copy()?)),
    }
}

pub(crate) fn copy_domains(
    alloc: Global,
    domains: &[Option<Domain>],
) -> Result<Vec<Option<Domain>>, AllocError>
    ensures { IfOk result (λ ds. ds.items ≡ domains.now) }
{
    let mut copies = Vec::with_capacity(alloc, domains.len())?;
    for domain in domains {
        copies.push(copy_domain(domain)?)?;
    }
    Ok(copies)
}

fn same_members(left: &Domain, right: &Domain) -> bool
    ensures { IsTrue result ↔ (set_of left.now ≡ set_of right.now) }
{
    left.intervals() == right.intervals()
}

fn same_domain(left: &Option<Domain>, right: &Option<Domain>) -> bool
    ensures { IsTrue result ↔ (set_by left.now ≡ set_by right.now) }
{
    match (left, right) {
        (None, None) => true,
        (Some(left), Some(right)) => same_members(left, right),
        _ => false,
    }
}

/// Whether both are the same domains in the same order.
pub(crate) fn same_domains(left: &[Option<Domain>], right: &[Option<Domain>]) -> bool
    ensures { IsTrue result ↔ (sets_of left.now ≡ sets_of right.now) }
{
    if left.len() != right.len() {
        return false;
    }
    for (i, domain) in left.iter().enumerate() {
        if !same_domain(domain, &right[i]) {
            return false;
        }
    }
    true
}

/// A copy of the domain of a variable, which is `any` where it has no place in the list.
pub fn copy_at(domains: &[Option<Domain>], variable: u32) -> Result<Option<Domain>, AllocError>
    ensures { IfOk result (λ d. set_by d ≡ domain_at (sets_of domains.now) variable) }
{
    match domains.get(variable as usize) {
        Some(domain) => copy_domain(domain),
        None => Ok(None),
    }
}

/// The domains of these variables, in order.
pub(crate) fn domains_of(
    alloc: Global,
    names: &IndexSet<u32>,
    domains: &[Option<Domain>],
) -> Result<Vec<Option<Domain>>, AllocError>
    ensures { IfOk result (λ ds. sets_of ds.items ≡ map (domain_at (sets_of domains.now)) names.now.keys) }
{
    let mut list = Vec::with_capacity(alloc, names.len())?;
    for name in names {
        list.push(copy_at(domains, *name)?)?;
    }
    Ok(list)
}
