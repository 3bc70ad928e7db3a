//! A row that shows that what some rows have in common is not the call: it covers them, and does not cover the call.
ghost use Rattle.std.specs.Prelude.{◌≡◌, ◌≤◌, Some, IfOk, IfSome};
ghost use Rattle.std.specs.FinSet as set;
ghost use Rattle.pp_algebra.specs.Terms.{count};
ghost use Rattle.pp_algebra.specs.Rows.{AreWide};
ghost use Rattle.pp_domain.specs.Sets.{set_of};
ghost use Rattle.pp_row.specs.Columns.{sets_of};
ghost use Rattle.pp_find.specs.Common.{IsBound};

use crate::levels::is_small;
use pp_domain::Domain;
use pp_order::covers;
use pp_row::Row;
use std::alloc::{AllocError, Global};

/// The least integer that there is.
const LEAST: i64 = -1_000_000_000_000;

/// The greatest.
const GREATEST: i64 = 1_000_000_000_000;

/// The candidate, where it covers the row and doesn't cover the call.
fn checked(alloc: Global, candidate: Row, row: &Row, call: &Row) -> Result<Option<Row>, AllocError>
    requires width { count row.now.columns ≡ count call.now.columns }
    ensures { IfOk result (λ bound. IfSome bound (IsBound call.now (Some row.now))) }
{
    if candidate.columns().len() != call.columns().len() {
        return Ok(None);
    }
    if !covers(alloc, &candidate, row)? {
        return Ok(None);
    }
    if covers(alloc, &candidate, call)? {
        return Ok(None);
    }
    Ok(Some(candidate))
}

/// The row with these domains in place of its own.
fn with_domains(alloc: Global, row: &Row, domains: &[Option<Domain>]) -> Result<Row, AllocError>
    requires wide { AreWide (sets_of domains.now) }
{
    let mut columns = Vec::with_capacity(alloc, row.columns().len())?;
    for column in row.columns() {
        columns.push(column.copy()?)?;
    }
    Row::canon(alloc, columns, domains)
}

/// The integer in the middle between two, where the domain has it.
fn push_middle(
    values: &mut Vec<i64>,
    low: i64,
    high: i64,
    whole: &Domain,
) -> Result<(), AllocError> {
    if high < low {
        return Ok(());
    }
    let middle = low.saturating_add(high.saturating_sub(low) / 2);
    if whole.has(middle) {
        values.push(middle)?;
    }
    Ok(())
}

/// An integer in the middle of each gap of the first domain, where the second has it.
fn push_middles(values: &mut Vec<i64>, domain: &Domain, whole: &Domain) -> Result<(), AllocError> {
    let (Some(first), Some(last)) = (whole.intervals().first(), whole.intervals().last()) else {
        return Ok(());
    };
    let mut low = first.0;
    for interval in domain.intervals() {
        push_middle(values, low, interval.0.saturating_sub(1), whole)?;
        low = interval.1.saturating_add(1);
    }
    push_middle(values, low, last.1, whole)
}

/// Integers at which an interval of the second domain begins and that the first has not.
fn push_starts(values: &mut Vec<i64>, domain: &Domain, whole: &Domain) -> Result<(), AllocError> {
    for interval in whole.intervals() {
        if !domain.has(interval.0) {
            values.push(interval.0)?;
        }
    }
    Ok(())
}

/// The second domain without one integer that the first has not. It is taken from inside what is missing, and not from
/// its middle, where two sides may meet: so it comes late in most orders.
fn all_but_one(
    alloc: Global,
    domain: &Domain,
    whole: &Domain,
) -> Result<Option<Domain>, AllocError> {
    let mut values = Vec::new(alloc);
    push_middles(&mut values, domain, whole)?;
    push_starts(&mut values, domain, whole)?;
    match values.get(values.len().saturating_mul(5) / 13) {
        Some(value) => whole.without(*value),
        None => Ok(None),
    }
}

/// What the finite domain of a variable stays inside, and a call's domain of it doesn't.
fn limit(
    alloc: Global,
    domain: &Domain,
    whole: Option<&Option<Domain>>,
) -> Result<Option<Domain>, AllocError> {
    match whole {
        Some(Some(whole)) => all_but_one(alloc, domain, whole),
        _ => Domain::range(alloc, LEAST, GREATEST),
    }
}

/// This domain for the variable, and `any` for those before it; nothing where the domain has one integer.
fn domains_at(
    alloc: Global,
    variable: usize,
    domain: Domain,
) -> Result<Vec<Option<Domain>>, AllocError>
    ensures { IfOk result (λ domains. AreWide (sets_of domains.items)) }
{
    let mut domains = Vec::new(alloc);
    if domain.size() < 2 {
        return Ok(domains);
    }
    for _ in 0..variable {
        domains.push(None)?;
    }
    domains.push(Some(domain))?;
    Ok(domains)
}

/// Domains under which the columns of the row cover it and not the call, if the columns of both are the same.
fn limits(alloc: Global, row: &Row, call: &Row) -> Result<Vec<Option<Domain>>, AllocError>
    ensures { IfOk result (λ domains. AreWide (sets_of domains.items)) }
{
    for (variable, domain) in row.domains().iter().enumerate() {
        if let Some(domain) = domain {
            if let Some(limit) = limit(alloc, domain, call.domains().get(variable))? {
                return domains_at(alloc, variable, limit);
            }
        }
    }
    Ok(Vec::new(alloc))
}

/// A row that covers this one and not the call, as general as is easily found. None is looked for where joining this
/// one costs little.
pub(crate) fn bound_of(alloc: Global, row: &Row, call: &Row) -> Result<Option<Row>, AllocError>
    requires width { count row.now.columns ≡ count call.now.columns }
    ensures { IfOk result (λ bound. IfSome bound (IsBound call.now (Some row.now))) }
{
    if is_small(row) {
        return Ok(None);
    }
    let shape = with_domains(alloc, row, &[])?;
    if let Some(bound) = checked(alloc, shape, row, call)? {
        return Ok(Some(bound));
    }
    let domains = limits(alloc, row, call)?;
    let limited = with_domains(alloc, row, domains.as_slice())?;
    checked(alloc, limited, row, call)
}
