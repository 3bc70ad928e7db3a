//! Where a variable may go.
ghost use Rattle.std.specs.Prelude.{◌≡◌, ◌↔◌, IsTrue, MatchOption, Some, None};
ghost use Rattle.pp_algebra.specs.Covers.{IsWithin};
ghost use Rattle.pp_algebra.specs.Rows.{domain_at};
ghost use Rattle.pp_domain.specs.Sets.{set_of};
ghost use Rattle.pp_row.specs.Columns.{sets_of};
ghost use Rattle.pp_order.specs.Reach.{Reaches};

use pp_domain::Domain;
use pp_row::Cell;

/// The finite domain of a variable, where it has one.
pub fn domain_of(domains: &[Option<Domain>], variable: u32) -> Option<&Domain>
    ensures { MatchOption result (domain_at (sets_of domains.now) variable ≡ None) (λ d. domain_at (sets_of domains.now) variable ≡ Some (set_of d.now)) }
{
    match domains.get(variable as usize) {
        Some(domain) => domain.as_ref(),
        None => None,
    }
}

/// Whether the variable has a finite domain that lies inside this one.
fn is_within(domain: &Domain, domains: &[Option<Domain>], variable: u32) -> bool
    ensures { IsTrue result ↔ IsWithin (set_of domain.now) (domain_at (sets_of domains.now) variable) }
{
    match domain_of(domains, variable) {
        Some(other) => other.inside(domain),
        None => false,
    }
}

/// Whether a variable of this domain may go to a term with this first cell, whose variables have `domains`.
fn reaches(domain: &Domain, cell: Cell, domains: &[Option<Domain>]) -> bool
    ensures { IsTrue result ↔ Reaches (domain_at (sets_of domains.now)) (Some (set_of domain.now)) cell }
{
    match cell {
        Cell::Int(value) => domain.has(value),
        Cell::Var(variable) => is_within(domain, domains, variable),
        _ => false,
    }
}

/// Whether a variable of the general row may go to a term of the special row with this first cell.
pub(crate) fn may_go(
    general: &[Option<Domain>],
    variable: u32,
    cell: Cell,
    special: &[Option<Domain>],
) -> bool
    ensures { IsTrue result ↔ Reaches (domain_at (sets_of special.now)) (domain_at (sets_of general.now) variable) cell }
{
    match domain_of(general, variable) {
        Some(domain) => reaches(domain, cell, special),
        None => true,
    }
}
