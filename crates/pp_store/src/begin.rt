//! Solving a query's equations and domain items, wherever they stand.
ghost use Rattle.std.specs.Prelude.{◌≡◌, ◌∷◌, [], All, IfOk, map};
ghost use Rattle.pp_algebra.specs.Terms.{count};
ghost use Rattle.pp_domain.specs.Sets.{set_of};
ghost use Rattle.pp_algebra.specs.Solve.{membership};
ghost use Rattle.pp_propagation.specs.Stores.{items_of};
ghost use Rattle.pp_row.specs.Cells.{IsLegalCell};
ghost use Rattle.pp_term.specs.Meanings.{members_by};
ghost use Rattle.pp_term.specs.WellFormed.{IsItem};
ghost use Rattle.pp_unify.specs.States.{present, in_place, IsOver, IsSolvedBy};
ghost use Rattle.pp_unify.specs.Forests.{AreDecided};
ghost use Rattle.pp_store.specs.Deciding.{top_of};
ghost use Rattle.pp_query.specs.Meanings.{item_of};

use pp_domain::Domain;
use pp_term::{Cell, Item, Term};
use pp_unify::Bindings;
use std::alloc::AllocError;

/// The first cell of a term.
pub(crate) fn top(term: &Term) -> Cell
    ensures top { result ≡ top_of term.now }
    ensures legal { IsLegalCell result }
{
    term.cells()[0]
}

/// Puts a term into a domain, and answers false where nothing does.
fn narrow_term(bindings: &mut Bindings, term: &Term, domain: &Domain) -> Result<bool, AllocError>
    requires over { IsOver (present bindings.old) term.now }
    ensures solved { IfOk result (λ b.
        IsSolvedBy (present bindings.old) (membership (in_place (present bindings.old) term.now) (set_of domain.now)) b
        (present bindings.new)) }
{
    match top(term) {
        Cell::Var(variable) => bindings.narrow(variable, domain),
        Cell::Int(value) => {
            // The row says that it is one.
            let _variables = bindings.len();
            Ok(domain.has(value))
        }
        Cell::Atom(_) | Cell::Compound(_, _) => Ok(false),
    }
}

/// The same of any domain, where `None` is the empty set.
fn narrow_to(
    bindings: &mut Bindings,
    term: &Term,
    domain: &Option<Domain>,
) -> Result<bool, AllocError>
    requires over { IsOver (present bindings.old) term.now }
    ensures solved { IfOk result (λ b.
        IsSolvedBy (present bindings.old)
        (membership (in_place (present bindings.old) term.now) (members_by domain.now)) b (present bindings.new)) }
{
    match domain {
        Some(domain) => narrow_term(bindings, term, domain),
        None => Ok(false),
    }
}

/// Solves an item that is an equation or a domain item, and answers false where nothing does.
fn solve_item(bindings: &mut Bindings, item: &Item) -> Result<bool, AllocError>
    requires item { IsItem (count (present bindings.old).columns) item.now }
    ensures decided { IfOk result (λ b.
        AreDecided (present bindings.old) (items_of (item_of item.now ∷ [])) b (present bindings.new)) }
{
    match item {
        Item::Equate(left, right) => bindings.unify(left, right),
        Item::Member(term, domain) => narrow_to(bindings, term, domain),
        Item::Infer(..) => Ok(true),
    }
}

/// The same of several items, one after another.
pub(crate) fn solve_items(bindings: &mut Bindings, items: &[Item]) -> Result<bool, AllocError>
    requires items { All (IsItem (count (present bindings.old).columns)) items.now }
    ensures decided { IfOk result (λ b.
        AreDecided (present bindings.old) (items_of (map item_of items.now)) b (present bindings.new)) }
{
    for item in items {
        if !solve_item(bindings, item)? {
            return Ok(false);
        }
    }
    Ok(true)
}
