//! Whether one term covers another, in one walk of their cells.
ghost use Rattle.std.specs.Prelude.{◌≡◌, ◌<◌, ◌≤◌, ◌+◌, ◌↔◌, ◌∷◌, ◌++◌, [], ℕ, true, false, length, All, IfOk, IsTrue};
ghost use Rattle.pp_algebra.specs.Terms.{Tree, variables, more, none};
ghost use Rattle.pp_algebra.specs.Rows.{IsNumbered, domain_at};
ghost use Rattle.pp_algebra.specs.Covers.{MayGo};
ghost use Rattle.pp_row.specs.Columns.{sets_of};
ghost use Rattle.pp_row.specs.Reading.{IsOneTerm, from, tree_of};
ghost use Rattle.pp_order.specs.Bindings.{AreBound, Follows, Takes, terms, term_of};

use crate::reach::may_go;
use pp_domain::Domain;
use pp_row::{Cell, Term, term_from};
use smallvec::SmallVec;
use std::alloc::AllocError;

/// Whether the variable may stand for the term. One that is bound already may only stand for its term, and the
/// next one is bound.
fn bind<'a>(
    bound: &mut SmallVec<&'a [Cell], 16>,
    variable: u32,
    term: &'a [Cell],
    general: &[Option<Domain>],
    special: &[Option<Domain>],
) -> Result<bool, AllocError>
    requires term { IsOneTerm term.now }
    requires next { variable ≤ length bound.old.items }
    requires bound { AreBound (domain_at (sets_of general.now)) (domain_at (sets_of special.now)) bound.old.items }
    ensures bound { IfOk result (λ _. AreBound (domain_at (sets_of general.now)) (domain_at (sets_of special.now)) bound.new.items) }
    ensures old { variable < length bound.old.items → IfOk result (λ b. (bound.new.items ≡ bound.old.items) × (IsTrue b ↔ (tree_of term.now ≡ term_of (terms bound.old.items) variable))) }
    ensures new { variable ≡ length bound.old.items → IfOk result (λ b. (IsTrue b ↔ MayGo (domain_at (sets_of special.now)) (domain_at (sets_of general.now) variable) (tree_of term.now)) × (IsTrue b → bound.new.items ≡ bound.old.items ++ term.entry ∷ [])) }
{
    let place = variable as usize;
    if place < bound.len() {
        return Ok(bound.as_slice()[place] == term);
    }
    let goes = may_go(general, variable, term[0], special);
    if goes {
        bound.push(term)?;
    }
    Ok(goes)
}

/// Whether the general term covers the special one, where its variables stand for the terms that are bound. Its
/// other variables are numbered on from these, and are bound as they come.
pub(crate) fn covers_term<'a>(
    a: &Term,
    b: &'a Term,
    bound: &mut SmallVec<&'a [Cell], 16>,
    general: &[Option<Domain>],
    special: &[Option<Domain>],
) -> Result<bool, AllocError>
    requires numbered { (m : ℕ) × IsNumbered (length bound.old.items) (variables a.now) m }
    requires bound { AreBound (domain_at (sets_of general.now)) (domain_at (sets_of special.now)) bound.old.items }
    ensures bound { IfOk result (λ _. AreBound (domain_at (sets_of general.now)) (domain_at (sets_of special.now)) bound.new.items) }
    ensures numbered { IfOk result (λ c. IsTrue c → (m : ℕ) → IsNumbered (length bound.old.items) (variables a.now) m → length bound.new.items ≡ m) }
    ensures covers { IfOk result (λ c. IsTrue c → (s : ℕ → Tree ℕ) → (Follows s (terms bound.old.items) × Takes (domain_at (sets_of general.now)) (domain_at (sets_of special.now)) s (more a.now none) (more b.now none)) ↔ Follows s (terms bound.new.items)) }
    ensures apart { IfOk result (λ c. c ≡ false → (s : ℕ → Tree ℕ) → Follows s (terms bound.old.items) → Takes (domain_at (sets_of general.now)) (domain_at (sets_of special.now)) s (more a.now none) (more b.now none) → ⊥) }
{
    let left = a.cells();
    let right = b.cells();
    let mut j = 0;
    for i in 0..left.len() {
        if let Cell::Var(variable) = left[i] {
            let term = term_from(right, j);
            if !bind(bound, variable, term, general, special)? {
                return Ok(false);
            }
            j += term.len();
        } else {
            if left[i] != right[j] {
                return Ok(false);
            }
            j += 1;
        }
    }
    Ok(true)
}
