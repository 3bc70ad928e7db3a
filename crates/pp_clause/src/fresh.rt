//! Clauses with the numbers of their variables counted from another one.
ghost use Rattle.std.specs.Prelude.{◌≡◌, ◌+◌, ◌<◌, ◌^◌, ℕ, map, All, IfOk};
ghost use Rattle.pp_algebra.specs.Numbered.{counted_from};
ghost use Rattle.pp_term.specs.WellFormed.{AreBelow, IsGoal, IsClause};
ghost use Rattle.pp_clause.specs.Places.{counted_goal, counted_clause};

use pp_row::{Term, Terms, copy_domain};
use pp_term::{Clause, Goal, Goals};
use std::alloc::{AllocError, Global};

/// Terms over fewer than `vars` variables, counted from `from`.
fn fresh_terms(alloc: Global, terms: &[Term], from: u32, vars: u32) -> Result<Terms, AllocError>
    requires fits { from + vars < 2 ^ 32 }
    requires below { AreBelow vars terms.now }
    ensures { IfOk result (λ ts. ts ≡ map (counted_from from) terms.now) }
{
    let mut fresh = Vec::with_capacity(alloc, terms.len())?;
    for term in terms {
        fresh.push(term.shifted(from)?)?;
    }
    Ok(Terms::from_vec(fresh))
}

/// A goal over fewer than `vars` variables, counted from `from`.
fn fresh_goal(alloc: Global, goal: &Goal, from: u32, vars: u32) -> Result<Goal, AllocError>
    requires fits { from + vars < 2 ^ 32 }
    requires goal { IsGoal vars goal.now }
    ensures { IfOk result (λ g. g ≡ counted_goal from goal.now) }
{
    match goal {
        Goal::Call(shape, arguments) => Ok(Goal::Call(
            *shape,
            fresh_terms(alloc, arguments.as_slice(), from, vars)?,
        )),
        Goal::Equate(left, right) => { Ok(Goal::Equate(left.shifted(from)?, right.shifted(from)?)) }
        Goal::Member(term, domain) => Ok(Goal::Member(term.shifted(from)?, copy_domain(domain)?)),
        Goal::Compare(relation, left, right) => Ok(Goal::Compare(
            *relation,
            left.shifted(from)?,
            right.shifted(from)?,
        )),
    }
}

/// Goals over fewer than `vars` variables, counted from `from`.
fn fresh_goals(alloc: Global, goals: &[Goal], from: u32, vars: u32) -> Result<Goals, AllocError>
    requires fits { from + vars < 2 ^ 32 }
    requires goals { All (IsGoal vars) goals.now }
    ensures { IfOk result (λ gs. gs ≡ map (counted_goal from) goals.now) }
{
    let mut fresh = Vec::with_capacity(alloc, goals.len())?;
    for goal in goals {
        fresh.push(fresh_goal(alloc, goal, from, vars)?)?;
    }
    Ok(Goals::from_vec(fresh))
}

/// A clause with the numbers of its variables counted from `from`.
pub(crate) fn fresh_clause(alloc: Global, clause: &Clause, from: u32) -> Result<Clause, AllocError>
    requires fits { from + clause.now.vars < 2 ^ 32 }
    requires clause { IsClause clause.now }
    ensures { IfOk result (λ c. c ≡ counted_clause from clause.now) }
{
    let vars = clause.vars;
    Ok(Clause {
        pred: clause.pred,
        head: fresh_terms(alloc, clause.head.as_slice(), from, vars)?,
        body: fresh_goals(alloc, clause.body.as_slice(), from, vars)?,
        vars: from + vars,
    })
}
