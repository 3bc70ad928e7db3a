//! Clauses with their variables in order of first occurrence.
ghost use Rattle.std.specs.Prelude.{◌≡◌, [], ◌∷◌, IfOk, map, nat_eq};
ghost use Rattle.std.specs.List.{flat_map};
ghost use Rattle.pp_algebra.specs.Terms.{put};
ghost use Rattle.pp_algebra.specs.Canon.{firsts};
ghost use Rattle.pp_build.specs.Renumbered.{variables_in, goal_variables, placed, put_goal, renumbered};

use indexmap::IndexSet;
use pp_term::{Clause, Goal, Goals, Term, Terms};
use std::alloc::{AllocError, Global};

/// The terms with their variables numbered by their places in `seen`, which takes in those that are new.
fn number_terms(alloc: Global, seen: &mut IndexSet<u32>, terms: Terms) -> Result<Terms, AllocError>
    ensures seen { IfOk result (λ _. seen.new.keys ≡ firsts nat_eq seen.old.keys (variables_in terms)) }
    ensures terms { IfOk result (λ ts. ts ≡ map (put (placed seen.new.keys)) terms) }
{
    let terms = terms.into_vec();
    let mut numbered = Vec::with_capacity(alloc, terms.len())?;
    for term in terms {
        numbered.push(term.numbered(seen)?)?;
    }
    Ok(Terms::from_vec(numbered))
}

/// Both terms, numbered likewise.
fn number_pair(
    seen: &mut IndexSet<u32>,
    left: Term,
    right: Term,
) -> Result<(Term, Term), AllocError>
    ensures seen { IfOk result (λ _. seen.new.keys ≡ firsts nat_eq seen.old.keys (variables_in (left ∷ right ∷ []))) }
    ensures left { IfOk result (λ r. r.0 ≡ put (placed seen.new.keys) left) }
    ensures right { IfOk result (λ r. r.1 ≡ put (placed seen.new.keys) right) }
{
    let left = left.numbered(seen)?;
    Ok((left, right.numbered(seen)?))
}

/// The goal with its variables numbered likewise.
fn number_goal(alloc: Global, seen: &mut IndexSet<u32>, goal: Goal) -> Result<Goal, AllocError>
    ensures seen { IfOk result (λ _. seen.new.keys ≡ firsts nat_eq seen.old.keys (goal_variables goal)) }
    ensures goal { IfOk result (λ g. g ≡ put_goal (placed seen.new.keys) goal) }
{
    match goal {
        Goal::Call(shape, terms) => Ok(Goal::Call(shape, number_terms(alloc, seen, terms)?)),
        Goal::Equate(left, right) => {
            let (left, right) = number_pair(seen, left, right)?;
            Ok(Goal::Equate(left, right))
        }
        Goal::Member(term, domain) => Ok(Goal::Member(term.numbered(seen)?, domain)),
        Goal::Compare(relation, left, right) => {
            let (left, right) = number_pair(seen, left, right)?;
            Ok(Goal::Compare(relation, left, right))
        }
    }
}

/// The goals with their variables numbered likewise.
fn number_goals(alloc: Global, seen: &mut IndexSet<u32>, goals: Goals) -> Result<Goals, AllocError>
    ensures seen { IfOk result (λ _. seen.new.keys ≡ firsts nat_eq seen.old.keys (flat_map goal_variables goals)) }
    ensures goals { IfOk result (λ gs. gs ≡ map (put_goal (placed seen.new.keys)) goals) }
{
    let goals = goals.into_vec();
    let mut numbered = Vec::with_capacity(alloc, goals.len())?;
    for goal in goals {
        numbered.push(number_goal(alloc, seen, goal)?)?;
    }
    Ok(Goals::from_vec(numbered))
}

/// The clause with its variables numbered by first occurrence. The number of a variable that a unifier meets is then
/// never above the number of those that it met before. It is linear in the cells.
pub fn renumbered(alloc: Global, clause: Clause) -> Result<Clause, AllocError>
    ensures { IfOk result (λ c. c ≡ renumbered clause) }
{
    let mut seen = IndexSet::new(alloc);
    let head = number_terms(alloc, &mut seen, clause.head)?;
    let body = number_goals(alloc, &mut seen, clause.body)?;
    Ok(Clause {
        pred: clause.pred,
        head,
        body,
        vars: clause.vars,
    })
}
