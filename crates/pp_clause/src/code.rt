//! Heads and bodies as cells in one array.
ghost use Rattle.std.specs.Prelude.{◌≡◌, ◌≤◌, ◌-◌, ◌++◌, ◌∷◌, [], length, take, drop, map, All, IfOk, OnOk};
ghost use Rattle.std.specs.List.{flat_map};
ghost use Rattle.pp_algebra.specs.Canon.{firsts};
ghost use Rattle.pp_row.specs.Cells.{IsLegalCell, cells_of_all};
ghost use Rattle.pp_row.specs.Columns.{trees_of};
ghost use Rattle.pp_term.specs.Meanings.{goal_of, test_of};
ghost use Rattle.pp_tests.specs.Decisions.{test_of as built_in};
ghost use Rattle.pp_clause.specs.Firsts.{first_of};
ghost use Rattle.pp_clause.specs.Predicates.{same_pred, called, mentioned};
ghost use Rattle.pp_clause.specs.Table.{pred_of, IsGrown, IsNumber, IsCodeOf, IsCodedGoal, AreCodedGoals, IsCoded, top_by};

use crate::First;
use indexmap::IndexSet;
use pp_row::{Cell, Term};
use pp_term::{Clause, Goal, Pred, Relation, Shape};
use pp_tests::Test;
use std::alloc::AllocError;

/// A predicate as a key: its name and its number of arguments.
pub(crate) type Key = (u32, u32);

/// What a goal asks. The set of a membership stands in the clause.
#[derive(Clone, Copy, Debug)]
pub(crate) enum Code {
    User(u32),
    Equate,
    Member,
    Test(Test),
}

/// Where terms stand among the cells.
#[derive(Clone, Copy, Debug)]
pub(crate) struct Span {
    pub(crate) start: usize,
    pub(crate) end: usize,
}

/// A goal of a body.
#[derive(Clone, Copy, Debug)]
pub(crate) struct CodedGoal {
    pub(crate) code: Code,
    pub(crate) span: Span,
}

/// A clause.
#[derive(Debug, Drop)]
pub(crate) struct Coded {
    pub(crate) predicate: u32,
    pub(crate) variables: u32,
    pub(crate) count: u32,
    pub(crate) head: Span,
    pub(crate) body: Vec<CodedGoal>,
}

/// The number of a predicate, which is the next one where it is new.
pub(crate) fn number(predicates: &mut IndexSet<Key>, pred: Pred) -> Result<u32, AllocError>
    ensures predicates { OnOk result (map pred_of predicates.new.keys ≡ firsts same_pred (map pred_of predicates.old.keys) (pred ∷ [])) }
    ensures number { IfOk result (λ n. IsNumber (map pred_of predicates.new.keys) n pred) }
    ensures grown { IsGrown (map pred_of predicates.old.keys) (map pred_of predicates.new.keys) }
{
    let (place, _) = predicates.insert_full((pred.name, pred.arity))?;
    let number = u32::try_from(place).map_err(|_| AllocError)?;
    Ok(number)
}

/// Appends the cells of terms.
fn push_terms(cells: &mut Vec<Cell>, terms: &[Term]) -> Result<(), AllocError>
    ensures cells { OnOk result (cells.new.items ≡ cells.old.items ++ cells_of_all (trees_of terms.now)) }
    ensures legal { OnOk result (All IsLegalCell (cells_of_all (trees_of terms.now))) }
    ensures grown { IsGrown cells.old.items cells.new.items }
{
    for term in terms {
        cells.extend_from_slice(term.cells())?;
    }
    Ok(())
}

/// Appends the cells of two terms.
fn push_both(cells: &mut Vec<Cell>, left: &Term, right: &Term) -> Result<(), AllocError>
    ensures cells { OnOk result (cells.new.items ≡ cells.old.items ++ cells_of_all (trees_of (left.now ∷ right.now ∷ []))) }
    ensures legal { OnOk result (All IsLegalCell (cells_of_all (trees_of (left.now ∷ right.now ∷ [])))) }
    ensures grown { IsGrown cells.old.items cells.new.items }
{
    cells.extend_from_slice(left.cells())?;
    cells.extend_from_slice(right.cells())?;
    Ok(())
}

/// Appends the cells of one term.
fn push_one(cells: &mut Vec<Cell>, term: &Term) -> Result<(), AllocError>
    ensures cells { OnOk result (cells.new.items ≡ cells.old.items ++ cells_of_all (trees_of (term.now ∷ []))) }
    ensures legal { OnOk result (All IsLegalCell (cells_of_all (trees_of (term.now ∷ [])))) }
    ensures grown { IsGrown cells.old.items cells.new.items }
{
    cells.extend_from_slice(term.cells())?;
    Ok(())
}

/// Appends the cells of a goal's arguments.
fn push_arguments(cells: &mut Vec<Cell>, goal: &Goal) -> Result<(), AllocError>
    ensures cells { OnOk result (cells.new.items ≡ cells.old.items ++ cells_of_all (goal_of goal.now).arguments) }
    ensures legal { OnOk result (All IsLegalCell (cells_of_all (goal_of goal.now).arguments)) }
    ensures grown { IsGrown cells.old.items cells.new.items }
{
    match goal {
        Goal::Call(_, arguments) => push_terms(cells, arguments.as_slice()),
        Goal::Equate(left, right) => push_both(cells, left, right),
        Goal::Member(term, _) => push_one(cells, term),
        Goal::Compare(_, left, right) => push_both(cells, left, right),
    }
}

/// The built-in of a comparison.
fn test(relation: Relation) -> Test
    ensures { built_in result ≡ test_of relation }
{
    match relation {
        Relation::Less => Test::Less,
        Relation::AtMost => Test::AtMost,
        Relation::Equal => Test::Equal,
        Relation::Differ => Test::Differ,
    }
}

/// What a goal asks. Its predicate is taken in where it is new.
fn code_of(predicates: &mut IndexSet<Key>, goal: &Goal) -> Result<Code, AllocError>
    ensures predicates { OnOk result (map pred_of predicates.new.keys ≡ firsts same_pred (map pred_of predicates.old.keys) (called goal.now)) }
    ensures code { IfOk result (λ c. IsCodeOf (map pred_of predicates.new.keys) c (goal_of goal.now).shape) }
    ensures grown { IsGrown (map pred_of predicates.old.keys) (map pred_of predicates.new.keys) }
{
    match goal {
        Goal::Call(Shape::User(pred), _) => Ok(Code::User(number(predicates, *pred)?)),
        Goal::Call(Shape::Plus, _) => Ok(Code::Test(Test::Plus)),
        Goal::Call(Shape::Times, _) => Ok(Code::Test(Test::Times)),
        Goal::Call(Shape::Indomain, _) => Ok(Code::Test(Test::Indomain)),
        Goal::Equate(_, _) => Ok(Code::Equate),
        Goal::Member(_, _) => Ok(Code::Member),
        Goal::Compare(relation, _, _) => Ok(Code::Test(test(*relation))),
    }
}

/// A goal, whose arguments are appended to the cells.
fn code_goal(
    cells: &mut Vec<Cell>,
    predicates: &mut IndexSet<Key>,
    goal: &Goal,
) -> Result<CodedGoal, AllocError>
    ensures predicates { OnOk result (map pred_of predicates.new.keys ≡ firsts same_pred (map pred_of predicates.old.keys) (called goal.now)) }
    ensures goal { IfOk result (λ d. IsCodedGoal cells.new.items (map pred_of predicates.new.keys) d goal.now) }
    ensures cells { IsGrown cells.old.items cells.new.items }
    ensures grown { IsGrown (map pred_of predicates.old.keys) (map pred_of predicates.new.keys) }
{
    let code = code_of(predicates, goal)?;
    let start = cells.len();
    push_arguments(cells, goal)?;
    let span = Span {
        start,
        end: cells.len(),
    };
    Ok(CodedGoal { code, span })
}

/// The goals of a body.
fn code_body(
    cells: &mut Vec<Cell>,
    predicates: &mut IndexSet<Key>,
    goals: &[Goal],
) -> Result<Vec<CodedGoal>, AllocError>
    ensures predicates { OnOk result (map pred_of predicates.new.keys ≡ firsts same_pred (map pred_of predicates.old.keys) (flat_map called goals.now)) }
    ensures goals { IfOk result (λ ds. AreCodedGoals cells.new.items (map pred_of predicates.new.keys) ds.items goals.now) }
    ensures cells { IsGrown cells.old.items cells.new.items }
    ensures grown { IsGrown (map pred_of predicates.old.keys) (map pred_of predicates.new.keys) }
{
    let mut body = Vec::with_capacity(*cells.allocator(), goals.len())?;
    for goal in goals {
        body.push(code_goal(cells, predicates, goal)?)?;
    }
    Ok(body)
}

/// A clause, whose terms are appended to the cells.
pub(crate) fn code_clause(
    cells: &mut Vec<Cell>,
    predicates: &mut IndexSet<Key>,
    clause: &Clause,
) -> Result<Coded, AllocError>
    ensures predicates { OnOk result (map pred_of predicates.new.keys ≡ firsts same_pred (map pred_of predicates.old.keys) (mentioned clause.now)) }
    ensures predicate { IfOk result (λ d. IsNumber (map pred_of predicates.new.keys) d.predicate clause.now.pred) }
    ensures clause { IfOk result (λ d. IsCoded cells.new.items (map pred_of predicates.new.keys) d clause.now) }
    ensures cells { IsGrown cells.old.items cells.new.items }
    ensures grown { IsGrown (map pred_of predicates.old.keys) (map pred_of predicates.new.keys) }
{
    let predicate = number(predicates, clause.pred)?;
    let start = cells.len();
    push_terms(cells, clause.head.as_slice())?;
    let end = cells.len();
    let body = code_body(cells, predicates, clause.body.as_slice())?;
    let count = u32::try_from(body.len()).map_err(|_| AllocError)?;
    Ok(Coded {
        predicate,
        variables: clause.vars,
        count,
        head: Span { start, end },
        body,
    })
}

/// The top of the term that begins with the first cell.
fn top(cells: &[Cell]) -> First
    ensures { result ≡ top_by cells.now }
{
    match cells {
        [Cell::Int(value), ..] => First::Int(*value),
        [Cell::Atom(name), ..] => First::Atom(*name),
        [Cell::Compound(name, arity), ..] => First::Functor(*name, *arity),
        _ => First::Free,
    }
}

/// What a head says of its first argument.
pub(crate) fn first(head: &[Term]) -> First
    ensures { result ≡ first_of (trees_of head.now) }
{
    match head {
        [] => First::Free,
        [term, ..] => top(term.cells()),
    }
}

/// The cells of terms.
pub(crate) fn piece(cells: &[Cell], span: Span) -> &[Cell]
    requires ordered { span.start ≤ span.end }
    requires within { span.end ≤ length cells.now }
    ensures { result.now ≡ take (span.end - span.start) (drop span.start cells.now) }
{
    &cells[span.start..span.end]
}
