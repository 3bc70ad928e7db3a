//! The goal that is searched.
ghost use Rattle.std.specs.Prelude.{◌≡◌, ◌<◌, ℕ, List, Some, length};
ghost use Rattle.std.specs.List.{slice_get};
ghost use Rattle.pp_sld.specs.Goals.{Goal};
ghost use Rattle.pp_resolve.specs.Links.{body_of, IsFormed};
ghost use Rattle.pp_resolve.specs.Shown.{IsShown, IsRoot, IsNamed, root_of};
ghost use Rattle.pp_clause.specs.Goals.{Asks};
ghost use Rattle.pp_term.specs.declared.clause.Clause.{Clause};
ghost use Rattle.pp_term.specs.Meanings.{shape_of};

use crate::history::Rest;
use pp_clause::{Clauses, GoalAt, Kind};
use pp_row::Cell;
use pp_term::Shape;
use pp_tests::Test;

/// A goal that stands in no body: what it asks, the number of its predicate where it is a call, and the cells of its
/// arguments one behind the other.
#[derive(Debug, Drop)]
pub(crate) struct Root {
    pub(crate) shape: Shape,
    pub(crate) predicate: u32,
    pub(crate) cells: Vec<Cell>,
}

/// What the goal asks.
fn kind_of<'a>(shape: Shape, predicate: u32) -> Kind<'a>
    ensures { (cs : List Clause) → IsNamed cs predicate shape → Asks cs result (shape_of shape) }
{
    match shape {
        Shape::User(_) => Kind::User(predicate),
        Shape::Plus => Kind::Test(Test::Plus),
        Shape::Times => Kind::Test(Test::Times),
        Shape::Indomain => Kind::Test(Test::Indomain),
    }
}

/// The goal at the first place.
pub(crate) fn goal_at<'a>(clauses: &'a Clauses, root: &'a Root, rest: Rest) -> GoalAt<'a>
    requires root { IsRoot clauses.now root.now }
    requires formed { IsFormed clauses.now rest.body }
    requires within { rest.from < length (body_of clauses.now (root_of root.now) rest.body) }
    ensures { (g : Goal ℕ) → slice_get (body_of clauses.now (root_of root.now) rest.body) rest.from ≡ Some g
        → IsShown clauses.now g result }
{
    match rest.body {
        None => GoalAt {
            kind: kind_of(root.shape, root.predicate),
            arguments: root.cells.as_slice(),
        },
        Some(number) => clauses.goal(number, rest.from),
    }
}
