//! Goals of bodies, as they are lent.

use pp_domain::Domain;
use pp_row::Cell;
use pp_tests::Test;

/// What a goal asks. A call has the number of its predicate; `None` in a membership is the empty set.
#[derive(Clone, Copy, Debug)]
pub enum Kind<'a> {
    User(u32),
    Equate,
    Member(Option<&'a Domain>),
    Test(Test),
}

/// A goal of a clause's body, with the cells of its arguments one behind the other.
#[derive(Clone, Copy, Debug)]
pub struct GoalAt<'a> {
    pub kind: Kind<'a>,
    pub arguments: &'a [Cell],
}
