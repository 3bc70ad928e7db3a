//! The parts of findings: what some rows have in common, where there are any, and the only row.
ghost use Rattle.std.specs.Prelude.{◌≡◌, ◌↔◌, Some, IsTrue, IfOk, IfNone, IfSome};
ghost use Rattle.pp_algebra.specs.Canon.{same_row};
ghost use Rattle.pp_sld.specs.Findings.{join_option, join_sole, one_row};
ghost use Rattle.pp_sld.specs.Lattice.{CoversIfSome};
ghost use Rattle.pp_find.specs.Meanings.{sole_by, AreAlike};

use crate::Sole;
use pp_lgg::join;
use pp_order::covers;
use pp_row::Row;
use std::alloc::{AllocError, Global};

/// Whether both are one row.
pub(crate) fn same_rows(a: &Row, b: &Row) -> bool
    ensures { result ≡ same_row a.now b.now }
{
    a.same(b)
}

/// A copy.
pub(crate) fn copy_option(row: &Option<Row>) -> Result<Option<Row>, AllocError>
    ensures { IfOk result (λ r. r ≡ row.now) }
{
    match row {
        None => Ok(None),
        Some(row) => Ok(Some(row.copy()?)),
    }
}

/// A copy.
pub(crate) fn copy_sole(sole: &Sole) -> Result<Sole, AllocError>
    ensures { IfOk result (λ s. s ≡ sole.now) }
{
    match sole {
        Sole::None => Ok(Sole::None),
        Sole::One(row) => Ok(Sole::One(row.copy()?)),
        Sole::Two => Ok(Sole::Two),
    }
}

/// Whether both are one row, or there is none in either.
pub(crate) fn same_options(a: &Option<Row>, b: &Option<Row>) -> bool
    ensures { IsTrue result ↔ (a.now ≡ b.now) }
{
    match a {
        None => b.is_none(),
        Some(left) => match b {
            None => false,
            Some(right) => left.same(right),
        },
    }
}

/// Whether the same is known of both.
pub(crate) fn same_soles(a: &Sole, b: &Sole) -> bool
    ensures { IsTrue result ↔ (a.now ≡ b.now) }
{
    match a {
        Sole::None => matches!(b, Sole::None),
        Sole::Two => matches!(b, Sole::Two),
        Sole::One(left) => match b {
            Sole::One(right) => left.same(right),
            _ => false,
        },
    }
}

/// What both have in common.
pub(crate) fn join_options(
    alloc: Global,
    a: &Option<Row>,
    b: &Option<Row>,
) -> Result<Option<Row>, AllocError>
    requires alike { AreAlike a.now b.now }
    ensures { IfOk result (λ r. r ≡ join_option a.now b.now) }
{
    match a {
        None => copy_option(b),
        Some(left) => match b {
            None => Ok(Some(left.copy()?)),
            Some(right) => Ok(Some(join(alloc, left, right)?)),
        },
    }
}

/// The only row of both.
pub(crate) fn join_soles(a: &Sole, b: &Sole) -> Result<Sole, AllocError>
    ensures { IfOk result (λ s. sole_by s ≡ join_sole (sole_by a.now) (sole_by b.now)) }
{
    match a {
        Sole::None => copy_sole(b),
        Sole::Two => Ok(Sole::Two),
        Sole::One(left) => match b {
            Sole::None => Ok(Sole::One(left.copy()?)),
            Sole::Two => Ok(Sole::Two),
            Sole::One(right) => {
                if same_rows(left, right) {
                    Ok(Sole::One(left.copy()?))
                } else {
                    Ok(Sole::Two)
                }
            }
        },
    }
}

/// What is known with one row more, and `None` where a known row covers it already.
pub(crate) fn grown(
    alloc: Global,
    known: &Option<Row>,
    row: &Row,
) -> Result<Option<Row>, AllocError>
    requires alike { AreAlike known.now (Some row.now) }
    ensures covered { IfOk result (λ grown. IfNone grown (CoversIfSome known.now (Some row.now))) }
    ensures joined { IfOk result (λ grown. IfSome grown (λ r. Some r ≡ join_option known.now (Some row.now))) }
{
    let Some(known) = known else {
        return Ok(Some(row.copy()?));
    };
    if covers(alloc, known, row)? {
        return Ok(None);
    }
    Ok(Some(join(alloc, known, row)?))
}

/// One row more.
pub(crate) fn take_sole(sole: &mut Sole, row: Row)
    ensures { sole_by sole.new ≡ join_sole (sole_by sole.old) (one_row row) }
{
    match sole {
        Sole::None => *sole = Sole::One(row),
        Sole::One(known) => {
            if !same_rows(known, &row) {
                *sole = Sole::Two;
            }
        }
        Sole::Two => {}
    }
}

/// Whether the second knows the only row of the first.
pub(crate) fn is_sole_below(a: &Sole, b: &Sole) -> bool
    ensures { IsTrue result ↔ (join_sole (sole_by a.now) (sole_by b.now) ≡ sole_by b.now) }
{
    match (a, b) {
        (Sole::None, _) | (_, Sole::Two) => true,
        (Sole::One(left), Sole::One(right)) => same_rows(left, right),
        _ => false,
    }
}
