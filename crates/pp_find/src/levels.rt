//! Rows that stand for what all of them have in common, the largest first: so one row more is not joined with all at
//! once.
ghost use Rattle.std.specs.Prelude.{◌≡◌, ◌≤◌, ◌+◌, [], ◌∷◌, true, false, Some, IsTrue, IfOk, OnErr, OnOk, length};
ghost use Rattle.pp_algebra.specs.Rows.{Row as RowValue};
ghost use Rattle.pp_sld.specs.Findings.{join_option};
ghost use Rattle.pp_find.specs.Common.{common, AreUnder, AreUnderOne};

use pp_lgg::join;
use pp_order::covers;
use pp_row::Row;
use std::alloc::{AllocError, Global};

/// Below this weight a row is joined with the next one at once.
const SMALL: usize = 32;

/// How many intervals a row's domains have.
fn weight(row: &Row) -> usize {
    let mut total: usize = 0;
    for domain in row.domains() {
        if let Some(domain) = domain {
            total = total.saturating_add(domain.intervals().len());
        }
    }
    total
}

/// Whether copying a row's domains costs little.
pub(crate) fn is_small(row: &Row) -> bool {
    weight(row) < SMALL
}

/// Whether one of the rows from this place on covers this one, which then adds nothing to what all have in common.
pub(crate) fn any_covers(
    alloc: Global,
    rows: &[Row],
    from: usize,
    row: &Row,
) -> Result<bool, AllocError>
    requires under { AreUnderOne (row.now ∷ rows.now) }
    ensures { IfOk result (λ is. IsTrue is → common rows.now ≡ join_option (common rows.now) (Some row.now)) }
{
    for i in from..rows.len() {
        if covers(alloc, &rows[i], row)? {
            return Ok(true);
        }
    }
    Ok(false)
}

/// Joins the last two rows.
fn join_last(alloc: Global, rows: &mut Vec<Row>) -> Result<(), AllocError>
    requires two { 2 ≤ length rows.old.items }
    requires under { AreUnderOne rows.old.items }
    ensures same { common rows.new.items ≡ common rows.old.items }
    ensures under { (call : RowValue) → AreUnder call rows.old.items → AreUnder call rows.new.items }
    ensures shorter { OnOk result (length rows.new.items + 1 ≡ length rows.old.items) }
{
    let last = rows.len() - 1;
    let both = join(alloc, &rows[last - 1], &rows[last])?;
    rows.truncate(last);
    rows[last - 1] = both;
    Ok(())
}

/// Whether the last two rows are to be joined: where all are, or where the last is not much smaller than the one before
/// it, or that is small itself.
fn is_next(rows: &[Row], all: bool) -> bool
    ensures two { IsTrue result → 2 ≤ length rows.now }
    ensures all { all ≡ true → result ≡ false → length rows.now ≤ 1 }
{
    if rows.len() < 2 {
        return false;
    }
    if all {
        return true;
    }
    let before = weight(&rows[rows.len() - 2]);
    before < SMALL || before / 2 <= weight(&rows[rows.len() - 1])
}

/// Joins the last rows: all of them into one, or as long as they are near.
fn join_rows(alloc: Global, rows: &mut Vec<Row>, all: bool) -> Result<(), AllocError>
    requires under { AreUnderOne rows.old.items }
    ensures same { common rows.new.items ≡ common rows.old.items }
    ensures under { (call : RowValue) → AreUnder call rows.old.items → AreUnder call rows.new.items }
    ensures one { all ≡ true → OnOk result (length rows.new.items ≤ 1) }
{
    while is_next(rows.as_slice(), all) {
        join_last(alloc, rows)?;
    }
    Ok(())
}

/// One row more.
pub(crate) fn add_row(alloc: Global, rows: &mut Vec<Row>, row: Row) -> Result<(), AllocError>
    requires under { AreUnderOne (row ∷ rows.old.items) }
    ensures added { IfOk result (λ _. common rows.new.items ≡ join_option (common rows.old.items) (Some row)) }
    ensures err { OnErr result (common rows.new.items ≡ common rows.old.items) }
    ensures under { (call : RowValue) → AreUnder call (row ∷ rows.old.items) → AreUnder call rows.new.items }
{
    join_rows(alloc, rows, false)?;
    rows.push(row)?;
    Ok(())
}

/// What the rows and one more have in common.
pub(crate) fn joined_with(alloc: Global, rows: &mut Vec<Row>, row: Row) -> Result<Row, AllocError>
    requires under { AreUnderOne (row ∷ rows.old.items) }
    ensures same { common rows.new.items ≡ common rows.old.items }
    ensures under { (call : RowValue) → AreUnder call rows.old.items → AreUnder call rows.new.items }
    ensures joined { IfOk result (λ whole. Some whole ≡ join_option (common rows.old.items) (Some row)) }
{
    join_rows(alloc, rows, true)?;
    if rows.is_empty() {
        return Ok(row);
    }
    join(alloc, &rows[0], &row)
}

/// What the rows have in common.
pub(crate) fn joined_rows(alloc: Global, rows: &mut Vec<Row>) -> Result<Option<Row>, AllocError>
    requires under { AreUnderOne rows.old.items }
    ensures same { common rows.new.items ≡ common rows.old.items }
    ensures under { (call : RowValue) → AreUnder call rows.old.items → AreUnder call rows.new.items }
    ensures joined { IfOk result (λ whole. whole ≡ common rows.old.items) }
{
    join_rows(alloc, rows, true)?;
    if rows.is_empty() {
        return Ok(None);
    }
    Ok(Some(rows[0].copy()?))
}

/// This row alone.
pub(crate) fn put_row(rows: &mut Vec<Row>, row: Row) -> Result<(), AllocError>
    ensures put { IfOk result (λ _. rows.new.items ≡ row ∷ []) }
    ensures err { OnErr result (rows.new.items ≡ rows.old.items) }
{
    if rows.is_empty() {
        rows.push(row)?;
        return Ok(());
    }
    rows.truncate(1);
    rows[0] = row;
    Ok(())
}
