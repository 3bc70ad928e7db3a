//! Which numbers the variables of a row get that is applied.
ghost use Rattle.std.specs.Prelude.{◌≡◌, ℕ, List, ◌+◌, ◌<◌, ◌≤◌, ◌^◌, [], ◌∷◌, ◌++◌, length, IfOk, false, nat_eq};
ghost use Rattle.pp_algebra.specs.Canon.{has, Distinct};
ghost use Rattle.pp_algebra.specs.Covers.{IsIn};
ghost use Rattle.pp_algebra.specs.Terms.{variable, variables_all};
ghost use Rattle.pp_propagation.specs.Histories.{numbers_from};
ghost use Rattle.pp_row.specs.Columns.{trees_of};
ghost use Rattle.pp_store.specs.Numbers.{AreNumbers};

use crate::begin::top;
use pp_term::{Cell, Term};
use std::alloc::{AllocError, Global};

/// The numbers from `first` on, `count` of them.
fn fresh(alloc: Global, first: u32, count: u32) -> Result<Vec<u32>, AllocError>
    requires fits { first + count < 2 ^ 32 }
    ensures { IfOk result (λ ns. ns.items ≡ numbers_from first count) }
{
    let mut numbers = Vec::with_capacity(alloc, count as usize)?;
    for number in first..first + count {
        numbers.push(number)?;
    }
    Ok(numbers)
}

/// Gives the name to the variable that the column is, if it has none yet.
fn keep_name(numbers: &mut Vec<u32>, first: u32, name: u32, column: &Term)
    requires within { (v : ℕ) → column.now ≡ variable v → v < length numbers.old.items }
    requires old { name < first }
    ensures kept { (count : ℕ) (taken : List ℕ) → AreNumbers first count taken numbers.old.items
        → has nat_eq taken name ≡ false → AreNumbers first count (taken ++ name ∷ []) numbers.new.items }
{
    if let Cell::Var(variable) = top(column) {
        if numbers[variable as usize] >= first {
            numbers[variable as usize] = name;
        }
    }
}

/// The numbers of the variables of columns, `count` of them, that stand for the variables of these names: one that is
/// a column itself gets the first name that it stands for, and any other one a number from `first` on.
pub(crate) fn numbered(
    alloc: Global,
    names: &[u32],
    columns: &[Term],
    first: u32,
    count: u32,
) -> Result<Vec<u32>, AllocError>
    requires fits { first + count < 2 ^ 32 }
    requires many { length names.now ≤ length columns.now }
    requires below { (v : ℕ) → IsIn v (variables_all (trees_of columns.now)) → v < count }
    requires old { (v : ℕ) → IsIn v names.now → v < first }
    requires distinct { Distinct nat_eq names.now }
    ensures { IfOk result (λ ns. AreNumbers first count names.now ns.items) }
{
    let mut numbers = fresh(alloc, first, count)?;
    for (i, name) in names.iter().enumerate() {
        keep_name(&mut numbers, first, *name, &columns[i]);
    }
    Ok(numbers)
}

/// A number above all of these, and `first` at least.
pub(crate) fn end_of(numbers: &[u32], first: usize) -> usize
    ensures above { (x : ℕ) → IsIn x numbers.now → x < result }
    ensures first { first ≤ result }
{
    let mut end = first;
    for number in numbers {
        end = end.max(*number as usize + 1);
    }
    end
}
