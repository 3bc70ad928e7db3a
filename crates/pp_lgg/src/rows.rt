//! The join of two rows.
ghost use Rattle.std.specs.Prelude.{◌≡◌, ◌∷◌, [], IfOk};
ghost use Rattle.pp_algebra.specs.Terms.{count};
ghost use Rattle.pp_algebra.specs.Least.{least_row};

use crate::domains::unions;
use crate::walk::joined;
use indexmap::IndexSet;
use pp_row::Row;
use std::alloc::{AllocError, Global};

/// The least row that covers both: the least general generalisation of their columns (Plotkin, *A Note on Inductive
/// Generalization*, and Reynolds, *Transformational Systems and the Algebraic Structure of Atomic Formulas*, both in
/// Machine Intelligence 5, 1970), where the domain of each variable is what it stands for in both rows.
pub fn join(alloc: Global, a: &Row, b: &Row) -> Result<Row, AllocError>
    requires same_width { count a.now.columns ≡ count b.now.columns }
    ensures least { IfOk result (λ row. row ≡ least_row a.now (b.now ∷ [])) }
{
    let left = a.columns();
    let right = b.columns();
    let mut pairs = IndexSet::new(alloc);
    let mut columns = Vec::with_capacity(alloc, left.len())?;
    for (k, column) in left.iter().enumerate() {
        columns.push(joined(alloc, column, &right[k], &mut pairs)?)?;
    }
    let domains = unions(alloc, &pairs, a.domains(), b.domains())?;
    Row::canon(alloc, columns, &domains)
}
