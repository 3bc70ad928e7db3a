//! The join of two terms, in one walk of their cells.
ghost use Rattle.std.specs.Prelude.{◌≡◌, ◌<◌, ◌≤◌, ◌+◌, ◌↔◌, ◌∷◌, [], length, All, IfOk, IsTrue};
ghost use Rattle.pp_algebra.specs.Terms.{put, variables};
ghost use Rattle.pp_algebra.specs.Canon.{firsts, place, same_list};
ghost use Rattle.pp_algebra.specs.Least.{least_tree};
ghost use Rattle.pp_lgg.specs.Pairs.{IsPair, IsFixed, name, names, placed};

use crate::pair::Pair;
use indexmap::IndexSet;
use pp_row::{Cell, Term, term_from};
use std::alloc::{AllocError, Global};

/// The place of the pair among the pairs, which take it in where it is new.
fn number<'a>(pairs: &mut IndexSet<Pair<'a>>, pair: Pair<'a>) -> Result<u32, AllocError>
    requires pair { IsPair pair }
    requires pairs { All IsPair pairs.old.keys }
    ensures pairs { IfOk result (λ _. All IsPair pairs.new.keys) }
    ensures names { IfOk result (λ _. names pairs.new.keys
        ≡ firsts same_list (names pairs.old.keys) (name pair.entry ∷ [])) }
    ensures place { IfOk result (λ k. k ≡ place same_list (names pairs.new.keys) (name pair.entry)) }
{
    let (place, _) = pairs.insert_full(pair)?;
    let number = u32::try_from(place).map_err(|_| AllocError)?;
    Ok(number)
}

/// Whether both are one name with as many arguments, or one integer.
fn agree(left: Cell, right: Cell) -> bool
    ensures { IsTrue result ↔ ((left ≡ right) × IsFixed left) }
{
    match left {
        Cell::Var(_) => false,
        _ => left == right,
    }
}

/// What two terms have in common. A pair that disagrees becomes the variable of its place among the pairs.
pub(crate) fn joined<'a>(
    alloc: Global,
    a: &'a Term,
    b: &'a Term,
    pairs: &mut IndexSet<Pair<'a>>,
) -> Result<Term, AllocError>
    requires pairs { All IsPair pairs.old.keys }
    ensures pairs { IfOk result (λ _. All IsPair pairs.new.keys) }
    ensures names { IfOk result (λ _. names pairs.new.keys
        ≡ firsts same_list (names pairs.old.keys) (variables (least_tree a.now (b.now ∷ [])))) }
    ensures term { IfOk result (λ t. t ≡ put (placed (names pairs.new.keys)) (least_tree a.now (b.now ∷ []))) }
{
    let left = a.cells();
    let right = b.cells();
    let mut cells = Vec::new(alloc);
    let mut i = 0;
    let mut j = 0;
    while i < left.len() {
        if agree(left[i], right[j]) {
            cells.push(left[i])?;
            i += 1;
            j += 1;
        } else {
            let pair = Pair {
                left: term_from(left, i),
                right: term_from(right, j),
            };
            cells.push(Cell::Var(number(pairs, pair)?))?;
            i += pair.left.len();
            j += pair.right.len();
        }
    }
    Ok(Term::from_cells(cells).unwrap())
}
