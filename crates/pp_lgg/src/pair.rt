//! Pairs of terms that stand at one place.
ghost use Rattle.std.specs.Prelude.{◌≡◌, ◌++◌, fold};
ghost use Rattle.std.specs.Hash.{and-Alike, on_Alike, items_Alike};
ghost use Rattle.pp_lgg.specs.declared.pair.Pair.{Pair};
ghost use Rattle.pp_lgg.specs.Hashing.{cell_writes, writes, cells_alike};

use pp_row::Cell;
use std::hash::{Hash, Hasher};

/// The cells of two terms that stand at one place of two rows.
#[derive(Clone, Copy, Debug, PartialEq, Eq)]
pub(crate) struct Pair<'a> {
    pub(crate) left: &'a [Cell],
    pub(crate) right: &'a [Cell],
}

impl Hash for Pair<'_> {
    ghost hash_input = { λ p. writes p.left.now ++ writes p.right.now };

    ghost respects_eq = { (and-Alike (on_Alike (λ (p : Pair). p.left.now) (items_Alike cells_alike)) (on_Alike (λ (p : Pair). p.right.now) (items_Alike cells_alike))).fed };

    fn hash<H: Hasher>(&self, state: &mut H) {
        hash_cells(self.left, state);
        hash_cells(self.right, state);
    }
}

fn hash_cells<H: Hasher>(cells: &[Cell], state: &mut H)
    ensures { state.new ≡ fold H.write state.old (writes cells.now) }
{
    state.write_usize(cells.len());
    for cell in cells {
        hash_cell(*cell, state);
    }
}

fn hash_cell<H: Hasher>(cell: Cell, state: &mut H)
    ensures { state.new ≡ fold H.write state.old (cell_writes cell) }
{
    match cell {
        Cell::Int(value) => {
            state.write_u8(0);
            state.write_i64(value);
        }
        Cell::Atom(name) => {
            state.write_u8(1);
            state.write_u32(name);
        }
        Cell::Compound(name, arity) => {
            state.write_u8(2);
            state.write_u32(name);
            state.write_u32(arity);
        }
        Cell::Var(number) => {
            state.write_u8(3);
            state.write_u32(number);
        }
    }
}
