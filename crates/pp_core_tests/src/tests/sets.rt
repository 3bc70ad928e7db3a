//! Sets of eight things, and the tree whose nodes are worth such sets.
ghost use Rattle.std.specs.Prelude.{◌≡◌, nat_eq, bit_or};
ghost use Rattle.std.specs.Int.Bits.{or_zero_l, or_self};
ghost use Rattle.std.proofs.lemmas.Nat.{or_comm};
ghost use Rattle.std.proofs.lemmas.Bool.{eq-eqb};
ghost use Rattle.std.proofs.Common.{refl};
ghost use Rattle.std.proofs.Math.Logic.{∥∥₁_map₂};
ghost use Rattle.pp_core_tests.specs.Sets.{IsSet, worth_of, is_settled, outcome_of};
ghost use Rattle.pp_core_tests.specs.SetLaws.{none_is_set, or_is_set, or_grouped, settled_stays, worth_is_set, same_worth};

use pp_space::{Lattice, Space};
use std::alloc::AllocError;

/// What the nodes are worth: the leaves 8 to 15 one thing each, the nodes 1 to 7 what their two children are.
const WORTHS: [u64; 16] = [0, 255, 15, 240, 3, 12, 48, 192, 1, 2, 4, 8, 16, 32, 64, 128];

/// What a node is worth; nothing where there is no such node.
pub fn worth(node: u32) -> u64
    ensures { result ≡ worth_of node }
{
    if node < 16 { WORTHS[node as usize] } else { 0 }
}

/// Sets of the things 0 to 7 as bits. The last thing settles a set, and stands for all in its outcome.
#[derive(Drop)]
pub struct Sets;

impl Lattice for Sets {
    type Value = u64;

    type Outcome = u64;

    ghost fits = { λ _. IsSet };

    ghost bottom = { λ _. 0 };

    ghost joined = { λ _. bit_or };

    ghost is_settled = { λ _. is_settled };

    ghost outcome_of = { λ _. outcome_of };

    fn empty(&self) -> u64 {
        0
    }

    fn copy_of(&self, a: &u64) -> Result<u64, AllocError> {
        Ok(*a)
    }

    fn join(&self, a: &u64, b: &u64) -> Result<u64, AllocError> {
        Ok(*a | *b)
    }

    fn below(&self, a: &u64, b: &u64) -> Result<bool, AllocError> {
        Ok(*a | *b == *b)
    }

    fn settled(&self, a: &u64) -> bool {
        *a >= 128
    }

    fn outcome(&self, a: &u64) -> Result<u64, AllocError> {
        Ok(if *a >= 128 { 255 } else { *a })
    }

    ghost bottom_fits = { λ _. ∣ none_is_set ∣₁ };

    ghost joined_fits = { λ _ a b p q. ∥∥₁_map₂ p q (or_is_set a b) };

    ghost unit = { λ _ a _. or_zero_l a };

    ghost idempotent = { λ _ a _. or_self a };

    ghost commutative = { λ _ a b _ _. or_comm a b };

    ghost associative = { λ _ a b c _ _ _. or_grouped a b c };

    ghost settled_stays = { λ _ a b _ _. settled_stays a b };
}

impl Space for Sets {
    type Task = u32;

    ghost worth = { λ _. worth_of };

    ghost are_same = { nat_eq };

    fn copy_task(&self, a: &u32) -> Result<u32, AllocError> {
        Ok(*a)
    }

    fn same(&self, a: &u32, b: &u32) -> bool {
        *a == *b
    }

    ghost worth_fits = { λ _ t. ∣ worth_is_set t ∣₁ };

    ghost same_as_itself = { λ t. eq-eqb t t refl };

    ghost same_worth = { λ _. same_worth };
}

/// What two sets come to in a lattice: their join, whether the first is below the second, and the outcome of the
/// join where it is settled.
fn joined<L: Lattice>(
    lattice: &L,
    a: &L::Value,
    b: &L::Value,
) -> Result<(L::Value, bool, Option<L::Outcome>), AllocError>
    requires left { ∥ L.fits lattice.now a.now ∥₁ }
    requires right { ∥ L.fits lattice.now b.now ∥₁ }
{
    let both = lattice.join(a, b)?;
    let below = lattice.below(a, b)?;
    let outcome = if lattice.settled(&both) {
        Some(lattice.outcome(&both)?)
    } else {
        None
    };
    Ok((both, below, outcome))
}

#[test]
fn sets_are_joined(rt: HostRuntime) {
    for (a, b, want) in [
        (0, 3, (3, true, None)),
        (3, 5, (7, false, None)),
        (4, 6, (6, true, None)),
        (128, 1, (129, false, Some(255))),
    ] {
        assert_eq!(rt; joined(&Sets, &a, &b), Ok(want), "{a} {b}");
    }
}
