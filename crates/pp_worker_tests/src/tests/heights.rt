//! Heights of numbers, and spans of numbers whose greatest height is sought.
ghost use Rattle.std.specs.Prelude.{◌≡◌, ◌&&◌, nat_eq, nat_lt, max};
ghost use Rattle.std.proofs.Common.{refl};
ghost use Rattle.std.proofs.Math.Nat.{max_comm};
ghost use Rattle.pp_worker_tests.specs.Heights.{between, height_of, is_settled, outcome_of};
ghost use Rattle.pp_worker_tests.specs.HeightLaws.{max_grouped, max_none, max_twice, settled_stays, same_as_itself, same_worth};

use pp_space::{Lattice, Space};
use std::alloc::{AllocError, Global};

/// The numbers from `low` on and below `high`.
#[derive(Clone, Copy, Debug, PartialEq, Eq)]
pub struct Span {
    pub low: u32,
    pub high: u32,
}

/// The heights of numbers. A span is worth the greatest of its heights; from 1,000,000 on no more is asked.
#[derive(Drop)]
pub struct Heights {
    pub alloc: Global,
}

pub fn height(number: u32) -> u32
    ensures { result ≡ height_of number }
{
    (u64::from(number) * 7919 % 1_000_003) as u32
}

impl Lattice for Heights {
    type Value = u32;

    type Outcome = u32;

    ghost fits = { λ _ _. Unit {0} };

    ghost bottom = { λ _. 0 };

    ghost joined = { λ _. max };

    ghost is_settled = { λ _. is_settled };

    ghost outcome_of = { λ _. outcome_of };

    fn empty(&self) -> u32 {
        0
    }

    fn copy_of(&self, a: &u32) -> Result<u32, AllocError> {
        Ok(*a)
    }

    fn join(&self, a: &u32, b: &u32) -> Result<u32, AllocError> {
        Ok((*a).max(*b))
    }

    fn below(&self, a: &u32, b: &u32) -> Result<bool, AllocError> {
        Ok((*a).max(*b) == *b)
    }

    fn settled(&self, a: &u32) -> bool {
        *a >= 1_000_000
    }

    fn outcome(&self, a: &u32) -> Result<u32, AllocError> {
        Ok((*a).min(1_000_000))
    }

    ghost bottom_fits = { λ _. ∣ tt ∣₁ };

    ghost joined_fits = { λ _ _ _ _ _. ∣ tt ∣₁ };

    ghost unit = { λ _ a _. max_none a };

    ghost idempotent = { λ _ a _. max_twice a };

    ghost commutative = { λ _ a b _ _. max_comm a b };

    ghost associative = { λ _ a b c _ _ _. max_grouped a b c };

    ghost settled_stays = { λ _ a b _ _. settled_stays a b };
}

impl Space for Heights {
    type Task = Span;

    ghost worth = { λ _ t. between t.low t.high };

    ghost are_same = { λ t u. nat_eq t.low u.low && nat_eq t.high u.high };

    fn copy_task(&self, a: &Span) -> Result<Span, AllocError> {
        Ok(*a)
    }

    fn same(&self, a: &Span, b: &Span) -> bool {
        a.low == b.low && a.high == b.high
    }

    ghost worth_fits = { λ _ _. ∣ tt ∣₁ };

    ghost same_as_itself = { λ t. same_as_itself t.low t.high };

    ghost same_worth = { λ _ t u. same_worth t.low t.high u.low u.high };
}
