//! The search of a span, number by number.
ghost use Rattle.std.specs.Prelude.{◌≡◌, ◌≢◌, ◌≤◌, ◌<◌, ◌+◌, ℕ, ◌∷◌, [], All, IfOk, false, max, nat_lt, true};
ghost use Rattle.pp_core.specs.Worths.{with_worths};
ghost use Rattle.pp_stop.specs.Seats.{IsSeatOf, StillSeen, has_seen, late, loads, saw_dry, saw_settled};
ghost use Rattle.pp_stop.specs.Words.{up_of};
ghost use Rattle.pp_stop.specs.declared.up.Up.TheVariants.{No};
ghost use Rattle.pp_worker_tests.specs.Heights.{between, greatest};
ghost use Rattle.pp_worker_tests.specs.HeightLaws.{less_than_itself, less_then};

use super::heights::{Heights, Span, height};
use pp_core::Tasks;
use pp_stop::{Stop, StopSeat, Up};
use pp_worker::{Explorer, FoundOf};
use std::alloc::{AllocError, Global};

/// How many numbers were seen, the greatest of their heights, and what the last load of the stop word saw.
struct Scanned {
    count: u32,
    top: u32,
    up: Up,
}

/// Sees so many numbers, unless the stop word is up. It is loaded before each number, and once at the end.
fn scan(low: u32, count: u32, stop: &Stop, seat: &mut StopSeat) -> Scanned
    requires within { low + count < 4294967296 }
    requires seat { IsSeatOf stop.now seat.old }
    ensures seat { IsSeatOf stop.now seat.new }
    ensures seen { StillSeen seat.old seat.new }
    ensures late { has_seen seat.old ≡ false → late seat.new ≡ late seat.old }
    ensures count { result.count ≤ count }
    ensures top { result.top ≡ greatest low result.count }
    ensures up { result.up ≡ up_of (saw_settled seat.new) (saw_dry seat.new) }
    ensures loads { loads seat.new ≡ loads seat.old + (result.count + 1) }
    ensures stopped { has_seen seat.old ≡ true → result.count ≡ 0 }
    ensures whole { result.up ≡ No → result.count ≡ count }
{
    let mut top = 0;
    for done in 0..count {
        let up = stop.is_up(seat);
        match up {
            Up::No => top = top.max(height(low + done)),
            Up::Settled => return Scanned {
                count: done,
                top,
                up,
            },
            Up::Dry => return Scanned {
                count: done,
                top,
                up,
            },
        }
    }
    let up = stop.is_up(seat);
    Scanned { count, top, up }
}

/// The two halves of what is left of a span; none where nothing is.
pub fn halves(alloc: Global, at: u32, high: u32) -> Result<Vec<Span>, AllocError>
    ensures worth { IfOk result (λ ts. (v : ℕ) → with_worths (λ t. between t.low t.high) max v ts.items ≡ max v (between at high)) }
    ensures later { IfOk result (λ ts. All (λ t. at ≤ t.low) ts.items) }
    ensures none { high ≤ at → IfOk result (λ ts. ts.items ≡ []) }
{
    if at >= high {
        return Ok(Vec::new(alloc));
    }
    let middle = at + (high - at) / 2;
    let (left, right) = (
        Span {
            low: at,
            high: middle,
        },
        Span { low: middle, high },
    );
    Ok(vec![in alloc; left, right]?)
}

/// What is left of a span: its two halves, or all of it where the search was stopped.
fn rest_of(alloc: Global, at: u32, high: u32, up: Up) -> Result<Vec<Span>, AllocError>
    ensures worth { IfOk result (λ ts. (v : ℕ) → with_worths (λ t. between t.low t.high) max v ts.items ≡ max v (between at high)) }
    ensures later { IfOk result (λ ts. All (λ t. at ≤ t.low) ts.items) }
    ensures none { up ≡ No → high ≤ at → IfOk result (λ ts. ts.items ≡ []) }
    ensures stopped { up ≢ No → IfOk result (λ ts. ts.items ≡ record { low = at; high = high } ∷ []) }
{
    match up {
        Up::No => halves(alloc, at, high),
        Up::Settled => Ok(vec![in alloc; Span { low: at, high }]?),
        Up::Dry => Ok(vec![in alloc; Span { low: at, high }]?),
    }
}

impl Explorer for Heights {
    type Walker = ();

    ghost belongs = { λ _ _. Unit {0} };

    ghost is_later = { λ t u. nat_lt u.low t.low };

    fn walker(&self, _alloc: Global) -> Result<(), AllocError> {
        Ok(())
    }

    fn search(
        &self,
        _walker: &mut (),
        task: &Span,
        _under: &u32,
        budget: u32,
        stop: &Stop,
        seat: &mut StopSeat,
    ) -> Result<FoundOf<Span, u32>, AllocError> {
        let most = task.high.saturating_sub(task.low).min(budget);
        let Scanned { count, top, up } = scan(task.low, most, stop, seat);
        let rest = rest_of(self.alloc, task.low + count, task.high, up)?;
        Ok(FoundOf {
            value: top,
            rest: Tasks::from_vec(rest),
            up,
        })
    }

    ghost later_irreflexive = { λ t. less_than_itself t.low };

    ghost later_transitive = { λ t u v. less_then u.low t.low v.low };
}
