//! A hand, the peeks at it, and what is left of it.
ghost use Rattle.std.specs.Prelude.{◌≡◌, true, false};
ghost use Rattle.crossbeam_deque.specs.Handles.{view, IsPassOf, stealer_deque, stealer_flavor, worker_view, worker_flavor};
ghost use Rattle.pp_deal.specs.Dealt.{AllGone};

use crate::rule::Dealing;
use crate::tally::Tally;
use crossbeam_deque::{Pass, Stealer, Worker};
use std::alloc::Global;

/// A deque that its owner offers items to and takes them from.
#[derive(Drop)]
pub struct Hand<T> {
    pub(crate) worker: Worker<T, Global, Tally<T>, Dealing>,
    pub(crate) drained: bool,
    ghost fifo: { worker_flavor worker ≡ 0 },
    ghost leads: { (worker_view worker).leads ≡ true },
    pub ghost gone: { drained ≡ true → ∥ AllGone (worker_view worker).offered (worker_view worker).taken ∥₁ },
}

/// The right to steal from a hand.
#[derive(Drop)]
pub struct Peek<T> {
    pub(crate) stealer: Stealer<T, Global, Tally<T>, Dealing>,
    pub(crate) pass: Pass<T, Tally<T>>,
    ghost fifo: { stealer_flavor stealer ≡ 0 },
    ghost own: { IsPassOf (stealer_deque stealer) pass },
    ghost is_out: { (view pass).is_out ≡ true },
    ghost plain: { (view pass).leads ≡ false },
}

/// What is left of a hand that all peeks have come back to.
#[derive(Drop)]
pub struct Left<T> {
    pub(crate) worker: Worker<T, Global, Tally<T>, Dealing>,
    ghost fifo: { worker_flavor worker ≡ 0 },
    ghost leads: { (worker_view worker).leads ≡ true },
    ghost alone: { (worker_view worker).peeks ≡ 0 },
}
