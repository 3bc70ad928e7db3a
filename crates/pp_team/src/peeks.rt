//! Each worker's peeks at the hands of the others.
ghost use Rattle.std.specs.Prelude.{◌≡◌, ◌≤◌, ◌<◌, vec_len};

use crate::job::Job;
use pp_deal::Peek;
use pp_worker::{Desk, Explorer, Gate};
use std::alloc::{AllocError, Global};

/// A peek at this desk's hand.
fn peek_at<'a, E: Explorer>(desk: &mut Desk<'a, E>) -> Result<Peek<E::Task>, AllocError>
    ensures pass { desk.new.pass ≡ desk.old.pass }
    ensures seat { desk.new.seat ≡ desk.old.seat }
{
    desk.hand.peek()
}

fn peek_of<'a, 'b, E: Explorer, G: Gate>(
    job: &mut Job<'a, 'b, E, G>,
) -> Result<Peek<E::Task>, AllocError> {
    peek_at(&mut job.desk)
}

/// Peeks at the hands of all other jobs, in their order, from the one behind this place on.
fn peeks_from<'a, 'b, E: Explorer, G: Gate>(
    alloc: Global,
    jobs: &mut Vec<Job<'a, 'b, E, G>>,
    place: usize,
) -> Result<Vec<Peek<E::Task>>, AllocError>
    requires few { vec_len jobs.old ≤ 64 }
    requires place { place < vec_len jobs.old }
    ensures count { vec_len jobs.new ≡ vec_len jobs.old }
{
    let count = jobs.len();
    let mut peeks = Vec::with_capacity(alloc, count)?;
    for step in 1..count {
        peeks.push_reserved(peek_of(&mut jobs[(place + step) % count])?);
    }
    Ok(peeks)
}

/// Gives the desk its peeks.
fn give<'a, E: Explorer>(desk: &mut Desk<'a, E>, peeks: Vec<Peek<E::Task>>)
    ensures pass { desk.new.pass ≡ desk.old.pass }
    ensures seat { desk.new.seat ≡ desk.old.seat }
{
    desk.peeks = peeks;
}

fn give_to<'a, 'b, E: Explorer, G: Gate>(job: &mut Job<'a, 'b, E, G>, peeks: Vec<Peek<E::Task>>) {
    give(&mut job.desk, peeks);
}

/// Gives each job peeks at the hands of all others.
pub(crate) fn deal_peeks<'a, 'b, E: Explorer, G: Gate>(
    alloc: Global,
    jobs: &mut Vec<Job<'a, 'b, E, G>>,
) -> Result<(), AllocError>
    requires { vec_len jobs.old ≤ 64 }
    ensures { vec_len jobs.new ≡ vec_len jobs.old }
{
    for place in 0..jobs.len() {
        let peeks = peeks_from(alloc, jobs, place)?;
        give_to(&mut jobs[place], peeks);
    }
    Ok(())
}
