//! The workers work, in threads.
ghost use Rattle.std.specs.Thread.{IsSend, IsSync};

use crate::job::Job;
use pp_worker::{Explorer, Gate, work};
use std::alloc::Global;
use std::sync::Wait;
use std::thread;
use std::thread::Threads;

/// One worker works, until it saw the end of the search or want of memory.
fn work_at<'a, 'b, E: Explorer, G: Gate, R: Wait>(rt: &R, alloc: Global, job: Job<'a, 'b, E, G>) {
    let Job {
        space,
        cell,
        stop,
        gate,
        mut desk,
    } = job;
    drop(work(rt, alloc, space, cell, stop, &mut desk, gate));
}

/// All workers work, each in a thread of its own where one can be started; the last job is the caller's. Where none can,
/// they work one after another, the last job first. It takes no memory.
pub(crate) fn work_all<'a, 'b, E: Explorer, G: Gate, R: Threads + Wait + Sync>(
    rt: &R,
    alloc: Global,
    mut jobs: Vec<Job<'a, 'b, E, G>>,
) {
    let Some(last) = jobs.pop() else {
        return;
    };
    if jobs.is_empty() {
        return work_at(rt, alloc, last);
    }
    thread::join(
        rt,
        move || -> ()
            requires { IsSync R.row × IsSend E.Walker.row × IsSend E.Task.row × IsSend E.Value.row × IsSend E.Outcome.row }
        { work_all(rt, alloc, jobs) },
        move || -> ()
            requires { IsSend E.Walker.row × IsSend E.Task.row × IsSend E.Value.row × IsSend E.Outcome.row }
        { work_at(rt, alloc, last) },
    );
}
