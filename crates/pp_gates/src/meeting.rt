//! A gate at which two workers meet.
use pp_worker::{Gate, Point};
use std::sync::atomic::{AtomicBool, Ordering};
use std::thread;

/// How many turns of its own loop a worker is held at most.
const LIMIT: u32 = 100_000_000;

/// After how many turns the worker that is held lets other threads go first.
const PATIENCE: u32 = 256;

/// Of two workers it holds the one that first comes to Offered until the other one has passed Reported.
#[derive(Drop)]
pub struct Meeting {
    has_come: AtomicBool,
    has_met: AtomicBool,
    first_reported: AtomicBool,
    second_reported: AtomicBool,
}

impl Meeting {
    /// A gate that no worker has passed yet. No clause says so: a contract can't speak of what an atomic flag holds.
    pub fn new() -> Meeting {
        Meeting {
            has_come: AtomicBool::new(false),
            has_met: AtomicBool::new(false),
            first_reported: AtomicBool::new(false),
            second_reported: AtomicBool::new(false),
        }
    }

    /// Whether a worker came to Offered, and the other one passed Reported before the limit was reached. No clause says
    /// so, since the flags that it reads are atomic: a proof may rest on neither answer, and only a test uses it.
    pub fn have_met(&self) -> bool {
        self.has_met.load(Ordering::SeqCst)
    }

    /// Notes that this worker has reported.
    fn note(&self, worker: u32) {
        if worker == 0 {
            self.first_reported.store(true, Ordering::SeqCst);
        } else {
            self.second_reported.store(true, Ordering::SeqCst);
        }
    }

    /// Whether the worker that isn't this one has reported.
    fn has_other_reported(&self, worker: u32) -> bool {
        if worker == 0 {
            self.second_reported.load(Ordering::SeqCst)
        } else {
            self.first_reported.load(Ordering::SeqCst)
        }
    }

    /// Holds this worker until the other one has reported, or the limit is reached.
    fn hold(&self, worker: u32) {
        for turn in 0..LIMIT {
            if self.has_other_reported(worker) {
                self.has_met.store(true, Ordering::SeqCst);
                return;
            }
            if turn % PATIENCE == 0 {
                thread::yield_now();
            }
        }
    }
}

impl Gate for Meeting {
    fn pass(&self, worker: u32, point: Point) {
        match point {
            Point::Taken => {}
            Point::Reported => self.note(worker),
            Point::Offered => {
                if !self.has_come.swap(true, Ordering::SeqCst) {
                    self.hold(worker);
                }
            }
            Point::Idle => {}
        }
    }
}
