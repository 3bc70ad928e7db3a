//! A gate that holds one worker once.
use pp_worker::{Gate, Point};
use std::hint;
use std::sync::atomic::{AtomicBool, Ordering};

/// For how many turns of its own loop the worker is held.
const TURNS: u32 = 100_000;

/// It holds one worker the first time that this comes to one point.
#[derive(Drop)]
pub struct Holding {
    worker: u32,
    point: Point,
    has_come: AtomicBool,
}

impl Holding {
    /// A gate that no worker has passed yet. No clause says so: a contract can't speak of what an atomic flag holds.
    pub fn new(worker: u32, point: Point) -> Holding {
        Holding {
            worker,
            point,
            has_come: AtomicBool::new(false),
        }
    }
}

impl Gate for Holding {
    fn pass(&self, worker: u32, point: Point) {
        if worker != self.worker
            || point != self.point
            || self.has_come.swap(true, Ordering::SeqCst)
        {
            return;
        }
        for _ in 0..TURNS {
            hint::spin_loop();
        }
    }
}
