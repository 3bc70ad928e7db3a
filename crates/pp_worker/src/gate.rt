//! Gates that workers pass.

/// Where a worker is in its turn.
#[derive(Clone, Copy, Debug, PartialEq, Eq)]
pub enum Point {
    /// It has a task.
    Taken,
    /// It has reported.
    Reported,
    /// It has offered what there was to offer.
    Offered,
    /// It found no task.
    Idle,
}

/// What is told where each worker is. It may hold a worker there for a while, and promises nothing.
pub trait Gate: Sync {
    fn pass(&self, worker: u32, point: Point);
}

/// A gate that holds nobody.
#[derive(Debug, Drop)]
pub struct OpenGate;

impl Gate for OpenGate {
    fn pass(&self, _worker: u32, _point: Point) {}
}
