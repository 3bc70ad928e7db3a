//! How long a worker searches before it reports.
ghost use Rattle.std.specs.Prelude.{◌≤◌};

/// How many reductions a worker's first search makes before it reports, and each search of a task that it stole. So the
/// first report comes soon, and a task that has just come to a worker is soon split for others.
pub(crate) const FIRST_BUDGET: u32 = 200;

/// How many reductions a search makes at most before it reports.
const LAST_BUDGET: u32 = 25_600;

/// The budget that follows where the task was of the own hand.
pub(crate) fn doubled(budget: u32) -> u32
    requires { 1 ≤ budget }
    ensures { 1 ≤ result }
{
    if budget < LAST_BUDGET {
        2 * budget
    } else {
        LAST_BUDGET
    }
}
