//! The laws of core runs.
ghost use Rattle.pp_core.specs.Laws.{RunsAreWhole, JournalsAreWhole, RunsDecide};

use pp_space::Space;

/// For every list of fit reports, stale ones among them, the value joined with the worths of the live tasks is the
/// worth of the root; so it is after every sound journal. Once no task is live, or the value is settled, the value
/// has the outcome of the root's worth.
pub fn core_runs_keep_the_worth<S: Space>(space: &S)
    ensures runs { RunsAreWhole (S.worth space.now) (S.joined space.now) S.are_same (S.fits space.now) (S.bottom space.now) }
    ensures journals { JournalsAreWhole (S.worth space.now) (S.joined space.now) S.are_same (S.fits space.now) (S.bottom space.now) }
    ensures outcome { RunsDecide (S.worth space.now) (S.joined space.now) S.are_same (S.fits space.now) (S.bottom space.now) (S.is_settled space.now) (S.outcome_of space.now) }
{}
