//! The laws of the end of a run.
ghost use Rattle.pp_fixpoint.specs.Laws.{NarrowingChangesFace, RunsEndAtFixpoints, NarrowingShrinks, TurnsAreEnough};

/// A goal that narrows has another face then. So where no goal waits, no goal fails or narrows, and the unfinished ones
/// are told.
pub fn run_ends_at_fixpoint()
    ensures changes { NarrowingChangesFace }
    ensures ends { RunsEndAtFixpoints }
{}

/// A goal that narrows makes the store's finite domains smaller. So there is a number of turns in which a run ends.
pub fn turns_are_enough()
    ensures shrinks { NarrowingShrinks }
    ensures enough { TurnsAreEnough }
{}
