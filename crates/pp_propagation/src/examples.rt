//! Worked examples of the definitions.
ghost use Rattle.pp_propagation.specs.Examples.{FaceIsNumbered, RowIsApplied, ChangedAreWoken, GoalsTakeTurns, HistoryIsRead, LastVerdictCounts, AnswerIsWritten, WatchersLeave, ChangesAreTold};

/// The turns of a run of two goals that share a variable: faces, applied rows, and which goals are woken.
pub fn worked_turns()
    ensures face_is_numbered { FaceIsNumbered }
    ensures row_is_applied { RowIsApplied }
    ensures changed_are_woken { ChangedAreWoken }
    ensures goals_take_turns { GoalsTakeTurns }
{}

/// What is read off a history, and what is written and told of a run.
pub fn worked_histories()
    ensures history_is_read { HistoryIsRead }
    ensures last_verdict_counts { LastVerdictCounts }
    ensures answer_is_written { AnswerIsWritten }
    ensures watchers_leave { WatchersLeave }
    ensures changes_are_told { ChangesAreTold }
{}
