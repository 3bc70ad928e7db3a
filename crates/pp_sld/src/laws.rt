//! The laws of search.
ghost use Rattle.pp_sld.specs.Ways.{Way, Goes};
ghost use Rattle.pp_sld.specs.Laws.{LeadsOnce, HasAtMostOneSearch, HasOneSearch, HasOneListOfLeaves, HasOneVerdict, LeafRowCovers, CallCoversLeaves, LeavesHaveWidth, LeavesAreRows, CallIsRow, LeavesGrow, GrownKeepsVerdict, Deepens, WalkGivesVerdict, WalkIsAtMost, LeafHasNoWalk};

/// A way leads to at most one configuration, and a configuration has at most one search tree.
pub fn search_is_unique()
    ensures ways { LeadsOnce }
    ensures trees { HasAtMostOneSearch }
{}

/// Each way leads on or fails, and each configuration has its search tree: every search ends.
pub fn search_is_total()
    ensures ways { (w : Way) → Goes w }
    ensures trees { HasOneSearch }
{}

/// A goal under a face has one list of answers, one of loose ends and one verdict at each depth.
pub fn verdict_is_unique()
    ensures leaves { HasOneListOfLeaves }
    ensures verdict { HasOneVerdict }
{}

/// What a search finds lies under its call: each answer and each loose end is a canonical row, with a column for
/// each variable of the face, and the call covers it. What is found below a configuration lies under its row. Where
/// the face's domains are wide, so are those of what is found.
pub fn call_covers_what_is_found()
    ensures below { LeafRowCovers }
    ensures covers { CallCoversLeaves }
    ensures width { LeavesHaveWidth }
    ensures rows { LeavesAreRows }
    ensures call { CallIsRow }
{}

/// A search that is given more depth keeps its answers, and what it finds more lies under its loose ends. So it may
/// finish what was unfinished, and changes no other verdict.
pub fn deepening_keeps_verdicts()
    ensures leaves { LeavesGrow }
    ensures grown { GrownKeepsVerdict }
    ensures verdict { Deepens }
{}

/// A walk from left to right that stops at the first leaf at which its finding is settled gives the verdict, with
/// at most all reductions.
pub fn walks_give_the_verdict()
    ensures verdict { WalkGivesVerdict }
    ensures at_most { WalkIsAtMost }
    ensures leaf { LeafHasNoWalk }
{}
