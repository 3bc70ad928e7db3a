//! The laws of paths, works and reports.
ghost use Rattle.pp_sld.specs.Laws.{WorthIsUnder, WorthFits};
ghost use Rattle.pp_sld.specs.LawsOfPaths.{ReachesLeaves, ReachesOnce, ReachesOrMisses, MissesLeaves, StandsAtRoot, StandsPastBuiltIn, StandsAtAlternative, StandsBack, StandsAtLeaves, StandsAtChoice, MissesAtDead, MissesNoPlace, MissesPastEnd};
ghost use Rattle.pp_sld.specs.LawsOfWorks.{NextKeeps, LastIsPath, SplitKeeps, SplitsWhereNext, DownKeeps, WorthIsInside, NoneIsLater, LaterThrough, NextIsLater, DownIsLater, SplitIsLater};
ghost use Rattle.pp_sld.specs.LawsOfReports.{WalkBegins, WalkGoesDown, WalkGoesOn, WalkEnds, WalkSplits, NothingIsFound, LeavesAreFound, LeavesAreSkipped, ReportIsFit};

/// A path leads to one configuration, whose leaves are those at the path, or it misses and has no leaves.
pub fn paths_reach_or_miss()
    ensures leaves { ReachesLeaves }
    ensures once { ReachesOnce }
    ensures either { ReachesOrMisses }
    ensures nothing { MissesLeaves }
    ensures dead { MissesAtDead }
    ensures no_place { MissesNoPlace }
    ensures past_end { MissesPastEnd }
{}

/// A search stands at a path: at the root, past a built-in, at an alternative that was taken, and back.
pub fn searches_stand_at_paths()
    ensures root { StandsAtRoot }
    ensures built_in { StandsPastBuiltIn }
    ensures alternative { StandsAtAlternative }
    ensures back { StandsBack }
    ensures leaves { StandsAtLeaves }
    ensures choice { StandsAtChoice }
{}

/// Going on to the next sibling, going down and splitting a work lose no leaf and make none twice; a work's leaves
/// are leaves of the tree, and lie under the call of a goal's search.
pub fn works_keep_every_leaf()
    ensures next { NextKeeps }
    ensures last { LastIsPath }
    ensures split { SplitKeeps }
    ensures can_split { SplitsWhereNext }
    ensures down { DownKeeps }
    ensures inside { WorthIsInside }
    ensures under { WorthIsUnder }
    ensures fits { WorthFits }
{}

/// Works are ordered by their paths, and what is gone on to, gone down to or split off is later.
pub fn works_are_ordered()
    ensures not_itself { NoneIsLater }
    ensures through { LaterThrough }
    ensures next { NextIsLater }
    ensures down { DownIsLater }
    ensures split { SplitIsLater }
{}

/// The steps of a walk through a work: it meets leaves and leaves works, and loses none.
pub fn walks_keep_every_leaf()
    ensures begins { WalkBegins }
    ensures down { WalkGoesDown }
    ensures on { WalkGoesOn }
    ensures ends { WalkEnds }
    ensures splits { WalkSplits }
{}

/// The report of a walk is fit, where leaves were joined or left out under what was known.
pub fn reports_are_fit()
    ensures nothing { NothingIsFound }
    ensures met { LeavesAreFound }
    ensures skipped { LeavesAreSkipped }
    ensures fit { ReportIsFit }
{}
