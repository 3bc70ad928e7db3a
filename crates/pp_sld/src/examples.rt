//! Worked examples of the definitions.
ghost use Rattle.pp_sld.specs.Examples.{ProductBeyondFails, ProductBinds, FactorWaits, PlusBindsTheThird, PlusTests, AtomFails, IndomainSplits, ComparisonWaits, MostNarrows, MostIsUnfinished, MostIsSame, UniqueNarrows, ConsistentSaysNothing, NoLeafFails};
ghost use Rattle.pp_sld.specs.SearchExamples.{EndsFollow, FactsAreTried, BuiltInIsPassed, LeftmostIsSelected, LeavesInOrder, PathsSkipBuiltIns, WorkGoesOn, WorkSplits, WorksInOrder, FindingsSettle, WalkStops};

/// What the built-ins decide on some arguments.
pub fn worked_decisions()
    ensures product_beyond_fails { ProductBeyondFails }
    ensures product_binds { ProductBinds }
    ensures factor_waits { FactorWaits }
    ensures plus_binds_the_third { PlusBindsTheThird }
    ensures plus_tests { PlusTests }
    ensures atom_fails { AtomFails }
    ensures indomain_splits { IndomainSplits }
    ensures comparison_waits { ComparisonWaits }
{}

/// The verdict in each mode on some answers and loose ends.
pub fn worked_verdicts()
    ensures most_narrows { MostNarrows }
    ensures most_is_unfinished { MostIsUnfinished }
    ensures most_is_same { MostIsSame }
    ensures unique_narrows { UniqueNarrows }
    ensures consistent_says_nothing { ConsistentSaysNothing }
    ensures no_leaf_fails { NoLeafFails }
{}

/// What follows a configuration, and its search tree.
pub fn worked_searches()
    ensures ends_follow { EndsFollow }
    ensures facts_are_tried { FactsAreTried }
    ensures built_in_is_passed { BuiltInIsPassed }
    ensures leftmost_is_selected { LeftmostIsSelected }
{}

/// The leaves of a tree, its paths and works, and where walks stop.
pub fn worked_works()
    ensures leaves_in_order { LeavesInOrder }
    ensures paths_skip_built_ins { PathsSkipBuiltIns }
    ensures work_goes_on { WorkGoesOn }
    ensures work_splits { WorkSplits }
    ensures works_in_order { WorksInOrder }
    ensures findings_settle { FindingsSettle }
    ensures walk_stops { WalkStops }
{}
