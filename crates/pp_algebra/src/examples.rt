//! Worked examples of the definitions.
ghost use Rattle.pp_algebra.specs.Examples.{EqualPairsShare, OtherPairSeparates, IntegerAndAtom, CompoundsShare, NumberedByFirst, TwoVariablesCover, OneVariableDoesNot, MemberIsCovered, OtherIntegerIsNot, AnyIsNot, EquationSolves, CircleHasNone, DomainsMeet};
ghost use Rattle.pp_algebra.specs.SolvingExamples.{SameSides, SidesDiffer, AnyIsReplaced, RangedIsReplaced, RangedAreMerged, MembersHold, VariablesAreNarrowed};

/// What small rows have in common, how their variables are numbered, what covers what, and what solves what.
pub fn worked_examples()
    ensures equal_pairs_share { EqualPairsShare }
    ensures other_pair_separates { OtherPairSeparates }
    ensures integer_and_atom { IntegerAndAtom }
    ensures compounds_share { CompoundsShare }
    ensures numbered_by_first { NumberedByFirst }
    ensures two_variables_cover { TwoVariablesCover }
    ensures one_variable_does_not { OneVariableDoesNot }
    ensures member_is_covered { MemberIsCovered }
    ensures other_integer_is_not { OtherIntegerIsNot }
    ensures any_is_not { AnyIsNot }
    ensures equation_solves { EquationSolves }
    ensures circle_has_none { CircleHasNone }
    ensures domains_meet { DomainsMeet }
{}

/// How items are solved, one example or more for each kind of item.
pub fn worked_solving()
    ensures same_sides { SameSides }
    ensures sides_differ { SidesDiffer }
    ensures any_is_replaced { AnyIsReplaced }
    ensures ranged_is_replaced { RangedIsReplaced }
    ensures ranged_are_merged { RangedAreMerged }
    ensures members_hold { MembersHold }
    ensures variables_are_narrowed { VariablesAreNarrowed }
{}
