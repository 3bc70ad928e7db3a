//! Worked examples of the definitions.
ghost use Rattle.pp_fixpoint.specs.Examples.{FourteenAreEnough, TwoAreEnough, AnyIsLeftOut};

/// How many turns are enough for two goals over three variables.
pub fn worked_turns_are_enough()
    ensures fourteen { FourteenAreEnough }
    ensures two { TwoAreEnough }
    ensures any { AnyIsLeftOut }
{}
