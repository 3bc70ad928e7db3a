//! What a sequence of calls comes to, as a call whose contract is the law.
ghost use Rattle.pp_unify.specs.Laws.{SolvedInTurn, SolvedInAnyTurn};

/// Items that are solved one after another, as `unify` and `narrow` do, give the row of all of them at once, or
/// none where there is none; so their order doesn't matter.
pub fn items_have_no_order()
    ensures in_turn { SolvedInTurn }
    ensures any_turn { SolvedInAnyTurn }
{}
