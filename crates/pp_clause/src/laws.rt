//! The law of the index.
ghost use Rattle.pp_clause.specs.Laws.{LeftOutAreDead};

/// The clauses that an index leaves out lead nowhere: no instance of a goal's first argument equals one of theirs.
pub fn places_left_out_are_dead()
    ensures { LeftOutAreDead }
{}
