//! The laws of the language.
ghost use Rattle.pp_language.specs.Laws.{HasOneReading, SaysOnce, GrammarHasNoFault, OneFirstFault, WritesOneProgram, PassesOneLimit, WritesOrPasses, HasOneCommand};

/// A text has one list of sentences and one ending.
pub fn tokenisation_is_unique()
    ensures { HasOneReading }
{}

/// A sentence is at most one statement.
pub fn statement_is_unique()
    ensures { SaysOnce }
{}

/// A text of the grammar has no fault, and any other text has one first fault at most.
pub fn first_fault_is_unique()
    ensures grammar { GrammarHasNoFault }
    ensures fault { OneFirstFault }
{}

/// A text of the grammar writes one program, or it passes one limit first.
pub fn program_is_unique()
    ensures program { WritesOneProgram }
    ensures limit { PassesOneLimit }
    ensures either { WritesOrPasses }
{}

/// Words ask for at most one command.
pub fn command_is_unique()
    ensures { HasOneCommand }
{}
