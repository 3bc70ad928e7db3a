//! Worked examples: theorems that compute.
ghost use Rattle.pp_language.specs.Examples.{AdjacentIntegersJoin, SpacedAtomIsQuoted, QuoteIsDoubled, InfersIsQuoted, PlainAtomIsPlain, CompoundIsWritten, RangesFollowColumns, NoLine, UsageLine};
ghost use Rattle.pp_language.specs.CommandExamples.{AloneIsPlain, BothSpellings, ZerosMayLead, NumberStandsLast, TraceIsTold, OthersAreNoWords, MoreAreNoWords};
ghost use Rattle.pp_language.specs.GeneratorExamples.{FirstNumbers, FirstAdder, LastAdder, ProgramLines, QueryOfTwo, LinesOfThree, ChangeIsTold, SummaryIsWritten, FailureIsSummed};
ghost use Rattle.pp_language.specs.ReadingExamples.{IntegersAreSpelled, InfersIsNoAtom, QuotesAreDoubled, CommentsAreGaps, PointEndsSentence, EmptyTextLacksQuery, ClausesAreCounted, ArgumentsAreCounted, FactsAreNumberedInOrder, NamedVariablesComeFirst};

/// How domains, atoms, terms and rows are written, and two of the fixed lines.
pub fn worked_examples()
    ensures adjacent_integers_join { AdjacentIntegersJoin }
    ensures spaced_atom_is_quoted { SpacedAtomIsQuoted }
    ensures quote_is_doubled { QuoteIsDoubled }
    ensures infers_is_quoted { InfersIsQuoted }
    ensures plain_atom_is_plain { PlainAtomIsPlain }
    ensures compound_is_written { CompoundIsWritten }
    ensures ranges_follow_columns { RangesFollowColumns }
    ensures no_line { NoLine }
    ensures usage_line { UsageLine }
{}

/// Which words ask for a command, and which for none.
pub fn worked_commands()
    ensures alone_is_plain { AloneIsPlain }
    ensures both_spellings { BothSpellings }
    ensures zeros_may_lead { ZerosMayLead }
    ensures number_stands_last { NumberStandsLast }
    ensures trace_is_told { TraceIsTold }
    ensures others_are_no_words { OthersAreNoWords }
    ensures more_are_no_words { MoreAreNoWords }
{}

/// The generated text, the line of a change, and the summary of a run.
pub fn worked_generator()
    ensures first_numbers { FirstNumbers }
    ensures first_adder { FirstAdder }
    ensures last_adder { LastAdder }
    ensures these_program_lines { ProgramLines }
    ensures query_of_two { QueryOfTwo }
    ensures lines_of_three { LinesOfThree }
    ensures change_is_told { ChangeIsTold }
    ensures summary_is_written { SummaryIsWritten }
    ensures failure_is_summed { FailureIsSummed }
{}

/// How texts are read: tokens, gaps, sentences, a fault, limits, a clause and a query.
pub fn worked_reading()
    ensures integers_are_spelled { IntegersAreSpelled }
    ensures infers_is_no_atom { InfersIsNoAtom }
    ensures quotes_are_doubled { QuotesAreDoubled }
    ensures comments_are_gaps { CommentsAreGaps }
    ensures point_ends_sentence { PointEndsSentence }
    ensures empty_text_lacks_query { EmptyTextLacksQuery }
    ensures clauses_are_counted { ClausesAreCounted }
    ensures arguments_are_counted { ArgumentsAreCounted }
    ensures facts_are_numbered_in_order { FactsAreNumberedInOrder }
    ensures named_variables_come_first { NamedVariablesComeFirst }
{}
