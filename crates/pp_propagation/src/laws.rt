//! The laws of runs.
ghost use Rattle.pp_language.specs.Commands.{AreWordsOf, AreWordsOfAlone};
ghost use Rattle.pp_propagation.specs.Laws.{FacesAreRows, StoresStayRows, HasOneTurn, HasOneRunFrom, HasOneRun, TurnsAreCounted, RunsGoOn, RunsPassThrough, ServesOne, RepliesOnce, HasReply, NotedInTurn, NothingNoted};

/// Faces and stores are rows, numbered by first occurrence and with domains of two integers or more.
pub fn faces_and_stores_are_rows()
    ensures faces { FacesAreRows }
    ensures stores { StoresStayRows }
{}

/// A state has at most one turn. From each store there is one run at given settings, and so a query has one.
pub fn run_is_unique()
    ensures turn { HasOneTurn }
    ensures from_store { HasOneRunFrom }
    ensures of_query { HasOneRun }
{}

/// A run passes through each state to which whole turns lead, and goes on from there; each turn is one entry of its
/// history.
pub fn run_is_made_of_turns()
    ensures counted { TurnsAreCounted }
    ensures goes_on { RunsGoOn }
    ensures passes_through { RunsPassThrough }
{}

/// Words ask for at most one command. Words, a text and the watchers before call for at most one reply, which says what
/// the watchers are then, and for one where it is known what the words ask for and what the text means. So it is for
/// the
/// program's words, and for those of the command `alone`.
pub fn reply_is_unique()
    ensures words { ServesOne AreWordsOf }
    ensures alone_words { ServesOne AreWordsOfAlone }
    ensures program { RepliesOnce AreWordsOf }
    ensures alone { RepliesOnce AreWordsOfAlone }
    ensures program_has { HasReply AreWordsOf }
    ensures alone_has { HasReply AreWordsOfAlone }
{}

/// Watchers may note changes one after another, or all at once.
pub fn watchers_note_in_turn()
    ensures in_turn { NotedInTurn }
    ensures nothing { NothingNoted }
{}
