// The words of the command line.
ghost use Rattle.std.specs.Prelude.{map, IfOk, MatchOption, string_bytes};
ghost use Rattle.pp_language.specs.Commands.{AreWordsOf, AreWordsOfAlone};
ghost use Rattle.pp_propagation.specs.Replies.{IsUnserved};

use pp_language::{Command, CommandKind};
use pp_words::{WordsError, read_words};
use std::alloc::{AllocError, Global};

/// The command that the words ask for; `None` exactly where they ask for none.
pub(crate) fn command_of(alloc: Global, words: &[String]) -> Result<Option<Command>, AllocError>
    ensures { IfOk result (λ command. MatchOption command
        (IsUnserved AreWordsOf (map string_bytes words.now))
        (AreWordsOf (map string_bytes words.now))) }
{
    match read_words(alloc, words) {
        Ok(command) => Ok(Some(command)),
        Err(WordsError::Usage) => Ok(None),
        Err(WordsError::Memory) => Err(AllocError),
    }
}

/// The same where `alone` is asked for; `None` exactly where it is not.
pub(crate) fn command_of_alone(
    alloc: Global,
    words: &[String],
) -> Result<Option<Command>, AllocError>
    ensures { IfOk result (λ command. MatchOption command
        (IsUnserved AreWordsOfAlone (map string_bytes words.now))
        (AreWordsOfAlone (map string_bytes words.now))) }
{
    match command_of(alloc, words)? {
        Some(command) => {
            if command.kind == CommandKind::Alone {
                Ok(Some(command))
            } else {
                Ok(None)
            }
        }
        None => Ok(None),
    }
}
