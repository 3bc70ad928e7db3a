// What the words ask for.
ghost use Rattle.std.specs.Prelude.{◌≡◌, ◌≢◌, map, string_bytes, IfOk, IsErrOf, not, []};
ghost use Rattle.std.specs.List.{list_all};
ghost use Rattle.clap.specs.Words.{rows_of, found_of};
ghost use Rattle.pp_language.specs.Commands.{AreWordsOf, AreNoWords};
ghost use Rattle.pp_line.specs.Kept.{is_short, is_open, line_faults, IsRead, words_read};
ghost use Rattle.pp_words.specs.Settings.{Gives};
ghost use Rattle.pp_words.specs.declared.words.WordsError.TheVariants.{Memory};

use crate::checks::command;
use clap::ArgMatches;
use clap::error::ErrorKind;
use pp_language::{Command, is_same};
use pp_line::read_line;
use std::alloc::{AllocError, Global};
use thiserror::Error;

/// Why words ask for no command.
#[derive(Clone, Copy, Debug, PartialEq, Eq, Error)]
pub enum WordsError {
    #[error("no such command")]
    Usage,
    #[error("out of memory")]
    Memory,
}

/// Whether the word begins with one hyphen and more behind it.
fn is_short(word: &[u8]) -> bool
    ensures { result ≡ is_short word.now }
{
    match word {
        [first, second, ..] => *first == b'-' && *second != b'-',
        _ => false,
    }
}

/// Whether the word is left to `clap`.
fn is_open(word: &[u8]) -> bool
    ensures { result ≡ is_open word.now }
{
    !is_same(word, b"--") && !is_short(word)
}

fn are_open(words: &[String]) -> bool
    ensures { result ≡ list_all (λ w. is_open (string_bytes w)) words.now }
{
    words.iter().all(|word| is_open(word.as_bytes()))
}

/// What `clap` keeps of the words, the first of which it takes for the program's name.
fn read<'a>(alloc: Global, words: &'a [String]) -> Result<ArgMatches<'a>, WordsError>
    ensures taken { IfOk result (λ m. IsRead (map string_bytes words.entry.now) (rows_of (found_of m))) }
    ensures refused { IsErrOf result WordsError.Usage → line_faults (map string_bytes words.entry.now) ≢ [] }
{
    match read_line(alloc, words) {
        Ok(matches) => Ok(matches),
        Err(error) => Err(match error.kind() {
            ErrorKind::OutOfMemory => WordsError::Memory,
            _ => WordsError::Usage,
        }),
    }
}

// The command that the words ask for, as the function of words says.
fn asked_by(alloc: Global, words: &[String]) -> Result<Command, WordsError>
    ensures { Gives (λ c. c) result (words_read (map string_bytes words.now)) }
{
    let [name, rest @ ..] = words else {
        return Err(WordsError::Usage);
    };
    if !are_open(rest) {
        return Err(WordsError::Usage);
    }
    let matches = read(alloc, words)?;
    match command(name.as_bytes(), &matches) {
        Some(command) => Ok(command),
        None => Err(WordsError::Usage),
    }
}

/// What the words behind the program's own name ask for.
///
/// A setting that no word gives a value has its default. Memory is taken by `clap` for what it keeps of the words.
pub fn read_words(alloc: Global, words: &[String]) -> Result<Command, WordsError>
    ensures command { IfOk result (λ c. AreWordsOf (map string_bytes words.now) c) }
    ensures usage { IsErrOf result WordsError.Usage → AreNoWords (map string_bytes words.now) }
{
    asked_by(alloc, words)
}
