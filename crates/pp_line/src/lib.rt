//! The words behind a command's name as `clap` reads them: which it takes, and what it keeps of them.
#![tactic(auto)]

ghost use Rattle.std.specs.Prelude.{◌≡◌, ◌≢◌, IfOk, IfErr, false, map, string_bytes, []};
ghost use Rattle.clap.specs.Words.{app_of, rule_of, rows_of, found_of, kind_of};
ghost use Rattle.clap.specs.declared.error.kind.ErrorKind.TheVariants.{OutOfMemory};
ghost use Rattle.pp_line.specs.Line.{line, option_rule, trace_rule, number_rule};
ghost use Rattle.pp_line.specs.Kept.{kept, texts_of, line_faults, IsRead};

use clap::{Arg, ArgAction, ArgMatches, Command, Error};
use std::alloc::{AllocError, Global};

/// An option that takes a value.
fn option<'a>(alloc: Global, name: &'a str) -> Arg<'a>
    ensures rule { rule_of result ≡ option_rule name.entry.now }
    ensures own { result.global ≡ false }
{
    Arg::new(alloc, name).long(name).action(ArgAction::Append)
}

/// The option `--trace`, each of whose uses stands for one empty value.
fn trace<'a>(alloc: Global) -> Arg<'a>
    ensures rule { rule_of result ≡ trace_rule }
    ensures own { result.global ≡ false }
{
    Arg::new(alloc, "trace")
        .long("trace")
        .action(ArgAction::Append)
        .num_args(0)
        .default_missing_value("")
}

/// The words behind a command's name.
fn command_line<'a>(alloc: Global) -> Result<Command<'a>, AllocError>
    ensures { IfOk result (λ c. app_of c ≡ line) }
{
    let number = Arg::new(alloc, "number").action(ArgAction::Append);
    Command::new(alloc, "propia")
        .disable_help_flag(true)
        .arg(option(alloc, "workers"))?
        .arg(option(alloc, "ahead"))?
        .arg(option(alloc, "depth"))?
        .arg(option(alloc, "turns"))?
        .arg(trace(alloc))?
        .arg(number)
}

/// What `clap` keeps of the words, the first of which stands for the program's name.
pub fn read_line<'a>(alloc: Global, words: &'a [String]) -> Result<ArgMatches<'a>, Error>
    ensures taken { IfOk result (λ m. IsRead (map string_bytes words.entry.now) (rows_of (found_of m))) }
    ensures refused { IfErr result (λ e. (kind_of e ≢ OutOfMemory)
        → line_faults (map string_bytes words.entry.now) ≢ []) }
{
    let command = command_line(alloc)?;
    command.try_get_matches_from(words)
}

/// The texts that are kept under a name, in the order of the words; `None` where there are none.
pub fn kept<'m, 'a>(matches: &'m ArgMatches<'a>, name: &str) -> Option<&'m [&'a str]>
    ensures { texts_of result ≡ kept (rows_of (found_of matches.entry.now)) name.now }
{
    matches.get_raw(name)
}
