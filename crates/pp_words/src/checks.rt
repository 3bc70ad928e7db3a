// The texts that are kept under each name, made into a command.
ghost use Rattle.std.specs.Prelude.{◌≡◌, option_map};
ghost use Rattle.std.specs.Option.{option_to_list};
ghost use Rattle.clap.specs.Words.{rows_of, found_of};
ghost use Rattle.pp_language.specs.Commands.{has_trace};
ghost use Rattle.pp_language.proofs.CommandsRead.{kind_by};
ghost use Rattle.pp_line.specs.Kept.{kept, texts_of, single, is_value, value_read, trace_read, kind_read, settings_read, command_read};
ghost use Rattle.pp_words.specs.Settings.{setting_of};

use crate::number::number;
use crate::setting::{Setting, default_value, greatest_value, has_setting};
use clap::ArgMatches;
use pp_language::{Command, CommandKind, MAKE_LIMIT, Settings, is_same};
use pp_line::kept;

fn has_trace(kind: CommandKind) -> bool
    ensures { result ≡ has_trace kind }
{
    !matches!(kind, CommandKind::Make(_))
}

/// Whether the command has the setting, and the value is within its limit.
fn is_value(kind: CommandKind, setting: Setting, value: u32) -> bool
    ensures { result ≡ is_value kind (setting_of setting) value }
{
    has_setting(kind, setting) && value >= 1 && u64::from(value) <= greatest_value(setting)
}

/// The only text, if there is one; `None` where there are more.
fn single<'a>(texts: Option<&[&'a str]>) -> Option<Option<&'a str>>
    ensures { option_map (option_map (λ t. t.now)) result ≡ single (texts_of texts.entry) }
{
    let Some(texts) = texts else {
        return Some(None);
    };
    match texts {
        [] => Some(None),
        [text] => Some(Some(*text)),
        _ => None,
    }
}

/// The value that a setting is given at most once, or its default.
fn value(kind: CommandKind, setting: Setting, texts: Option<&[&str]>) -> Option<u32>
    ensures { result ≡ value_read kind (setting_of setting) (texts_of texts.entry) }
{
    let given = single(texts)?;
    let Some(text) = given else {
        return Some(default_value(setting));
    };
    let value = number(text.as_bytes())?;
    if !is_value(kind, setting, value) {
        return None;
    }
    Some(value)
}

/// Whether `--trace` is given, at most once and to a command that takes it.
fn trace(kind: CommandKind, texts: Option<&[&str]>) -> Option<bool>
    ensures { result ≡ trace_read kind (texts_of texts.entry) }
{
    let traced = single(texts)?;
    match traced {
        None => Some(false),
        Some(_) if has_trace(kind) => Some(true),
        Some(_) => None,
    }
}

/// The command of this name, with the number that stands by itself.
fn named(name: &[u8], number: Option<u32>) -> Option<CommandKind>
    ensures { result ≡ kind_by name.now (option_to_list number) }
{
    match number {
        Some(number) if is_same(name, b"make") => Some(CommandKind::Make(number)),
        None if is_same(name, b"run") => Some(CommandKind::Run),
        None if is_same(name, b"alone") => Some(CommandKind::Alone),
        _ => None,
    }
}

/// The command of this name, with the texts that stand by themselves.
fn kind(name: &[u8], texts: Option<&[&str]>) -> Option<CommandKind>
    ensures { result ≡ kind_read name.now (texts_of texts.entry) }
{
    let text = single(texts)?;
    let Some(text) = text else {
        return named(name, None);
    };
    let count = number(text.as_bytes())?;
    if count >= 1 && count <= MAKE_LIMIT {
        named(name, Some(count))
    } else {
        None
    }
}

/// The settings that the kept texts give, each at most once.
fn settings(kind: CommandKind, matches: &ArgMatches<'_>) -> Option<Settings>
    ensures { result ≡ settings_read kind (kept (rows_of (found_of matches.now))) }
{
    let depth = value(kind, Setting::Depth, kept(matches, "depth"))?;
    let turns = value(kind, Setting::Turns, kept(matches, "turns"))?;
    let workers = value(kind, Setting::Workers, kept(matches, "workers"))?;
    let ahead = value(kind, Setting::Ahead, kept(matches, "ahead"))?;
    Some(Settings {
        depth,
        turns: u64::from(turns),
        workers,
        ahead,
    })
}

/// The command that a name and the kept texts give.
pub(crate) fn command(name: &[u8], matches: &ArgMatches<'_>) -> Option<Command>
    ensures { result ≡ command_read name.now (kept (rows_of (found_of matches.now))) }
{
    let kind = kind(name, kept(matches, "number"))?;
    let settings = settings(kind, matches)?;
    let trace = trace(kind, kept(matches, "trace"))?;
    Some(Command {
        kind,
        settings,
        trace,
    })
}
