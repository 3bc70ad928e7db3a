// What an option gives a value to.
ghost use Rattle.std.specs.Prelude.{◌≡◌};
ghost use Rattle.pp_language.specs.Commands.{greatest_value, default_value, has_setting};
ghost use Rattle.pp_words.specs.Settings.{setting_of};

use pp_language::{
    AHEAD_LIMIT, CommandKind, DEFAULT_AHEAD, DEFAULT_DEPTH, DEFAULT_TURNS, DEFAULT_WORKERS,
    DEPTH_LIMIT, TURN_LIMIT, WORKER_LIMIT,
};

/// A setting of a command.
#[derive(Clone, Copy, Debug, PartialEq, Eq)]
pub(crate) enum Setting {
    Workers,
    Ahead,
    Depth,
    Turns,
}

pub(crate) fn greatest_value(setting: Setting) -> u64
    ensures { result ≡ greatest_value (setting_of setting) }
{
    match setting {
        Setting::Workers => u64::from(WORKER_LIMIT),
        Setting::Ahead => u64::from(AHEAD_LIMIT),
        Setting::Depth => u64::from(DEPTH_LIMIT),
        Setting::Turns => TURN_LIMIT,
    }
}

pub(crate) fn default_value(setting: Setting) -> u32
    ensures { result ≡ default_value (setting_of setting) }
{
    match setting {
        Setting::Workers => DEFAULT_WORKERS,
        Setting::Ahead => DEFAULT_AHEAD,
        Setting::Depth => DEFAULT_DEPTH,
        Setting::Turns => DEFAULT_TURNS as u32,
    }
}

pub(crate) fn has_setting(kind: CommandKind, setting: Setting) -> bool
    ensures { result ≡ has_setting kind (setting_of setting) }
{
    !matches!(
        (kind, setting),
        (CommandKind::Alone, Setting::Workers | Setting::Ahead)
    )
}
