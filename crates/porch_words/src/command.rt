//! The commands that have options.

ghost use Rattle.std.specs.Prelude.{◌≡◌, ◌||◌};
ghost use Rattle.porch_words.specs.Spelling.{is_session, is_run, is_vet, has_option};
ghost use Rattle.porch_words.specs.inside.Reading.{command_of};

use crate::option::Key;

/// A command that may have options.
#[derive(Clone, Copy, Debug, PartialEq, Eq)]
pub(crate) enum Command {
    Exec,
    Compile,
    Start,
    Resume,
    Clear,
    Vet,
    Show,
}

/// The command of this name.
pub(crate) fn command_of(name: &str) -> Option<Command>
    ensures { result ≡ command_of name.now }
{
    match name {
        "exec" => Some(Command::Exec),
        "compile" => Some(Command::Compile),
        "start" => Some(Command::Start),
        "resume" => Some(Command::Resume),
        "clear" => Some(Command::Clear),
        "vet" => Some(Command::Vet),
        "show" => Some(Command::Show),
        _ => None,
    }
}

/// Whether a command has an option.
pub(crate) fn has_option(command: Command, key: Key) -> bool
    ensures { result ≡ has_option command key }
{
    match key {
        Key::Layout | Key::Stack | Key::Heap => is_run(command),
        Key::Every => is_session(command),
        Key::Turns => is_run(command) || is_vet(command),
        Key::Widths => is_vet(command),
    }
}

fn is_session(command: Command) -> bool
    ensures { result ≡ is_session command }
{
    matches!(command, Command::Start | Command::Resume)
}

fn is_run(command: Command) -> bool
    ensures { result ≡ is_run command }
{
    matches!(command, Command::Exec | Command::Start | Command::Resume)
}

fn is_vet(command: Command) -> bool
    ensures { result ≡ is_vet command }
{
    matches!(command, Command::Vet)
}
