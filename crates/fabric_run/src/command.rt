//! The words of a command.
ghost use Rattle.std.specs.Prelude.{◌≡◌, map, string_bytes};
ghost use Rattle.fabric_run.specs.Commands.{command_named, command_of};

/// What the program can be asked to do.
#[derive(Clone, Copy, Debug, Drop, PartialEq, Eq)]
pub enum Command {
    /// Apply a script's requests in order to one table.
    Plain,
    /// Run a script's replicas to the end.
    Sim,
}

/// The command of a word, if it names one.
fn command_named(word: &str) -> Option<Command>
    ensures { result ≡ command_named word.now }
{
    match word {
        "plain" => Some(Command::Plain),
        "sim" => Some(Command::Sim),
        _ => None,
    }
}

/// The command that the words spell, if they spell one.
pub(crate) fn command_of(words: &[String]) -> Option<Command>
    ensures { result ≡ command_of (map string_bytes words.now) }
{
    match words {
        [word] => command_named(word.as_str()),
        _ => None,
    }
}
