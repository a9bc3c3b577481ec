//! Whether words ask for help or for the version, and for nothing else.

ghost use Rattle.std.specs.Prelude.{◌≡◌, Err};
ghost use Rattle.std.specs.List.{list_any};
ghost use Rattle.std.specs.Str.{bytes_eq};
ghost use Rattle.tool_words.specs.HelpWords.{asks_help, asks_version, is_command, is_help, is_version};
ghost use Rattle.tool_words.specs.Reading.{Gives, Reading, if_alone, spelled};

use crate::command::{Form, forms};
use crate::end::WordsEnd;

/// Whether a name is that of one of these commands.
fn is_name_in(commands: &[Form], name: &str) -> bool
    ensures { result ≡ list_any (λ command. bytes_eq name.now command.name.now) commands.now }
{
    for command in commands {
        if name == command.name {
            return true;
        }
    }
    false
}

/// Whether a word is a command's name.
fn is_command(name: &str) -> bool
    ensures { result ≡ is_command name.now }
{
    is_name_in(forms(), name)
}

/// Whether a word asks for help.
fn is_help(word: &str) -> bool
    ensures { result ≡ is_help word.now }
{
    matches!(word, "-h" | "--help")
}

/// Whether a word asks for the version.
fn is_version(word: &str) -> bool
    ensures { result ≡ is_version word.now }
{
    matches!(word, "-V" | "--version")
}

/// Whether the words ask for help, of the program or of a command, and for nothing else.
fn asks_help(words: &[String]) -> bool
    ensures { result ≡ asks_help (spelled words.now) }
{
    match words {
        [_, word] => is_help(word.as_str()),
        [_, name, word] => is_command(name.as_str()) && is_help(word.as_str()),
        _ => false,
    }
}

/// Whether the words ask for the version, and for nothing else.
fn asks_version(words: &[String]) -> bool
    ensures { result ≡ asks_version (spelled words.now) }
{
    match words {
        [_, word] => is_version(word.as_str()),
        _ => false,
    }
}

/// What an end comes to where help and the version are told only if nothing else is asked for.
pub(crate) fn if_alone(words: &[String], end: WordsEnd) -> WordsEnd
    ensures { (reading : Reading) → Gives reading (Err end) → Gives (if_alone (spelled words.now) reading) (Err result) }
{
    match end {
        WordsEnd::Help(_) if !asks_help(words) => WordsEnd::Refused,
        WordsEnd::Version(_) if !asks_version(words) => WordsEnd::Refused,
        end => end,
    }
}
