// The command that the words name.
ghost use Rattle.std.specs.Prelude.{◌≡◌};
ghost use Rattle.std.specs.Option.{option_map};
ghost use Rattle.ocsf_tool.specs.Commands.{command_of, is_folder_name};
ghost use Rattle.ocsf_tool.specs.Ends.{named_command};

use ocsf_tree::Text;

/// A command, with what its words name.
pub enum Command<'a> {
    Edits,
    /// The folder's name.
    Compile(&'a str),
    /// The folder's name.
    Validate(&'a str),
}

/// Whether the word isn't empty and doesn't begin with `-`.
fn is_folder_name(word: &str) -> bool
    ensures { result ≡ is_folder_name word.now }
{
    match word.as_bytes() {
        [first, ..] => *first != b'-',
        [] => false,
    }
}

/// The command that the words name, if they name one.
pub fn command_of(words: &[Text]) -> Option<Command<'_>>
    ensures { option_map named_command result ≡ command_of words.now }
{
    match words {
        [word] if word.as_str() == "edits" => Some(Command::Edits),
        [word, dir] if word.as_str() == "compile" && is_folder_name(dir.as_str()) => {
            Some(Command::Compile(dir.as_str()))
        }
        [word, dir] if word.as_str() == "validate" && is_folder_name(dir.as_str()) => {
            Some(Command::Validate(dir.as_str()))
        }
        _ => None,
    }
}
