//! The words of the command line.

ghost use Rattle.std.specs.Prelude.{◌≡◌, map};
ghost use Rattle.std.specs.Option.{option_map};
ghost use Rattle.std.specs.String.{string_bytes};
ghost use Rattle.commands.specs.Commands.{command_of, command_tree, is_file_word};

/// What the words ask for.
#[derive(Clone, Copy)]
pub enum Command<'a> {
    /// `check FILE`.
    Check {
        name: &'a str,
    },
    /// `derive SCRIPT CERTIFICATE`.
    Derive {
        script: &'a str,
        certificate: &'a str,
    },
}

/// The command that the words name; `None` exactly where they name none. They are the command line without
/// the program's name.
pub fn command_in(words: &[String]) -> Option<Command<'_>>
    ensures { option_map command_tree result ≡ command_of (map string_bytes words.now) }
{
    match words {
        [verb, name] if verb.as_str() == "check" && is_file_word(name.as_str()) => {
            Some(Command::Check {
                name: name.as_str(),
            })
        }
        [verb, script, certificate]
            if verb.as_str() == "derive"
                && is_file_word(script.as_str())
                && is_file_word(certificate.as_str()) => {
            Some(Command::Derive {
                script: script.as_str(),
                certificate: certificate.as_str(),
            })
        }
        _ => None,
    }
}

fn is_file_word(word: &str) -> bool
    ensures { result ≡ is_file_word word.now }
{
    match word.as_bytes() {
        [] => false,
        [first, ..] => *first != b'-',
    }
}
