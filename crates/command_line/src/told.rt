// What a program tells of itself.
ghost use Rattle.std.specs.Prelude.{◌≡◌, option_map};
ghost use Rattle.command_line.specs.Told.{asked_of};

use pk_types::Text;

/// The only word that asks for the help.
pub const HELP: &str = "--help";

/// The only word that asks for the version.
pub const VERSION: &str = "--version";

/// What a program tells of itself when it is asked for nothing else.
#[derive(Clone, Copy)]
pub struct ProgramTexts {
    /// How it is used.
    pub help: &'static str,
    /// Its name and its version.
    pub version: &'static str,
}

impl ProgramTexts {
    /// The text that the only word asks for: the help for `--help`, the version for `--version`.
    /// `None` exactly where there is no such word, or more than one.
    pub fn asked_by(&self, words: &[Text]) -> Option<&'static str>
        ensures asked { option_map (λ text. text.now) result ≡ asked_of self.now words.now }
    {
        match words {
            [word] if word.bytes() == HELP.as_bytes() => Some(self.help),
            [word] if word.bytes() == VERSION.as_bytes() => Some(self.version),
            _ => None,
        }
    }
}
