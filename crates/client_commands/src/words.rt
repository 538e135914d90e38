// What the words give the options of a command line.
ghost use Rattle.std.specs.Prelude.{◌≡◌, true, map, IfOk};
ghost use Rattle.std.specs.Option.{option_map};
ghost use Rattle.clap.specs.Words.{app_of, first_of, found_of, is_simple, is_simple_and_free, rows_of};
ghost use Rattle.command_line.specs.Doors.{text_in};
ghost use Rattle.client_commands.specs.Options.{Gives, GivesRows, rows_in};

use clap::error::ErrorKind;
use clap::{ArgMatches, Command, Error};
use pk_types::{NoMemory, Text, TextFault};
use std::alloc::{AllocError, Global};
use std::{fmt, str};

/// What a value is not where its option is absent.
pub const GIVEN: &str = "given";

/// What a value is not where it has a byte 0 or is too long.
pub const A_TEXT: &str = "a text";

/// What a value is not where it names no door.
pub const A_DOOR: &str = "UID:PATH";

/// Why words are not in the grammar of a client.
#[derive(Drop)]
pub enum WordsFault {
    /// They are not such options, with this text of `clap`.
    Command(Error),
    /// The value of an option does not have its form.
    Value {
        /// The name of the option, without the dashes.
        option: &'static str,
        /// The form that the value does not have.
        form: &'static str,
    },
    /// Memory was refused.
    NoMemory,
}

impl From<NoMemory> for WordsFault {
    ghost use Rattle.std.specs.Prelude.{◌≡◌};
    ghost use Rattle.client_commands.specs.declared.words.WordsFault.TheVariants as fault;

    ghost from_gives = { λ _ e. e ≡ fault.NoMemory };

    fn from(_: NoMemory) -> Self {
        WordsFault::NoMemory
    }
}

impl From<AllocError> for WordsFault {
    ghost use Rattle.std.specs.Prelude.{◌≡◌};
    ghost use Rattle.client_commands.specs.declared.words.WordsFault.TheVariants as fault;

    ghost from_gives = { λ _ e. e ≡ fault.NoMemory };

    fn from(_: AllocError) -> Self {
        WordsFault::NoMemory
    }
}

impl fmt::Display for WordsFault {
    fn fmt<W: fmt::Write>(&self, f: &mut fmt::Formatter<W>) -> fmt::Result {
        match self {
            WordsFault::Command(error) => write!(f, "{error}"),
            WordsFault::Value { option, form } => {
                writeln!(f, "error: the value of '--{option}' is not {form}")
            }
            WordsFault::NoMemory => writeln!(f, "error: out of memory"),
        }
    }
}

/// A text as the characters that it is.
fn as_str(text: &Text) -> &str
    ensures same { result.now ≡ text.now }
{
    match str::from_utf8(text.bytes()) {
        Ok(characters) => characters,
        Err(_) => unreachable!(),
    }
}

/// The words as characters.
pub fn strings<'a>(alloc: Global, words: &'a [Text]) -> Result<Vec<&'a str>, NoMemory>
    ensures same { IfOk result (λ strings. map (λ s. s.now) strings.items ≡ words.now) }
{
    let mut strings = Vec::new(alloc);
    for word in words {
        strings.push(as_str(word))?;
    }
    Ok(strings)
}

/// What the words give the options of a command line.
///
/// # Errors
/// `NoMemory`, which may come in place of any other answer; `Command` exactly where `clap` refuses the
/// words.
pub fn matches<'a>(command: Command<'a>, words: &'a [&'a str]) -> Result<ArgMatches<'a>, WordsFault>
    requires simple { is_simple (app_of command) ≡ true }
    requires free { is_simple_and_free (app_of command) ≡ true }
    ensures rows { GivesRows (rows_in (app_of command.entry) (map (λ s. s.now) words.entry.now)) result }
{
    match command.try_get_matches_from(words) {
        Ok(matches) => Ok(matches),
        Err(error) => match error.kind() {
            ErrorKind::OutOfMemory => Err(WordsFault::NoMemory),
            _ => Err(WordsFault::Command(error)),
        },
    }
}

/// The value that the words give an option.
#[tactic(auto, using(crate::proofs::Planning::value_is))]
pub fn value_of<'a>(matches: &ArgMatches<'a>, option: &str) -> Option<&'a str>
    ensures value { option_map (λ s. s.now) result ≡ first_of option.now (rows_of (found_of matches.now)) }
{
    matches.get_str(option)
}

/// The text that the value of an option is.
pub fn text_in(alloc: Global, value: &str, option: &'static str) -> Result<Text, WordsFault>
    ensures text { Gives (text_in value.now) result }
{
    match Text::try_from_bytes(alloc, value.as_bytes()) {
        Ok(text) => Ok(text),
        Err(TextFault::NoMemory) => Err(WordsFault::NoMemory),
        Err(TextFault::TooLong { .. }) => Err(WordsFault::Value {
            option,
            form: A_TEXT,
        }),
        Err(TextFault::BadByte { .. }) => Err(WordsFault::Value {
            option,
            form: A_TEXT,
        }),
    }
}
