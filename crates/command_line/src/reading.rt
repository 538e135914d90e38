// The words behind the name of a program.
ghost use Rattle.std.specs.Prelude.{◌≡◌, map, string_bytes};
ghost use Rattle.command_line.specs.Words.{Reads, ReadsText};

use pk_types::{List, NoMemory, Text, TextFault, TextList};
use std::alloc::Global;
use std::rt::Env;
use std::{env, io};

/// Why a program has no words.
#[derive(Clone, Copy, Debug, PartialEq, Eq)]
pub enum WordsRefused {
    /// A word is not a text: it is not UTF-8, or it has more than 65,535 bytes.
    NotText,
    /// Memory was refused.
    NoMemory,
}

impl From<NoMemory> for WordsRefused {
    ghost use Rattle.std.specs.Prelude.{◌≡◌};
    ghost use Rattle.command_line.specs.declared.reading.WordsRefused.TheVariants as refused;

    ghost from_gives = { λ _ e. e ≡ refused.NoMemory };

    fn from(_: NoMemory) -> Self {
        WordsRefused::NoMemory
    }
}

impl From<io::Error> for WordsRefused {
    fn from(fault: io::Error) -> Self {
        match fault.kind() {
            io::ErrorKind::OutOfMemory => WordsRefused::NoMemory,
            _ => WordsRefused::NotText,
        }
    }
}

/// The text of a word.
fn text_of(alloc: Global, word: &str) -> Result<Text, WordsRefused>
    ensures text { ReadsText word.now result }
{
    match Text::try_from_bytes(alloc, word.as_bytes()) {
        Ok(text) => Ok(text),
        Err(TextFault::NoMemory) => Err(WordsRefused::NoMemory),
        Err(TextFault::TooLong { .. }) => Err(WordsRefused::NotText),
        Err(TextFault::BadByte { .. }) => Err(WordsRefused::NotText),
    }
}

/// The words as texts.
///
/// # Errors
/// `NotText` only where a word is not a text; `NoMemory`, which may come in place of any other answer.
pub fn read_texts(alloc: Global, words: &[String]) -> Result<TextList, WordsRefused>
    ensures texts { Reads (map string_bytes words.now) result }
{
    let mut texts = List::new(alloc);
    for word in words {
        texts.try_push(text_of(alloc, word.as_str())?)?;
    }
    Ok(texts)
}

/// The words with which the program was started, behind its name, as texts.
///
/// # Errors
/// `NotText` where a word is not a text; `NoMemory`, which may come in place of any other answer.
pub fn words<R: Env + AllocGlobal>(rt: &R) -> Result<TextList, WordsRefused> {
    let mut given = Vec::new(rt.alloc());
    for word in env::args(rt)?.skip(1) {
        given.push(word).map_err(|_| WordsRefused::NoMemory)?;
    }
    read_texts(rt.alloc(), given.as_slice())
}
