// What is wrong with words that name no command.
//
// `polkit_daemon` decides whether words name a command. Where they do not, this goes through them once
// more, part by part, and says at which of them they leave the form of their command.

use command_line::is_door;
use pk_types::{Text, number};
use serve_words::{is_root, positive};
use std::{fmt, str};

/// What a value is to be.
#[derive(Clone, Copy)]
pub(crate) enum Form {
    /// The path of a root.
    Root,
    /// The path of a file.
    File,
    /// A door.
    Door,
    /// The number of a user.
    User,
    /// A number from 1 to this one.
    UpTo(u64),
    /// None: the option stands alone.
    Nothing,
}

/// How often a part comes.
#[derive(Clone, Copy, PartialEq, Eq)]
pub(crate) enum Times {
    /// Once.
    Once,
    /// Once or not at all.
    Perhaps,
    /// Once or more.
    Repeated,
}

/// A part of a command: an option with its value, a value alone, or an option alone.
#[derive(Clone, Copy)]
pub(crate) struct Part {
    /// The option. It is empty where the value stands alone.
    option: &'static str,
    /// What the usage calls the value. It is empty where the option stands alone.
    value: &'static str,
    form: Form,
    times: Times,
}

/// Where words leave the form of their command.
#[derive(Clone, Copy)]
pub(crate) enum WordsFault<'a> {
    /// There is no word.
    NoCommand,
    /// The first word is not a command.
    NotACommand { word: &'a str },
    /// A part is required before this word, or at the end.
    Required { part: Part, before: Option<&'a str> },
    /// An option is the last word.
    NoValue { part: Part },
    /// A value has another form.
    OutOfForm { part: Part, value: &'a str },
    /// A word follows where the command ends.
    Unexpected { word: &'a str },
    /// There are more slots over all doors than a service has.
    TooManySlots,
}

/// How words begin.
enum Beginning<'a> {
    /// With the part, and these follow.
    Part { rest: &'a [Text] },
    /// Not with the part.
    Other,
    /// With the part, which has this fault.
    Fault(WordsFault<'a>),
}

const ROOT: Part = Part {
    option: "--root",
    value: "DIR",
    form: Form::Root,
    times: Times::Once,
};

const ENTRIES: Part = Part {
    option: "--entries",
    value: "K",
    form: Form::UpTo(1_048_576),
    times: Times::Perhaps,
};

const REPLAY: [Part; 2] = [
    Part {
        option: "--root",
        value: "DIR",
        form: Form::Root,
        times: Times::Perhaps,
    },
    ENTRIES,
];

const SEGMENTS: [Part; 3] = [
    Part {
        option: "--root",
        value: "DIR",
        form: Form::Root,
        times: Times::Perhaps,
    },
    Part {
        option: "--segments",
        value: "PATH",
        form: Form::File,
        times: Times::Once,
    },
    Part {
        option: "--per",
        value: "K",
        form: Form::UpTo(1_048_576),
        times: Times::Once,
    },
];

const PIPE: [Part; 3] = [
    Part {
        option: "",
        value: "UID",
        form: Form::User,
        times: Times::Once,
    },
    ROOT,
    ENTRIES,
];

const LIVE: Part = Part {
    option: "--live",
    value: "",
    form: Form::Nothing,
    times: Times::Perhaps,
};

const AUDIT: Part = Part {
    option: "--audit",
    value: "",
    form: Form::Nothing,
    times: Times::Perhaps,
};

const SERVE: [Part; 7] = [
    ROOT,
    Part {
        option: "--door",
        value: "UID:PATH",
        form: Form::Door,
        times: Times::Repeated,
    },
    Part {
        option: "--slots",
        value: "N",
        form: Form::UpTo(64),
        times: Times::Once,
    },
    Part {
        option: "--stop-after",
        value: "K",
        form: Form::UpTo(1_000_000),
        times: Times::Perhaps,
    },
    ENTRIES,
    LIVE,
    AUDIT,
];

const LOAD: [Part; 1] = [Part {
    option: "",
    value: "N",
    form: Form::UpTo(100_000),
    times: Times::Once,
}];

/// A text as it is printed.
fn shown(text: &Text) -> &str {
    str::from_utf8(text.bytes()).unwrap_or("")
}

impl Form {
    /// Whether a value has the form.
    fn is_of(self, value: &Text) -> bool {
        match self {
            Form::Root => is_root(value),
            Form::File => !value.bytes().is_empty(),
            Form::Door => is_door(value.bytes()),
            Form::User => number(value.bytes()).is_some(),
            Form::UpTo(greatest) => positive(value.bytes(), greatest).is_some(),
            Form::Nothing => false,
        }
    }
}

impl Part {
    /// What the words say of the value with which they begin.
    fn value_in<'a>(self, words: &'a [Text]) -> Beginning<'a> {
        match words {
            [] => Beginning::Fault(WordsFault::NoValue { part: self }),
            [value, rest @ ..] => {
                if self.form.is_of(value) {
                    Beginning::Part { rest }
                } else {
                    Beginning::Fault(WordsFault::OutOfForm {
                        part: self,
                        value: shown(value),
                    })
                }
            }
        }
    }

    /// Whether words begin with the part.
    fn beginning<'a>(self, words: &'a [Text]) -> Beginning<'a> {
        match words {
            [] => Beginning::Other,
            [option, rest @ ..] => {
                if self.option.is_empty() {
                    self.value_in(words)
                } else if option.bytes() != self.option.as_bytes() {
                    Beginning::Other
                } else if self.value.is_empty() {
                    Beginning::Part { rest }
                } else {
                    self.value_in(rest)
                }
            }
        }
    }

    /// The words after the part, as often as it comes.
    fn after<'a>(self, words: &'a [Text]) -> Result<&'a [Text], WordsFault<'a>> {
        let most = match self.times {
            Times::Repeated => words.len(),
            Times::Once | Times::Perhaps => 1,
        };
        let mut rest = words;
        for _ in 0..most {
            match self.beginning(rest) {
                Beginning::Part { rest: later } => rest = later,
                Beginning::Other => break,
                Beginning::Fault(fault) => return Err(fault),
            }
        }
        if rest.len() == words.len() && self.times != Times::Perhaps {
            return Err(WordsFault::Required {
                part: self,
                before: rest.first().map(|word| shown(word)),
            });
        }
        Ok(rest)
    }
}

/// What is wrong with the words of a command of these parts, if one of its parts tells it.
fn fault_in<'a>(parts: &[Part], words: &'a [Text]) -> Option<WordsFault<'a>> {
    let mut rest = words;
    for part in parts {
        match part.after(rest) {
            Ok(later) => rest = later,
            Err(fault) => return Some(fault),
        }
    }
    match rest {
        [] => None,
        [word, ..] => Some(WordsFault::Unexpected { word: shown(word) }),
    }
}

/// Whether words ask for a journal in segments.
fn is_in_segments(words: &[Text]) -> bool {
    words
        .iter()
        .any(|word| word.bytes() == b"--segments".as_slice())
}

/// What is wrong with words that name no command.
pub(crate) fn words_fault<'a>(words: &'a [Text]) -> Option<WordsFault<'a>> {
    let [first, rest @ ..] = words else {
        return Some(WordsFault::NoCommand);
    };
    match shown(first) {
        "replay" if is_in_segments(rest) => fault_in(&SEGMENTS, rest),
        "replay" | "audit" => fault_in(&REPLAY, rest),
        "pipe" => fault_in(&PIPE, rest),
        "load" => fault_in(&LOAD, rest),
        "serve" => Some(fault_in(&SERVE, rest).unwrap_or(WordsFault::TooManySlots)),
        "--help" | "--version" => fault_in(&[], rest),
        word => Some(WordsFault::NotACommand { word }),
    }
}

impl fmt::Display for Form {
    fn fmt<W: fmt::Write>(&self, f: &mut fmt::Formatter<W>) -> fmt::Result {
        match self {
            Form::Root => write!(f, "a path without '/' at its end"),
            Form::File => write!(f, "a path"),
            Form::Door => write!(f, "a number of 32 bits, ':' and a path"),
            Form::User => write!(f, "a number of 32 bits"),
            Form::UpTo(greatest) => write!(f, "a number from 1 to {greatest}"),
            Form::Nothing => write!(f, "no value"),
        }
    }
}

impl fmt::Display for Part {
    fn fmt<W: fmt::Write>(&self, f: &mut fmt::Formatter<W>) -> fmt::Result {
        if self.option.is_empty() {
            write!(f, "'{}'", self.value)
        } else if self.value.is_empty() {
            write!(f, "'{}'", self.option)
        } else {
            write!(f, "'{} {}'", self.option, self.value)
        }
    }
}

impl<'a> fmt::Display for WordsFault<'a> {
    fn fmt<W: fmt::Write>(&self, f: &mut fmt::Formatter<W>) -> fmt::Result {
        match self {
            WordsFault::NoCommand => {
                write!(
                    f,
                    "a command is required: replay, audit, pipe, serve or load"
                )
            }
            WordsFault::NotACommand { word } => {
                write!(
                    f,
                    "'{word}' is not a command: replay, audit, pipe, serve or load"
                )
            }
            WordsFault::Required {
                part,
                before: Some(word),
            } => write!(f, "{part} is required before '{word}'"),
            WordsFault::Required { part, before: None } => {
                write!(f, "{part} is required at the end")
            }
            WordsFault::NoValue { part } => {
                write!(f, "a value is required for {part} but none was supplied")
            }
            WordsFault::OutOfForm { part, value } => {
                write!(f, "the value '{value}' of {part} is not {}", part.form)
            }
            WordsFault::Unexpected { word } => write!(f, "unexpected argument '{word}' found"),
            WordsFault::TooManySlots => write!(
                f,
                "the value of '--slots N' is too great: slots times doors is at most 64"
            ),
        }
    }
}
