//! The program `pkexplain`, over the files of the system.
//!
//! What an explanation is is proved of `pkexplain_tool::pkexplain`; this program passes the words and
//! standard output on, and tells on standard error how it ended.
#![tactic(auto)]

use command_line::{ProgramTexts, WordsRefused, words};
use pk_outside::Tree;
use pk_types::Text;
use pkexplain_tool::{ExplainStatus, pkexplain};
use real_outside::{DirTree, WriteSink};
use std::io;
use std::process::ExitCode;

/// What the program tells of itself.
const TEXTS: ProgramTexts = ProgramTexts {
    help: "usage: pkexplain --root DIR

Says what decides each action for each user of a root, and which rules decide nothing.

  --root DIR  the action files, rules, users and groups below DIR; DIR does not end in '/'

Options, each alone:
  --help     shows this text
  --version  shows the version

Standard output has these lines:
  skipped FILE KIND AT                 a file, or an action in one, that is skipped
  UID CATEGORY ACTION VALUE CAUSE      CATEGORY is any, inactive or active, and CAUSE is root,
                                       default:CATEGORY or entry:PLACE
  dead PLACE                           a rule that decides nothing
  live PLACE UID CATEGORY ACTION       a rule, with the first that it decides
Exit status: 0 done, 1 usage, 2 the files below DIR cannot be read or are refused, 4 write fault,
70 out of memory. Any but 0 is told on standard error.
",
    version: "pkexplain 0.105.0 (proved 0.2.0)\n",
};

/// What is wrong with words that are not `--root DIR`.
fn fault_of(words: &[Text]) -> &'static str {
    match words {
        [] => "error: '--root DIR' is required",
        [option, ..] if option.bytes() != b"--root".as_slice() => {
            "error: the first word is not '--root'"
        }
        [_] => "error: a value is required for '--root DIR' but none was supplied",
        [_, _] => "error: the value of '--root DIR' is not a path without '/' at its end",
        _ => "error: a word behind '--root DIR'",
    }
}

/// Tells on standard error how an explanation ended that is not done.
fn tell<R: Eprint>(rt: &R, words: &[Text], status: &ExplainStatus) {
    match status {
        ExplainStatus::Done => {}
        ExplainStatus::Usage => TEXTS.tell_usage(rt, fault_of(words)),
        _ => {
            let _ = eprintln!(rt; "{status}");
        }
    }
}

/// Does what the words ask.
fn explain<R: Print + AllocGlobal + Sync, T: Tree>(
    rt: &R,
    words: &[Text],
    tree: &mut T,
) -> ExplainStatus {
    if let Some(text) = TEXTS.asked_by(words) {
        return match print!(rt; "{text}") {
            Ok(()) => ExplainStatus::Done,
            Err(_) => ExplainStatus::WriteFault,
        };
    }
    let mut output = WriteSink::new(io::writer(rt));
    pkexplain(rt.alloc(), words, tree, &mut output)
}

/// How the program ends where its words could not be read.
fn without_words<R: Eprint>(rt: &R, refused: WordsRefused) -> ExplainStatus {
    match refused {
        WordsRefused::NotText => {
            TEXTS.tell_usage(rt, "error: a word is not a text");
            ExplainStatus::Usage
        }
        WordsRefused::NoMemory => {
            let _ = eprintln!(rt; "{}", ExplainStatus::NoMemory);
            ExplainStatus::NoMemory
        }
    }
}

fn main(rt: HostRuntime) -> ExitCode {
    let mut tree = DirTree::new(&rt);
    let status = match words(&rt) {
        Ok(words) => {
            let status = explain(&rt, words.as_slice(), &mut tree);
            tell(&rt, words.as_slice(), &status);
            status
        }
        Err(refused) => without_words(&rt, refused),
    };
    ExitCode::from(status.code())
}
