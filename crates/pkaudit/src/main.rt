//! The program `pkaudit`, over the standard streams of the system.
//!
//! What an audit is is proved of `pkaudit_tool::pkaudit`; this program passes the words and the standard
//! streams on, and tells on standard error how it ended.
#![tactic(auto)]

use command_line::{ProgramTexts, WordsRefused, words};
use pk_types::Text;
use pkaudit_tool::{AuditStatus, pkaudit};
use real_outside::{ReadSource, WriteSink};
use std::io;
use std::process::ExitCode;

/// What the program tells of itself.
const TEXTS: ProgramTexts = ProgramTexts {
    help: "usage: pkaudit

Reads an audit text from standard input, and says whether the journal that it spells is as the
authority must have made it.

Options, each alone:
  --help     shows this text
  --version  shows the version

Standard output has one line:
  ok ENTRIES YES      each of the entries is as it must be, and each of the yes verdicts is licensed
  fault ENTRY CLAUSE  the first faulty entry, counted from 0, and what it breaks:
                      load     a Load names the next load, and the journal has it
                      moment   the moment does not fall and is at most 2^62, and a Collect has that
                               of the entry before it
                      salt     a Collect has the salt 0
                      outputs  the outputs are the answers to the event
                      loads    behind the last entry: some entry names each load
Exit status: 0 accepted, 1 faulty, 2 usage, 3 read fault, 4 write fault, 5 more than 65,536 entries,
6 a line out of the grammar, 70 out of memory. Any but 0 and 1 is told on standard error.
",
    version: "pkaudit 0.105.0 (proved 0.2.0)\n",
};

/// Tells on standard error how an audit ended that found nothing.
fn tell<R: Eprint>(rt: &R, status: AuditStatus) {
    match status {
        AuditStatus::Accepted | AuditStatus::Faulty { .. } => {}
        AuditStatus::Usage => TEXTS.tell_usage(rt, "error: pkaudit takes no words"),
        _ => {
            let _ = eprintln!(rt; "{status}");
        }
    }
}

/// Does what the words ask.
fn audit<R>(rt: &R, words: &[Text]) -> AuditStatus
where
    R: Print + Input + AllocGlobal + Sync,
    R::Reader: Send,
{
    if let Some(text) = TEXTS.asked_by(words) {
        return match print!(rt; "{text}") {
            Ok(()) => AuditStatus::Accepted,
            Err(_) => AuditStatus::WriteFault,
        };
    }
    let mut input = ReadSource::new(rt.reader());
    let mut output = WriteSink::new(io::writer(rt));
    pkaudit(rt.alloc(), words, &mut input, &mut output)
}

/// How the program ends where its words could not be read.
fn without_words<R: Eprint>(rt: &R, refused: WordsRefused) -> AuditStatus {
    match refused {
        WordsRefused::NotText => {
            TEXTS.tell_usage(rt, "error: a word is not a text");
            AuditStatus::Usage
        }
        WordsRefused::NoMemory => {
            let _ = eprintln!(rt; "{}", AuditStatus::NoMemory);
            AuditStatus::NoMemory
        }
    }
}

fn main(rt: HostRuntime) -> ExitCode {
    let status = match words(&rt) {
        Ok(words) => {
            let status = audit(&rt, words.as_slice());
            tell(&rt, status);
            status
        }
        Err(refused) => without_words(&rt, refused),
    };
    ExitCode::from(status.code())
}
