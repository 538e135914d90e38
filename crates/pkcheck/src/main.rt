//! The program `pkcheck`, over the sockets of the system.
//!
//! What a check does is proved of `pkcheck_tool::pkcheck`; this program passes the words and standard
//! output on, and tells on standard error how it ended.
#![tactic(auto)]

ghost use Rattle.pk_outside.specs.Allowing.{IsFree};

use client_commands::read_check;
use command_line::{ProgramTexts, WordsRefused, words};
use pk_outside::Station;
use pk_types::Text;
use pkcheck_tool::{CheckStatus, pkcheck};
use rand::make_rng;
use rand::rngs::StdRng;
use real_outside::{SocketStation, WriteSink};
use std::process::ExitCode;
use std::{io, str};

/// The exit code where the system gives no random words. No status has it.
const NO_RANDOM_WORDS: u8 = 71;

/// What the program tells of itself.
const TEXTS: ProgramTexts = ProgramTexts {
    help: "usage: pkcheck --door UID:PATH --action-id ID --process PID,START [--allow-user-interaction]

Asks the authority behind a door whether a process may do an action.

  --door UID:PATH           the socket of the door, and the user whom it is for
  --action-id ID            the action
  --process PID,START       the process, and its start time
  --allow-user-interaction  the user may be asked

Options, each alone:
  --help     shows this text
  --version  shows the version

Standard output has the details of the reply, each as a line KEY=VALUE, or the name of the error.
Exit status: 0 authorized, 1 not authorized, 2 not without a challenge, 3 the challenge was
dismissed, 126 the reply is an error, 127 usage or a fault of the station, the link or the output,
70 out of memory, 71 the system gives no random words. Any but 0 is told on standard error.
",
    version: "pkcheck 0.105.0 (proved 0.2.0)\n",
};

/// Tells on standard error what is wrong with the words.
fn tell_fault<R: Eprint + AllocGlobal>(rt: &R, words: &[Text]) {
    let Err(fault) = read_check(rt.alloc(), words) else {
        return;
    };
    if let Ok(fault) = format!(in rt.alloc(); "{fault}") {
        TEXTS.tell_usage(rt, fault.as_str());
    }
}

/// Tells on standard error that the handshake failed, and at which door.
fn tell_shake<R: Eprint + AllocGlobal>(rt: &R, words: &[Text], status: CheckStatus) {
    let _ = eprintln!(rt; "{status}");
    let Ok(plan) = read_check(rt.alloc(), words) else {
        return;
    };
    let path = str::from_utf8(plan.path.bytes()).unwrap_or("");
    let _ = eprintln!(rt; "{path} is not a door for the user {}", plan.uid);
}

/// Writes a line to standard error.
fn say<R: Eprint>(rt: &R, line: &str) {
    let _ = eprintln!(rt; "{line}");
}

/// Tells on standard error how a check ended that is not a yes.
fn tell<R: Eprint + AllocGlobal>(rt: &R, words: &[Text], status: CheckStatus) {
    match status {
        CheckStatus::Yes => {}
        CheckStatus::No => say(rt, "not authorized"),
        CheckStatus::Challenge => say(rt, "authentication needed"),
        CheckStatus::Dismissed => say(rt, "the challenge was dismissed"),
        CheckStatus::Error => say(rt, "the reply is an error"),
        CheckStatus::Usage => tell_fault(rt, words),
        CheckStatus::BadShake { .. } => tell_shake(rt, words, status),
        _ => {
            let _ = eprintln!(rt; "{status}");
        }
    }
}

/// Does what the words ask.
fn check<R: Print + AllocGlobal + Sync, N: Station>(
    rt: &R,
    words: &[Text],
    station: &mut N,
) -> CheckStatus
    requires free_link { IsFree N.Link.Out.allowed }
{
    if let Some(text) = TEXTS.asked_by(words) {
        return match print!(rt; "{text}") {
            Ok(()) => CheckStatus::Yes,
            Err(_) => CheckStatus::WriteFault,
        };
    }
    let mut output = WriteSink::new(io::writer(rt));
    pkcheck(rt.alloc(), words, station, &mut output)
}

/// How the program ends where its words could not be read.
fn without_words<R: Eprint>(rt: &R, refused: WordsRefused) -> CheckStatus {
    match refused {
        WordsRefused::NotText => {
            TEXTS.tell_usage(rt, "error: a word is not a text");
            CheckStatus::Usage
        }
        WordsRefused::NoMemory => {
            let _ = eprintln!(rt; "{}", CheckStatus::NoMemory);
            CheckStatus::NoMemory
        }
    }
}

/// What the system refused is told by a line behind that of the status.
fn main(rt: HostRuntime) -> ExitCode {
    let random: StdRng = match make_rng(&rt) {
        Ok(random) => random,
        Err(cause) => {
            let _ = eprintln!(rt; "no random words: {cause}");
            return ExitCode::from(NO_RANDOM_WORDS);
        }
    };
    let mut station = SocketStation::new(&rt, rt.alloc(), random);
    let status = match words(&rt) {
        Ok(words) => {
            let status = check(&rt, words.as_slice(), &mut station);
            tell(&rt, words.as_slice(), status);
            status
        }
        Err(refused) => without_words(&rt, refused),
    };
    if let Some(refusal) = station.refusal() {
        let _ = eprintln!(rt; "{refusal}");
    }
    ExitCode::from(status.code())
}
