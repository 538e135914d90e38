//! The program `polkit_agent`, over the files and the sockets of the system.
//!
//! What the agent does is proved of `script_agent::script_agent`; this program passes the words and
//! standard output on, and tells on standard error how it ended.
#![tactic(auto)]

ghost use Rattle.pk_outside.specs.Allowing.{IsFree};

use client_commands::read_agent;
use command_line::{ProgramTexts, WordsRefused, words};
use link_handshake::ShakeFault;
use pk_outside::{Station, Tree};
use pk_types::Text;
use rand::make_rng;
use rand::rngs::StdRng;
use real_outside::{DirTree, SocketStation, WriteSink};
use script_agent::{AgentStatus, script_agent};
use std::process::ExitCode;
use std::{io, str};

/// The exit code where the system gives no random words. No status has it.
const NO_RANDOM_WORDS: u8 = 71;

/// What the program tells of itself.
const TEXTS: ProgramTexts = ProgramTexts {
    help: "usage: polkit_agent --door UID:PATH --helper PATH --session ID --rules FILE --count K

Registers behind a door as the authentication agent of a session, answers K challenges by rules, and
writes a line for each: the action, and return, dismiss or fail.

  --door UID:PATH  the socket of the authority's door, and the user whom it is for
  --helper PATH    the socket of the authority's door for uid 0
  --session ID     the session
  --rules FILE     the rules
  --count K        how many challenges, 1 to 1000000

A line of FILE is one of these; the first whose glob has the action decides:
  GLOB user:UID  the authority is told at the helper's door that the user UID was authenticated
  GLOB dismiss   the challenge is dismissed
  GLOB fail      the challenge fails, as it does without a rule

Options, each alone:
  --help     shows this text
  --version  shows the version

Exit status: 0 done, 126 the registration was refused, 127 usage or a fault of the rules, the
station, a link or the output, 70 out of memory, 71 the system gives no random words. Any but 0 is
told on standard error.
",
    version: "polkit_agent 0.105.0 (proved 0.2.0)\n",
};

/// Tells on standard error what is wrong with the words.
fn tell_fault<R: Eprint + AllocGlobal>(rt: &R, words: &[Text]) {
    let Err(fault) = read_agent(rt.alloc(), words) else {
        return;
    };
    if let Ok(fault) = format!(in rt.alloc(); "{fault}") {
        TEXTS.tell_usage(rt, fault.as_str());
    }
}

/// Tells on standard error that a handshake failed, and which doors there are.
fn tell_shake<R: Eprint + AllocGlobal>(rt: &R, words: &[Text], fault: ShakeFault) {
    let _ = eprintln!(rt; "BadShake {fault:?}");
    let Ok(plan) = read_agent(rt.alloc(), words) else {
        return;
    };
    let path = str::from_utf8(plan.path.bytes()).unwrap_or("");
    let helper = str::from_utf8(plan.helper.bytes()).unwrap_or("");
    let uid = plan.uid;
    let _ = eprintln!(rt;
        "{path} is not a door for the user {uid}, or {helper} is not one for the user 0"
    );
}

/// Tells on standard error how an agent ended that did not meet all challenges.
fn tell<R: Eprint + AllocGlobal>(rt: &R, words: &[Text], status: AgentStatus) {
    match status {
        AgentStatus::Done => {}
        AgentStatus::Usage => tell_fault(rt, words),
        AgentStatus::BadShake { fault } => tell_shake(rt, words, fault),
        AgentStatus::BadBytes { kind, at } => {
            let _ = eprintln!(rt; "BadBytes {kind:?} {at}");
        }
        _ => {
            let _ = eprintln!(rt; "{status:?}");
        }
    }
}

/// Does what the words ask.
fn answer<R: Print + AllocGlobal + Sync, T: Tree, N: Station>(
    rt: &R,
    words: &[Text],
    tree: &mut T,
    station: &mut N,
) -> AgentStatus
    requires free_link { IsFree N.Link.Out.allowed }
{
    if let Some(text) = TEXTS.asked_by(words) {
        return match print!(rt; "{text}") {
            Ok(()) => AgentStatus::Done,
            Err(_) => AgentStatus::WriteFault,
        };
    }
    let mut output = WriteSink::new(io::writer(rt));
    script_agent(rt.alloc(), words, tree, station, &mut output)
}

/// How the program ends where its words could not be read.
fn without_words<R: Eprint>(rt: &R, refused: WordsRefused) -> AgentStatus {
    match refused {
        WordsRefused::NotText => {
            TEXTS.tell_usage(rt, "error: a word is not a text");
            AgentStatus::Usage
        }
        WordsRefused::NoMemory => {
            let _ = eprintln!(rt; "{:?}", AgentStatus::NoMemory);
            AgentStatus::NoMemory
        }
    }
}

/// What the system refused is told by a line behind that of the status.
fn main(rt: HostRuntime) -> ExitCode {
    let random: StdRng = match make_rng(&rt) {
        Ok(random) => random,
        Err(cause) => {
            let _ = eprintln!(rt; "no random words: {cause}");
            return ExitCode::from(NO_RANDOM_WORDS);
        }
    };
    let mut tree = DirTree::new(&rt);
    let mut station = SocketStation::new(&rt, rt.alloc(), random);
    let status = match words(&rt) {
        Ok(words) => {
            let status = answer(&rt, words.as_slice(), &mut tree, &mut station);
            tell(&rt, words.as_slice(), status);
            status
        }
        Err(refused) => without_words(&rt, refused),
    };
    if let Some(refusal) = station.refusal() {
        let _ = eprintln!(rt; "{refusal}");
    }
    ExitCode::from(status.code())
}
