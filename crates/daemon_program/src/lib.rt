//! The program `polkitd` over its words and its standard streams.
//!
//! What its command does is proved of the top call of `polkit_daemon`; this crate passes the words
//! and the streams on, and tells how it ended.
#![tactic(auto)]

ghost use Rattle.connection_serve.specs.Promises.{MayServe};
ghost use Rattle.pk_outside.specs.Allowing.{IsFree};

mod fault;

use crate::fault::words_fault;
use command_line::{ProgramTexts, WordsRefused, words};
use pk_outside::{Station, Tree};
use pk_types::Text;
use polkit_daemon::{Status, polkitd};
use real_outside::{ReadSource, WriteSink};
use std::io;
use std::process::ExitCode;
use std::rt::Env;
use std::sync::Wait;
use std::thread::Threads;

/// What the program tells of itself.
const TEXTS: ProgramTexts = ProgramTexts {
    help: "usage: polkitd replay [--root DIR] [--entries K]
       polkitd replay [--root DIR] --segments PATH --per K
       polkitd audit [--root DIR] [--entries K]
       polkitd pipe UID --root DIR [--entries K]
       polkitd serve --root DIR --door UID:PATH {--door UID:PATH} --slots N [--stop-after K]
                     [--entries K] [--live] [--audit]
       polkitd load N

replay  runs the scenario on standard input, and writes its answers to standard output
        --root DIR   begins with the action files, rules, administrators, users, groups, sessions
                     and processes below DIR, and first writes a line for each that it skips
        --entries K  the journal holds at most K entries, 1 to 1048576
        --segments PATH --per K  the journal is not kept: each K entries of it, 1 to 1048576, are
                     written to a new file at PATH, and forgotten
audit   runs the scenario as replay does, and writes to standard output at its end the whole journal
        as an audit text, in place of all answers
pipe    serves one connection of the user UID: D-Bus messages on standard input, and the messages
        to the connection on standard output, with what the files below DIR give
serve   listens at Unix sockets, serves many connections at once, and answers all of them from one
        journal, with what the files below DIR give; writes to standard output a line for each file
        that the first load skips, and at the end one for each connection and one for the journal
        --door UID:PATH  makes a socket at PATH; who connects there is the user UID
        --slots N        each door serves N connections at once; slots times doors is 1 to 64
        --stop-after K   each slot ends after K connections, 1 to 1000000
        --entries K      as for replay
        --live           looks at a process in /proc before each call that names it; one that has
                         gone is listed no longer, and its temporary authorizations end
        --audit          writes at the end the whole journal as an audit text, in place of all lines
load N  runs N generated checks, 1 to 100000, and writes what they come to to standard output

Options, each alone:
  --help     shows this text
  --version  shows the version

Exit status: 0 done, 1 usage, 2 the files below DIR cannot be read or are refused, 3 read fault,
4 write fault, 5 the journal is full or all numbers of connections are used up, 6 a line or a
message that is not in its grammar, 7 a socket could not be made or failed, 8 the file of the
segments could not be made or failed, 70 out of memory, 71 the system gives no random words. Any but 0 is told on standard error.
",
    version: "polkitd 0.105.0 (proved 0.2.0)\n",
};

/// What stands behind a fault of the words.
const USAGE: &str = "polkitd --help shows the usage";

/// Tells on standard error what is wrong with words that name no command, and where the usage is.
fn tell_fault<R: Eprint>(rt: &R, words: &[Text]) {
    if let Some(fault) = words_fault(words) {
        let _ = eprintln!(rt; "error: {fault}");
    }
    let _ = eprintln!(rt; "{USAGE}");
}

/// How the program ends where its words could not be read.
fn without_words<R: Eprint>(rt: &R, refused: WordsRefused) -> Status {
    match refused {
        WordsRefused::NotText => {
            let _ = eprintln!(rt; "error: a word is not a text\n{USAGE}");
            Status::Usage
        }
        WordsRefused::NoMemory => Status::NoMemory,
    }
}

/// Does what the words ask for.
fn command<R, T, N>(rt: &R, tree: &mut T, station: &mut N) -> Status
where
    R: Threads + Wait + Sync + Env + Input + Print + Eprint + AllocGlobal,
    R::Reader: Send,
    T: Tree,
    N: Station,
    requires may_serve { MayServe N.Door.Link.Out.allowed }
    requires free_file { IsFree N.File.allowed }
{
    let words = match words(rt) {
        Ok(words) => words,
        Err(refused) => return without_words(rt, refused),
    };
    if let Some(text) = TEXTS.asked_by(words.as_slice()) {
        return match print!(rt; "{text}") {
            Ok(()) => Status::Done,
            Err(_) => Status::WriteFault,
        };
    }
    let mut input = ReadSource::new(rt.reader());
    let mut output = WriteSink::new(io::writer(rt));
    let status = polkitd(
        rt,
        rt.alloc(),
        words.as_slice(),
        tree,
        station,
        &mut input,
        &mut output,
    );
    if matches!(status, Status::Usage) {
        tell_fault(rt, words.as_slice());
    }
    status
}

/// Runs the program over the files of a tree and the sockets of a station, and answers its exit
/// code. A status other than `Done` and `Usage` is told by one line on standard error, and what is
/// wrong with the words by two.
pub fn run<R, T, N>(rt: &R, tree: &mut T, station: &mut N) -> ExitCode
where
    R: Threads + Wait + Sync + Env + Input + Print + Eprint + AllocGlobal,
    R::Reader: Send,
    T: Tree,
    N: Station,
    requires may_serve { MayServe N.Door.Link.Out.allowed }
    requires free_file { IsFree N.File.allowed }
{
    let status = command(rt, tree, station);
    match status {
        Status::Done | Status::Usage => {}
        _ => {
            let _ = eprintln!(rt; "{status}");
        }
    }
    ExitCode::from(status.code())
}
