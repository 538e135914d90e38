// Three connections of which each waits for what another one is sent.
use crate::cues::{Cue, CueStation, Part, SentBytes, Who};
use crate::wire::{BEGIN, DONE, OK, REGISTER, RESPOND, RETURN, YES};
use crate::written::{is_made, is_told};
use memory_outside::ByteSink;
use pk_types::{NoMemory, Text};
use polkit_daemon::{Status, serve};
use serve_words::read_plan;
use std::alloc::Global;
use std::sync::Wait;
use std::test::Fail;
use std::thread::Threads;
use std::time::Clock;
use test_parts::{ASK, output, texts, tree};

/// So many bytes have the answer to the handshake and an empty return.
const ANSWERED: u64 = 61;

/// The agent's connection behind BeginAuthentication, of 288 bytes.
const BEGUN: u64 = 349;

/// The asker's connection behind its verdict, of 94 bytes.
const TOLD: u64 = 131;

/// The agent, which registers and returns; who asks, once the agent is registered; and the helper,
/// once the agent is asked.
const PARTS: &[Part] = &[
    Part {
        who: Who::Agent,
        cues: &[
            Cue {
                of: Who::Agent,
                sent: 0,
                gives: REGISTER,
            },
            Cue {
                of: Who::Helper,
                sent: ANSWERED,
                gives: RETURN,
            },
        ],
    },
    Part {
        who: Who::Asker,
        cues: &[
            Cue {
                of: Who::Agent,
                sent: ANSWERED,
                gives: ASK,
            },
            Cue {
                of: Who::Asker,
                sent: TOLD,
                gives: b"",
            },
        ],
    },
    Part {
        who: Who::Helper,
        cues: &[Cue {
            of: Who::Agent,
            sent: BEGUN,
            gives: RESPOND,
        }],
    },
];

/// A service with its doors, and the users of its connections.
#[derive(Clone, Copy)]
struct Row {
    shows: &'static str,
    words: &'static [&'static str],
    lines: &'static [(&'static str, &'static str)],
}

const ROWS: [Row; 2] = [
    Row {
        shows: "three doors with a slot each",
        words: &[
            "--root",
            "/r",
            "--door",
            "1000:/agent",
            "--door",
            "1000:/asker",
            "--door",
            "0:/helper",
            "--slots",
            "1",
            "--stop-after",
            "1",
        ],
        lines: &[
            ("connection ", " 1000 done 2 2"),
            ("connection ", " 1000 done 1 1"),
            ("connection ", " 0 done 1 1"),
            ("entries ", " loads 1 refused 0"),
        ],
    },
    Row {
        shows: "three slots at one door",
        words: &[
            "--root",
            "/r",
            "--door",
            "0:/all",
            "--slots",
            "3",
            "--stop-after",
            "1",
        ],
        lines: &[
            ("connection ", " 0 done 2 2"),
            ("connection ", " 0 done 1 1"),
            ("connection ", " 0 done 1 1"),
            ("entries ", " loads 1 refused 0"),
        ],
    },
];

/// Serves the plan that the words name, and answers the code of how it ended.
fn serve_named<R: Threads + Wait + Clock + Sync>(
    rt: &R,
    alloc: Global,
    words: &[Text],
    station: &mut CueStation<R>,
    output: &mut ByteSink,
) -> Result<u8, NoMemory> {
    let mut tree = tree(alloc, Vec::new(alloc))?;
    let Some(plan) = read_plan(alloc, words)? else {
        return Ok(Status::Usage.code());
    };
    let status = serve(rt, alloc, &plan, &mut tree, station, output);
    Ok(status.code())
}

/// In what a run of these lines, which ended with this code, differs from what it has to be, if it does.
fn difference_in<R: Clock + Sync>(
    station: &CueStation<R>,
    written: &[u8],
    lines: &[(&str, &str)],
    code: u8,
) -> &'static str {
    if !is_made(station.written(1), &[OK, YES]) {
        "asker"
    } else if !is_made(station.written(0), &[OK, DONE, BEGIN]) {
        "agent"
    } else if !is_made(station.written(2), &[OK, DONE]) {
        "helper"
    } else if !is_told(written, lines) {
        "lines"
    } else if code != 0 {
        "status"
    } else {
        ""
    }
}

/// The same of the run of a row.
fn difference<R: Threads + Wait + Clock + Sync>(
    rt: &R,
    alloc: Global,
    row: &Row,
) -> Result<&'static str, NoMemory> {
    let words = texts(alloc, row.words)?;
    let mut output = output(alloc)?;
    let sent = SentBytes::none();
    let mut station = CueStation {
        rt,
        alloc,
        sent: &sent,
        parts: PARTS,
        shut: Vec::new(alloc),
    };
    let code = serve_named(rt, alloc, words.as_slice(), &mut station, &mut output)?;
    Ok(difference_in(&station, output.bytes(), row.lines, code))
}

#[test]
fn answered_across_connections(rt: HostRuntime) -> Result<(), Fail> {
    for row in &ROWS {
        assert_eq!(rt; difference(&rt, rt.alloc(), row)?, "", "{}", row.shows);
    }
    Ok(())
}
