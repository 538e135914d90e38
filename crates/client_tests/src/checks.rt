// Checks over a link in memory, with objects that fail at a call, at each call in turn, and at two.
use crate::doors::{Faults, NONE, TwoDoors, joined, link, output, texts, two_doors, written};
use crate::ends::Ended;
use crate::messages::Part;
use memory_outside::ByteSink;
use pk_types::NoMemory;
use pkcheck_tool::{CheckStatus, pkcheck};
use std::alloc::Global;
use std::test::Fail;

/// A check.
#[derive(Clone, Copy)]
struct Row {
    shows: &'static str,
    words: &'static [&'static str],
    server: &'static [Part],
    faults: Faults,
    status: CheckStatus,
    code: u8,
    lines: &'static str,
    sent: &'static [Part],
}

const WORDS: &[&str] = &[
    "--door",
    "1000:/u",
    "--action-id",
    "a.yes",
    "--process",
    "51,8",
    "--allow-user-interaction",
];

/// What a check writes to its link.
const ASKED: &[Part] = &[Part::AuthAlice, Part::BeginLine, Part::Check];

/// A check that is answered by yes.
const YES: Row = Row {
    shows: "a byte in each read",
    words: WORDS,
    server: &[Part::Accepts, Part::Yes],
    faults: NONE,
    status: CheckStatus::Yes,
    code: 0,
    lines: "polkit.decided-by=default:any\n",
    sent: ASKED,
};

/// A check that is given up.
const STOPPED: Row = Row {
    code: 127,
    lines: "",
    ..YES
};

/// A check at whose door nobody listens.
const UNHEARD: Row = Row {
    shows: "nobody listens at the door",
    words: &[
        "--door",
        "1000:/nowhere",
        "--action-id",
        "a.yes",
        "--process",
        "51,8",
    ],
    status: CheckStatus::StationFault,
    sent: &[],
    ..STOPPED
};

/// Checks with an object that fails.
fn failing() -> &'static [Row] {
    &[
        YES,
        UNHEARD,
        Row {
            shows: "the read fails",
            faults: Faults { read: 1, ..NONE },
            status: CheckStatus::StationFault,
            sent: &[Part::AuthAlice],
            ..STOPPED
        },
        Row {
            shows: "the first write fails",
            faults: Faults { write: 1, ..NONE },
            status: CheckStatus::StationFault,
            sent: &[],
            ..STOPPED
        },
        Row {
            shows: "the call cannot be written",
            faults: Faults { write: 3, ..NONE },
            status: CheckStatus::StationFault,
            sent: &[Part::AuthAlice, Part::BeginLine],
            ..STOPPED
        },
        Row {
            shows: "the output fails",
            faults: Faults { output: 1, ..NONE },
            status: CheckStatus::WriteFault,
            ..STOPPED
        },
    ]
}

/// A station with the link of a row, which gives a byte in each read.
fn station(alloc: Global, row: &Row) -> Result<TwoDoors, NoMemory> {
    let door = link(alloc, row.server, 1, row.faults)?;
    Ok(two_doors(door, None))
}

/// A check at a station.
fn check(
    alloc: Global,
    row: &Row,
    station: &mut TwoDoors,
    output: &mut ByteSink,
) -> Result<CheckStatus, NoMemory> {
    let words = texts(alloc, row.words)?;
    Ok(pkcheck(alloc, words.as_slice(), station, output))
}

/// In what the end of a check, its lines and what it sent differ from its row, if they do.
fn told_apart(
    alloc: Global,
    row: &Row,
    status: CheckStatus,
    lines: &[u8],
    station: &TwoDoors,
) -> Result<&'static str, NoMemory> {
    let sent = joined(alloc, row.sent)?;
    let failed = u64::from(row.status == CheckStatus::StationFault);
    Ok(if status != row.status {
        "status"
    } else if status.code() != row.code {
        "code"
    } else if lines != row.lines.as_bytes() {
        "lines"
    } else if written(&station.first) != sent.as_slice() {
        "sent"
    } else if station.faults != failed {
        "faults"
    } else {
        ""
    })
}

/// In what a check differs from its row, if it does.
fn difference(alloc: Global, row: &Row) -> Result<&'static str, NoMemory> {
    let mut output = output(alloc, row.faults.output)?;
    let mut station = station(alloc, row)?;
    let status = check(alloc, row, &mut station, &mut output)?;
    told_apart(alloc, row, status, output.bytes(), &station)
}

#[test]
fn failing_objects_have_their_status(rt: HostRuntime) -> Result<(), Fail> {
    for row in failing() {
        assert_eq!(rt; difference(rt.alloc(), row)?, "", "{}", row.shows);
    }
    Ok(())
}

/// How many reads and writes a check makes: pieces of 50 bytes of the 133 that the server sends, and the
/// handshake by two writes before the call.
const READS: u64 = 3;

const WRITES: u64 = 3;

/// How the check ends at a station.
fn end_at(alloc: Global, station: &mut TwoDoors, output: &mut ByteSink) -> Result<Ended, NoMemory> {
    let status = check(alloc, &YES, station, output)?;
    let text = format!(in alloc; "{status:?}")?;
    Ended::new(alloc, text, status.code(), output, station)
}

/// How the check ends with these faults, where its link gives 50 bytes in a read.
fn ended(alloc: Global, faults: Faults) -> Result<Ended, NoMemory> {
    let mut output = output(alloc, faults.output)?;
    let door = link(alloc, YES.server, 50, faults)?;
    let mut station = two_doors(door, None);
    end_at(alloc, &mut station, &mut output)
}

/// Whether the check is stopped by these faults, where one of their calls is made, and else is whole.
fn is_stopped(alloc: Global, faults: Faults, is_made: bool) -> Result<bool, NoMemory> {
    let whole = ended(alloc, NONE)?;
    let ended = ended(alloc, faults)?;
    Ok(if is_made {
        ended.is_stopped(&whole)
    } else {
        ended.is_alike(&whole)
    })
}

#[test]
fn each_failing_call_stops_a_check(rt: HostRuntime) -> Result<(), Fail> {
    for call in 1..8u64 {
        let read = Faults { read: call, ..NONE };
        assert!(rt; is_stopped(rt.alloc(), read, call <= READS)?, "read {call}");
        let write = Faults {
            write: call,
            ..NONE
        };
        assert!(rt;
            is_stopped(rt.alloc(), write, call <= WRITES)?,
            "write {call}"
        );
    }
    Ok(())
}

/// Whether the check with a read and a write that fail ends as with one of them alone.
fn ends_as_one(alloc: Global, read: u64, write: u64) -> Result<bool, NoMemory> {
    let read = Faults { read, ..NONE };
    let write = Faults { write, ..NONE };
    let both = ended(alloc, read.beside(write))?;
    let one = ended(alloc, read)?;
    let other = ended(alloc, write)?;
    Ok(both.is_one_of(&one, &other))
}

#[test]
fn two_failing_calls_stop_a_check_as_one(rt: HostRuntime) -> Result<(), Fail> {
    for read in 1..5u64 {
        for write in 1..5u64 {
            let is_so = ends_as_one(rt.alloc(), read, write)?;
            assert!(rt; is_so, "read {read} and write {write}");
        }
    }
    Ok(())
}
