// An orderly journal, and what one more entry or another list of lines makes of it.
use authority_model::{Call, Entry, EntryList, Event, History, Message, Output, OutputList};
use journal_scan::{ConnectionLine, Counts, Tally, Totals, scan_journal};
use pk_types::{List, NoMemory};
use std::alloc::Global;
use std::test::Fail;

/// What an entry does.
#[derive(Clone, Copy)]
enum Kind {
    Connects(u32),
    Reloads,
    Passes,
    Departs,
    Loads,
    Stops,
    Collects(u32),
    /// Collects of 0, with an output to this number.
    Tells(u32),
}

/// An entry: its caller, its moment, and what it does.
#[derive(Clone, Copy)]
struct Row(u32, u64, Kind);

const LINE: ConnectionLine = ConnectionLine {
    number: 1,
    uid: 1000,
    sighter: None,
};

const JOURNAL: [Row; 9] = [
    Row(0, 0, Kind::Loads),
    Row(1, 5, Kind::Connects(1000)),
    Row(1, 6, Kind::Reloads),
    Row(0, 6, Kind::Collects(0)),
    Row(0, 6, Kind::Loads),
    Row(2, 6, Kind::Collects(1)),
    Row(1, 7, Kind::Departs),
    Row(2, 7, Kind::Collects(1)),
    Row(3, 7, Kind::Stops),
];

fn event_of(kind: Kind) -> Event {
    match kind {
        Kind::Connects(uid) => Event::Connect { uid },
        Kind::Reloads => Event::Call {
            serial: 1,
            quiet: false,
            call: Call::Reload,
        },
        Kind::Passes => Event::Passed,
        Kind::Departs => Event::Depart,
        Kind::Loads => Event::Load { load: 1 },
        Kind::Stops => Event::Stop,
        Kind::Collects(of) => Event::Collect { of },
        Kind::Tells(_) => Event::Collect { of: 0 },
    }
}

fn outputs_of(alloc: Global, caller: u32, kind: Kind) -> Result<OutputList, NoMemory> {
    let mut outputs = List::new(alloc);
    match kind {
        Kind::Reloads => {
            outputs.try_push(Output {
                to: caller,
                message: Message::Changed,
            })?;
            outputs.try_push(Output {
                to: 0,
                message: Message::LoadWanted,
            })?;
        }
        Kind::Stops => outputs.try_push(Output {
            to: 0,
            message: Message::StopWanted,
        })?,
        Kind::Tells(to) => outputs.try_push(Output {
            to,
            message: Message::Changed,
        })?,
        _ => {}
    }
    Ok(outputs)
}

fn push(alloc: Global, entries: &mut EntryList, row: Row) -> Result<(), NoMemory> {
    let Row(caller, moment, kind) = row;
    let outputs = outputs_of(alloc, caller, kind)?;
    entries.try_push(Entry {
        caller,
        moment,
        salt: 0,
        event: event_of(kind),
        outputs,
    })
}

/// The journal with one more entry.
fn entries(alloc: Global, more: Option<Row>) -> Result<EntryList, NoMemory> {
    let mut entries = List::new(alloc);
    for row in &JOURNAL {
        push(alloc, &mut entries, *row)?;
    }
    if let Some(row) = more {
        push(alloc, &mut entries, row)?;
    }
    Ok(entries)
}

/// What is found in the journal with one more entry.
fn found(
    alloc: Global,
    more: Option<Row>,
    lines: &[ConnectionLine],
) -> Result<Option<Counts>, NoMemory> {
    let history = History {
        entries: entries(alloc, more)?,
        loads: List::new(alloc),
    };
    scan_journal(alloc, &history, lines)
}

/// Whether the journal with one more entry is in order, with these lines.
fn is_orderly(
    alloc: Global,
    more: Option<Row>,
    lines: &[ConnectionLine],
) -> Result<bool, NoMemory> {
    Ok(found(alloc, more, lines)?.is_some())
}

/// The totals, and the tallies of connection 1 and of the loader.
type Told = (Totals, [Option<Tally>; 2]);

fn told_by(counts: &Counts) -> Told {
    let tallies = &counts.tallies;
    (
        counts.totals,
        [tallies.get(1).copied(), tallies.get(0).copied()],
    )
}

/// What is told of the journal, and nothing where it is not in order.
fn told(alloc: Global) -> Result<Option<Told>, NoMemory> {
    match found(alloc, None, &[LINE])? {
        Some(counts) => Ok(Some(told_by(&counts))),
        None => Ok(None),
    }
}

#[test]
fn counts_an_orderly_journal(rt: HostRuntime) -> Result<(), Fail> {
    let totals = Totals {
        entries: 9,
        loads: 2,
        unlisted: 0,
        refused: 0,
        wanted: 1,
    };
    let of_connection = Tally {
        messages: 1,
        answers: 1,
    };
    let of_loader = Tally {
        messages: 3,
        answers: 2,
    };
    let wanted = Some((totals, [Some(of_connection), Some(of_loader)]));
    assert_eq!(rt; told(rt.alloc())?, wanted);
    Ok(())
}

/// What is entered after the journal, and whether it is in order.
const NEXT: [(&str, Row, bool); 10] = [
    (
        "the loader collects StopWanted",
        Row(0, 7, Kind::Collects(0)),
        true,
    ),
    (
        "an entry after the departure",
        Row(1, 8, Kind::Passes),
        false,
    ),
    (
        "a Connect without a line",
        Row(4, 8, Kind::Connects(1000)),
        false,
    ),
    (
        "a load that nothing asked for",
        Row(0, 7, Kind::Loads),
        false,
    ),
    ("a load by another", Row(3, 7, Kind::Loads), false),
    ("a second Stop", Row(3, 7, Kind::Stops), false),
    ("a second empty batch", Row(2, 7, Kind::Collects(1)), false),
    ("a moment of its own", Row(0, 8, Kind::Collects(0)), false),
    (
        "an output to the greatest caller",
        Row(0, 7, Kind::Tells(3)),
        true,
    ),
    (
        "an output to a number above it",
        Row(0, 7, Kind::Tells(4)),
        false,
    ),
];

#[test]
fn finds_what_is_not_in_order(rt: HostRuntime) -> Result<(), Fail> {
    for (caption, row, orderly) in &NEXT {
        let found = is_orderly(rt.alloc(), Some(*row), &[LINE])?;
        assert_eq!(rt; found, *orderly, "{caption}");
    }
    Ok(())
}

#[test]
fn finds_lines_that_do_not_fit(rt: HostRuntime) -> Result<(), Fail> {
    let alloc = rt.alloc();
    let other = ConnectionLine {
        number: 1,
        uid: 1001,
        sighter: None,
    };
    assert!(rt; !is_orderly(alloc, None, &[other])?, "another uid");
    assert!(rt; !is_orderly(alloc, None, &[LINE, LINE])?, "a number twice");
    assert!(rt; !is_orderly(alloc, None, &[])?, "no line");
    Ok(())
}
