// Journals that are full.
use crate::calls::{load, step};
use authority_core::{Authority, Limits, LoadStepRefused, StepRefused};
use authority_model::{Event, Loaded, MAX_BYTES, MAX_ENTRIES};
use pk_types::NoMemory;
use std::alloc::Global;
use std::test::Fail;

/// The limits of entries and of bytes; how many connections are entered; and the entries and the
/// counted bytes when the next one is refused.
type Row = (u64, u64, u32, u64, u64);

// A connection is an entry of 64 counted bytes.
const ROWS: [Row; 8] = [
    (0, MAX_BYTES, 0, 0, 0),
    (1, MAX_BYTES, 1, 1, 64),
    (2, MAX_BYTES, 2, 2, 128),
    (MAX_ENTRIES, 0, 0, 0, 0),
    (MAX_ENTRIES, 1, 1, 1, 64),
    (MAX_ENTRIES, 64, 1, 1, 64),
    (MAX_ENTRIES, 65, 2, 2, 128),
    (3, 128, 2, 2, 128),
];

/// Whether an event is refused with these numbers, and is the Connect of this uid.
fn refuses(stepped: &Result<u64, StepRefused>, uid: u32, entries: u64, bytes: u64) -> bool {
    match stepped {
        Err(
            StepRefused::JournalFull {
                entries: n,
                bytes: b,
                event: Event::Connect { uid: back },
            },
        ) => *n == entries && *b == bytes && *back == uid,
        _ => false,
    }
}

/// Whether a connection of this uid is refused with these numbers, and comes back.
fn is_refused(authority: &mut Authority, uid: u32, entries: u64, bytes: u64) -> bool {
    let stepped = step(authority, 1, 0, Event::Connect { uid });
    refuses(&stepped, uid, entries, bytes)
}

/// Whether this many connections are entered, each into a journal that says that it is not full.
fn all_connect(authority: &mut Authority, count: u32) -> bool {
    for caller in 0..count {
        let is_full = authority.is_full();
        let stepped = step(authority, caller + 1, 0, Event::Connect { uid: 1000 });
        if is_full || stepped.is_err() {
            return false;
        }
    }
    true
}

/// Whether this many connections are entered, the journal says then that it is full, the next one is
/// refused with these numbers, and the journal has this many entries.
fn fills(authority: &mut Authority, row: &Row) -> [bool; 4] {
    let (_, _, count, entries, bytes) = *row;
    [
        all_connect(authority, count),
        authority.is_full(),
        is_refused(authority, 7, entries, bytes),
        authority.history().entries.len() as u64 == entries,
    ]
}

/// The same of an authority that starts with the limits of the row.
fn fills_from_start(alloc: Global, row: &Row) -> Result<[bool; 4], NoMemory> {
    let limits = Limits {
        entries: row.0.min(MAX_ENTRIES),
        bytes: row.1.min(MAX_BYTES),
    };
    let mut authority = Authority::start(alloc, limits)?;
    Ok(fills(&mut authority, row))
}

#[test]
fn a_full_journal_refuses_an_event(rt: HostRuntime) -> Result<(), Fail> {
    for row in ROWS {
        assert_eq!(rt;
            fills_from_start(rt.alloc(), &row)?,
            [true; 4],
            "{} {}",
            row.0,
            row.1
        );
    }
    Ok(())
}

/// Whether a load was refused with these numbers.
fn refuses_load(stepped: &Result<u64, LoadStepRefused>, entries: u64, bytes: u64) -> bool {
    match stepped {
        Err(
            LoadStepRefused::JournalFull {
                entries: n,
                bytes: b,
                ..
            },
        ) => *n == entries && *b == bytes,
        _ => false,
    }
}

/// Whether a load is refused with these numbers.
fn is_load_refused(authority: &mut Authority, loaded: Loaded, entries: u64, bytes: u64) -> bool {
    let stepped = load(authority, 0, loaded);
    refuses_load(&stepped, entries, bytes)
}

/// Whether a load and a connection are entered, a second load is refused, and one load is kept.
fn fills_with_a_load(authority: &mut Authority, alloc: Global) -> [bool; 4] {
    [
        load(authority, 0, Loaded::empty(alloc)).ok().is_some(),
        all_connect(authority, 1),
        is_load_refused(authority, Loaded::empty(alloc), 2, 128),
        authority.history().loads.len() == 1,
    ]
}

/// The same of an authority that starts with room for two entries.
fn fills_two_with_a_load(alloc: Global) -> Result<[bool; 4], NoMemory> {
    let limits = Limits {
        entries: 2,
        bytes: MAX_BYTES,
    };
    let mut authority = Authority::start(alloc, limits)?;
    Ok(fills_with_a_load(&mut authority, alloc))
}

#[test]
fn a_full_journal_refuses_a_load(rt: HostRuntime) -> Result<(), Fail> {
    assert_eq!(rt; fills_two_with_a_load(rt.alloc())?, [true; 4]);
    Ok(())
}
