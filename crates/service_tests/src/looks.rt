// Looks at a process that fail, each in turn, alone and beside a read and a write of the connection.
use crate::memory::{Fault, LinkRow, ROOM, Scene, Served, play};
use crate::wire::{OK, YES_ANY, YES_SECOND, YES_THIRD};
use crate::written::{is_made, is_told, lines_with};
use pk_outside::Sighted;
use pk_types::NoMemory;
use std::alloc::Global;
use std::sync::Wait;
use std::test::Fail;
use std::thread::Threads;
use test_parts::{CHECK_YES, SHAKE_ALICE};

/// The process of the checks, as it is listed.
const ALIVE: Sighted = Sighted::Alive { start: 8 };

/// A connection of three checks, which looks at their process before each.
const LOOKS: Scene = Scene {
    words: &[
        "--root",
        "/r",
        "--door",
        "1000:/one",
        "--slots",
        "1",
        "--stop-after",
        "1",
        "--live",
    ],
    doors: &[&[LinkRow {
        gives: &[SHAKE_ALICE, CHECK_YES, CHECK_YES, CHECK_YES],
        room: ROOM,
    }]],
    sights: &[&[ALIVE, ALIVE, ALIVE]],
    fault: Fault::None,
};

/// The same, whose journal is written.
const JOURNAL: Scene = Scene {
    words: &[
        "--root",
        "/r",
        "--door",
        "1000:/one",
        "--slots",
        "1",
        "--stop-after",
        "1",
        "--live",
        "--audit",
    ],
    ..LOOKS
};

/// The lines of the connection's entries.
const CONNECT: &[u8] = b"entry 3 0 00000000000000000000000000000000 Connect 1000 0\n";

const CHECK: &[u8] =
    b"entry 3 0 00000000000000000000000000000000 Call 1 0 Check Process 51 8 a.yes 0 0 % 1 3 Reply 1 Verdict 1 0 Default Any 0 - 0\n";

const DEPART: &[u8] = b"entry 3 0 00000000000000000000000000000000 Depart 0\n";

/// A look that fails, how the connection's line begins, what it is sent, and its entries.
type Row = (
    u64,
    &'static str,
    &'static [&'static [u8]],
    &'static [&'static [u8]],
);

const ROWS: [Row; 4] = [
    (
        1,
        "connection 3 1000 sight-fault 0 0",
        &[OK],
        &[CONNECT, DEPART],
    ),
    (
        2,
        "connection 3 1000 sight-fault 1 1",
        &[OK, YES_ANY],
        &[CONNECT, CHECK, DEPART],
    ),
    (
        3,
        "connection 3 1000 sight-fault 2 2",
        &[OK, YES_ANY, YES_SECOND],
        &[CONNECT, CHECK, CHECK, DEPART],
    ),
    (
        4,
        "connection 3 1000 done 3 3",
        &[OK, YES_ANY, YES_SECOND, YES_THIRD],
        &[CONNECT, CHECK, CHECK, CHECK, DEPART],
    ),
];

/// Whether the connection with the look of a row that fails has its line, and was sent what was due before.
fn has_line<R: Threads + Wait + Sync>(rt: &R, alloc: Global, row: &Row) -> Result<bool, NoMemory> {
    let (look, line, sent, _) = *row;
    let fault = Fault::Sight(look);
    let served = play(rt, alloc, &Scene { fault, ..LOOKS })?;
    let lines = [(line, ""), ("entries ", " loads 1 refused 0")];
    Ok(
        served.end.as_str() == "Done"
            && is_told(served.written(), &lines)
            && is_made(served.sent(0, 0), sent),
    )
}

/// Whether these are the entries of the connection in the journal that a service wrote.
fn is_journal(alloc: Global, served: &Served, entries: &[&[u8]]) -> Result<bool, NoMemory> {
    let lines = lines_with(alloc, served.written(), b"entry 3 ")?;
    Ok(is_made(&lines, entries))
}

/// Whether the journal has the entries of the messages before that look, and the end of the connection.
fn has_entries<R: Threads + Wait + Sync>(
    rt: &R,
    alloc: Global,
    row: &Row,
) -> Result<bool, NoMemory> {
    let (look, _, _, entries) = *row;
    let fault = Fault::Sight(look);
    let served = play(rt, alloc, &Scene { fault, ..JOURNAL })?;
    is_journal(alloc, &served, entries)
}

#[test]
fn a_look_that_fails_ends_its_connection(rt: HostRuntime) -> Result<(), Fail> {
    for row in &ROWS {
        let (look, _, _, _) = *row;
        assert!(rt; has_line(&rt, rt.alloc(), row)?, "look {look}");
        assert!(rt; has_entries(&rt, rt.alloc(), row)?, "look {look}");
    }
    Ok(())
}

/// A connection of one check, which looks at its process.
const LOOK: Scene = Scene {
    doors: &[&[LinkRow {
        gives: &[SHAKE_ALICE, CHECK_YES],
        room: ROOM,
    }]],
    sights: &[&[ALIVE]],
    ..LOOKS
};

/// A fault, and the word by which such a connection ends with it alone.
type Ending = (Fault, &'static str);

/// How a connection ends of which a call fails, where so many calls of its kind are made.
fn end_at(call: u64, made: u64, end: &'static str) -> &'static str {
    if call <= made { end } else { "done" }
}

/// The faults at this call of each kind. The handshake and the check come by eight reads, and the end by
/// one more. The handshake is answered by one write, and the check by two.
fn kinds(call: u64) -> [Ending; 3] {
    [
        (Fault::Read(call), end_at(call, 9, "read-fault")),
        (Fault::Write(call), end_at(call, 3, "write-fault")),
        (Fault::Sight(call), end_at(call, 1, "sight-fault")),
    ]
}

/// Two faults of different kinds, at these calls.
fn pairs(first: u64, second: u64) -> [[Ending; 2]; 3] {
    let [read, write, _] = kinds(first);
    let [_, other_write, look] = kinds(second);
    [[read, other_write], [read, look], [write, look]]
}

/// The word by which the connection of a service ended.
fn end_in(served: &Served) -> &[u8] {
    let mut words = served.written().split(|byte| *byte == b' ');
    words.nth(3).unwrap_or(&[])
}

/// Whether the connection ends with both faults as with one of them alone, and is done where neither call
/// is made.
fn ends_as_one<R: Threads + Wait + Sync>(
    rt: &R,
    alloc: Global,
    pair: &[Ending; 2],
) -> Result<bool, NoMemory> {
    let [(one, by_one), (other, by_other)] = *pair;
    let fault = one.beside(other);
    let served = play(rt, alloc, &Scene { fault, ..LOOK })?;
    let end = end_in(&served);
    let is_one = end == by_one.as_bytes() || end == by_other.as_bytes();
    Ok(is_one && (end != b"done".as_slice() || by_one == by_other))
}

/// The first of these pairs with which it does not, by its place.
fn odd_pair<R: Threads + Wait + Sync>(
    rt: &R,
    alloc: Global,
    first: u64,
    second: u64,
) -> Result<Option<usize>, NoMemory> {
    for (place, pair) in pairs(first, second).iter().enumerate() {
        if !ends_as_one(rt, alloc, pair)? {
            return Ok(Some(place));
        }
    }
    Ok(None)
}

#[test]
fn two_faults_of_a_connection_end_it_as_one(rt: HostRuntime) -> Result<(), Fail> {
    for first in 1..11u64 {
        for second in 1..5u64 {
            let odd = odd_pair(&rt, rt.alloc(), first, second)?;
            assert_eq!(rt; odd, None, "at calls {first} and {second}");
        }
    }
    Ok(())
}
