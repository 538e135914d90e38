// A clock that stands still, goes back and jumps, beside a temporary authorization of five minutes.
use crate::alike::sent_alone;
use crate::memory::{Fault, LinkRow, ROOM, Scene, Served, play_by};
use crate::wire::{ASKED_AGAIN, KEEPING, KEPT, OK, TALK_OF_KEEPING};
use crate::written::{is_made, lines_with};
use memory_outside::{ListStation, Readings, StationPlan};
use pk_types::{List, NoMemory};
use std::alloc::Global;
use std::sync::Wait;
use std::test::Fail;
use std::thread::Threads;
use test_parts::SHAKE_ROOT;

/// The latest moment.
const LATEST: u64 = 1 << 62;

/// A connection of root that has an authorization kept, and asks again. The journal is written.
const KEEPS: Scene = Scene {
    words: &[
        "--root",
        "/r",
        "--door",
        "0:/one",
        "--slots",
        "1",
        "--stop-after",
        "1",
        "--audit",
    ],
    doors: &[&[LinkRow {
        gives: &[SHAKE_ROOT, TALK_OF_KEEPING],
        room: ROOM,
    }]],
    sights: &[],
    fault: Fault::None,
};

/// A clock: what it reads up to the authorization, at the entry behind it and at the last check; which
/// moments the journal has there; and how the last check is answered.
struct Row {
    shows: &'static str,
    readings: [u64; 3],
    moments: [u64; 3],
    answer: &'static [u8],
}

const ROWS: [Row; 8] = [
    Row {
        shows: "it stands still",
        readings: [1000, 1000, 1000],
        moments: [1000, 1000, 1000],
        answer: KEPT,
    },
    Row {
        shows: "it goes back",
        readings: [1000, 0, 700],
        moments: [1000, 1000, 1000],
        answer: KEPT,
    },
    Row {
        shows: "the last second of the five minutes",
        readings: [1000, 1299, 1299],
        moments: [1000, 1299, 1299],
        answer: KEPT,
    },
    Row {
        shows: "they are over",
        readings: [1000, 1299, 1300],
        moments: [1000, 1299, 1300],
        answer: ASKED_AGAIN,
    },
    Row {
        shows: "it jumps to the latest moment, and back",
        readings: [1000, LATEST, 0],
        moments: [1000, LATEST, LATEST],
        answer: ASKED_AGAIN,
    },
    Row {
        shows: "it jumps beyond that, and back",
        readings: [1000, u64::MAX, 1000],
        moments: [1000, LATEST, LATEST],
        answer: ASKED_AGAIN,
    },
    Row {
        shows: "it stands still at the latest moment",
        readings: [LATEST, LATEST, u64::MAX],
        moments: [LATEST, LATEST, LATEST],
        answer: KEPT,
    },
    Row {
        shows: "it goes back from there",
        readings: [u64::MAX, 0, 1000],
        moments: [LATEST, LATEST, LATEST],
        answer: KEPT,
    },
];

/// A clock with the readings of a row, of which the first is given so often.
fn clock(alloc: Global, row: &Row, often: usize) -> Result<List<Readings>, NoMemory> {
    let [first, behind, last] = row.readings;
    let mut readings = vec![in alloc; first; often]?;
    readings.push(behind)?;
    readings.push(last)?;
    let mut clocks = List::new(alloc);
    clocks.try_push(Readings::new(readings))?;
    Ok(clocks)
}

/// What root is sent by a pipe with the clock of a row. A pipe takes a reading for the first load too.
fn piped<R: Threads + Wait + Sync>(rt: &R, alloc: Global, row: &Row) -> Result<Vec<u8>, NoMemory> {
    let clocks = clock(alloc, row, 6)?;
    let mut plan = StationPlan::empty(alloc);
    plan.clocks = clocks;
    let mut station = ListStation::new(alloc, plan);
    sent_alone(rt, alloc, &mut station, "0", TALK_OF_KEEPING)
}

/// The moments of these lines, each with a blank behind it.
fn moments(alloc: Global, lines: &[u8]) -> Result<Vec<u8>, NoMemory> {
    let mut moments = Vec::new(alloc);
    for line in lines.split(|byte| *byte == b'\n') {
        if let Some(moment) = line.split(|byte| *byte == b' ').nth(2) {
            moments.extend_from_slice(moment)?;
            moments.push(b' ')?;
        }
    }
    Ok(moments)
}

/// The moments that a row wants, those of Connect and of Depart too.
fn wanted_moments(alloc: Global, row: &Row) -> Result<String, NoMemory> {
    let [first, behind, last] = row.moments;
    Ok(format!(in alloc; "{first} {first} {first} {first} {first} {behind} {last} {last} ")?)
}

/// What a service sent to root, and the moments of the connection's entries.
fn told(alloc: Global, served: &Served) -> Result<(Vec<u8>, Vec<u8>), NoMemory> {
    let lines = lines_with(alloc, served.written(), b"entry 3 ")?;
    let moments = moments(alloc, &lines)?;
    let sent = served.sent(0, 0).to_vec(alloc)?;
    Ok((sent, moments))
}

/// The same of a service with the clock of a row.
fn served<R: Threads + Wait + Sync>(
    rt: &R,
    alloc: Global,
    row: &Row,
) -> Result<(Vec<u8>, Vec<u8>), NoMemory> {
    let clocks = clock(alloc, row, 5)?;
    let served = play_by(rt, alloc, &KEEPS, clocks)?;
    told(alloc, &served)
}

/// What differs from a row, if anything does.
fn difference<R: Threads + Wait + Sync>(
    rt: &R,
    alloc: Global,
    row: &Row,
) -> Result<&'static str, NoMemory> {
    let wanted = [OK, KEEPING, row.answer];
    let piped = piped(rt, alloc, row)?;
    let (sent, moments) = served(rt, alloc, row)?;
    let wanted_moments = wanted_moments(alloc, row)?;
    Ok(if !is_made(&piped, &wanted) {
        "pipe"
    } else if !is_made(&sent, &wanted) {
        "service"
    } else if moments.as_slice() != wanted_moments.as_bytes() {
        "moments"
    } else {
        ""
    })
}

#[test]
fn an_authorization_is_kept_by_the_greatest_moment(rt: HostRuntime) -> Result<(), Fail> {
    for row in &ROWS {
        assert_eq!(rt; difference(&rt, rt.alloc(), row)?, "", "{}", row.shows);
    }
    Ok(())
}
