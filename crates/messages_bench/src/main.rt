//! Reads the message that each file begins with, as often as the first word says, goes over the
//! parts of its body as often, and tells what was read and how long that took. `bench/messages`
//! runs it.
#![tactic(auto)]

use dbus_values::{Next, Part, Parts, WireMessage, next_message};
use std::rt::{Clock, Env, Files};
use std::time::Instant;
use std::{env, fs, io};

/// More parts than a message of 16 MiB has.
const MOST_PARTS: usize = 268435456;

/// The number of parts that are left, and the sum of the lengths of their texts.
fn count(parts: &mut Parts) -> (usize, usize) {
    let mut texts: usize = 0;
    for i in 0..MOST_PARTS {
        match parts.next() {
            None => return (i, texts),
            Some(Part::Text { bytes, .. }) => texts = texts.saturating_add(bytes.len()),
            Some(_) => {}
        }
    }
    (MOST_PARTS, texts)
}

/// How many of so many readings are whole.
fn read_times(bytes: &[u8], times: u32) -> u32 {
    let mut whole: u32 = 0;
    for _ in 0..times {
        if let Next::Whole { .. } = next_message(bytes) {
            whole = whole.saturating_add(1);
        }
    }
    whole
}

/// The number of parts of a body, over which it goes so often.
fn count_times(message: &WireMessage, times: u32) -> usize {
    let mut all: usize = 0;
    for _ in 0..times {
        let (parts, texts) = count(&mut message.body());
        all = all.max(parts).max(texts);
    }
    all
}

/// Tells of one file: the times of the readings and of going over the parts, in nanoseconds.
fn tell<R: Files + Clock + Print + AllocGlobal>(rt: &R, path: &str, times: u32) -> io::Result<()> {
    let bytes = fs::read(rt, path)?;
    let bytes = bytes.as_slice();
    let start = Instant::now(rt)?;
    let whole = read_times(bytes, times);
    let reading = start.elapsed(rt)?.as_nanos();
    match next_message(bytes) {
        Next::Whole { message, used } => {
            let start = Instant::now(rt)?;
            let parts = count_times(&message, times);
            let going = start.elapsed(rt)?.as_nanos();
            println!(rt; "{used} {whole} {reading} {going} {parts} whole")
        }
        Next::Partial => println!(rt; "0 {whole} {reading} 0 0 partial"),
        Next::Bad { kind, at } => println!(rt; "{at} {whole} {reading} 0 0 {kind:?}"),
    }
}

/// Tells of each file that a word names, behind the number of times.
fn tell_all<R: Env + Files + Clock + Print + AllocGlobal>(rt: &R) -> io::Result<()> {
    let mut words = env::args(rt)?.skip(1);
    let Some(first) = words.next() else {
        return Ok(());
    };
    let times = first.as_str().parse::<u32>().unwrap_or(1);
    for path in words {
        tell(rt, path.as_str(), times)?;
    }
    Ok(())
}

fn main(rt: HostRuntime) -> io::Result<()> {
    tell_all(&rt)
}
