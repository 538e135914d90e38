//! Reads the action files that it is given, each as often as the first word says, and tells what
//! they are read as and how long that took. `bench/action_files` runs it.
#![tactic(auto)]

use action_xml::{XmlFault, read};
use std::alloc::Global;
use std::rt::{Clock, Env, Files};
use std::time::Instant;
use std::{env, fs, io};

/// The number of actions of the file, or its fault.
fn count(alloc: Global, bytes: &[u8]) -> Result<usize, XmlFault> {
    let file = read(alloc, bytes)?;
    Ok(file.actions.len())
}

/// The same, from the last of so many times.
fn count_times(alloc: Global, bytes: &[u8], times: u32) -> Result<usize, XmlFault> {
    for _ in 1..times {
        let _ = count(alloc, bytes)?;
    }
    count(alloc, bytes)
}

/// Tells of one file.
fn tell<R: Files + Clock + Print + AllocGlobal>(rt: &R, path: &str, times: u32) -> io::Result<()> {
    let bytes = fs::read(rt, path)?;
    let start = Instant::now(rt)?;
    let counted = count_times(rt.alloc(), bytes.as_slice(), times);
    let micros = start.elapsed(rt)?.as_micros();
    match counted {
        Ok(actions) => println!(rt; "{micros} {actions} actions"),
        Err(fault) => println!(rt; "{micros} {fault}"),
    }
}

/// Tells of each file that a word names, behind the number of times.
fn tell_all<R: Env + Files + Clock + Print + AllocGlobal>(rt: &R) -> io::Result<()> {
    let mut words = env::args(rt)?.skip(1);
    let Some(first) = words.next() else {
        return Ok(());
    };
    let times = first.as_str().parse::<u32>().unwrap_or(1);
    for path in words {
        tell(rt, path.as_str(), times)?;
    }
    Ok(())
}

fn main(rt: HostRuntime) -> io::Result<()> {
    tell_all(&rt)
}
