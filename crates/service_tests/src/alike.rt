// What a connection is sent is what the same messages are answered on one thread.
use crate::memory::{Fault, LinkRow, ROOM, Scene, Served, play};
use crate::wire::{OK, TALK_OF_ALICE, TALK_OF_ROOT};
use crate::written::joined;
use memory_outside::{ByteSource, ListStation};
use pk_types::NoMemory;
use polkit_daemon::polkitd;
use std::alloc::Global;
use std::sync::Wait;
use std::test::Fail;
use std::thread::Threads;
use test_parts::{SHAKE_ALICE, SHAKE_ROOT, output, texts, tree};

/// Alice's connection and that of root beside each other.
const SCENE: Scene = Scene {
    words: &[
        "--root",
        "/r",
        "--door",
        "1000:/alice",
        "--door",
        "0:/root",
        "--slots",
        "1",
        "--stop-after",
        "1",
    ],
    doors: &[
        &[LinkRow {
            gives: &[SHAKE_ALICE, TALK_OF_ALICE],
            room: ROOM,
        }],
        &[LinkRow {
            gives: &[SHAKE_ROOT, TALK_OF_ROOT],
            room: ROOM,
        }],
    ],
    sights: &[],
    fault: Fault::None,
};

/// The input of these messages.
fn input_of(alloc: Global, messages: &[u8]) -> Result<ByteSource, NoMemory> {
    let mut bytes = messages.to_vec(alloc)?;
    bytes.truncate(ROOM);
    Ok(ByteSource::new(bytes, ROOM, Vec::new(alloc)))
}

/// What a connection of this user is sent for these messages, where there is no other one, with a clock
/// of this station.
pub fn sent_alone<R: Threads + Wait + Sync>(
    rt: &R,
    alloc: Global,
    station: &mut ListStation,
    uid: &str,
    messages: &[u8],
) -> Result<Vec<u8>, NoMemory> {
    let words = texts(alloc, &["pipe", uid, "--root", "/r"])?;
    let mut input = input_of(alloc, messages)?;
    let mut output = output(alloc)?;
    let mut tree = tree(alloc, Vec::new(alloc))?;
    polkitd(
        rt,
        alloc,
        words.as_slice(),
        &mut tree,
        station,
        &mut input,
        &mut output,
    );
    joined(alloc, &[OK, output.bytes()])
}

/// Whether the link of this door was sent the same beside another one.
fn is_alike<R: Threads + Wait + Sync>(
    rt: &R,
    alloc: Global,
    served: &Served,
    place: usize,
    uid: &str,
    messages: &[u8],
) -> Result<bool, NoMemory> {
    let mut station = ListStation::empty(alloc);
    let alone = sent_alone(rt, alloc, &mut station, uid, messages)?;
    Ok(OK.len() < alone.len() && served.sent(place, 0) == alone.as_slice())
}

/// Which of the end of a service and its links differs from one thread, if any does.
fn difference_in<R: Threads + Wait + Sync>(
    rt: &R,
    alloc: Global,
    served: &Served,
) -> Result<&'static str, NoMemory> {
    Ok(if served.end.as_str() != "Done" {
        "end"
    } else if !is_alike(rt, alloc, served, 0, "1000", TALK_OF_ALICE)? {
        "alice"
    } else if !is_alike(rt, alloc, served, 1, "0", TALK_OF_ROOT)? {
        "root"
    } else {
        ""
    })
}

/// The same of the service with both connections.
fn difference<R: Threads + Wait + Sync>(rt: &R, alloc: Global) -> Result<&'static str, NoMemory> {
    let served = play(rt, alloc, &SCENE)?;
    difference_in(rt, alloc, &served)
}

#[test]
fn answers_are_those_of_one_thread(rt: HostRuntime) -> Result<(), Fail> {
    assert_eq!(rt; difference(&rt, rt.alloc())?, "");
    Ok(())
}
