// Services of which one call after another fails, and two.
use crate::memory::{Fault, LinkRow, ROOM, Scene, Served, play};
use crate::written::is_told;
use pk_types::NoMemory;
use std::alloc::Global;
use std::sync::Wait;
use std::test::Fail;
use std::thread::Threads;
use test_parts::{CHECK_YES, RELOAD, SHAKE_ALICE, SHAKE_ROOT};

/// A reload by root.
const RELOADS: Scene = Scene {
    words: &[
        "--root",
        "/r",
        "--door",
        "0:/one",
        "--slots",
        "1",
        "--stop-after",
        "1",
    ],
    doors: &[&[LinkRow {
        gives: &[SHAKE_ROOT, RELOAD],
        room: ROOM,
    }]],
    sights: &[],
    fault: Fault::None,
};

/// Two slots with a check each.
const CHECKS: Scene = Scene {
    words: &[
        "--root",
        "/r",
        "--door",
        "1000:/one",
        "--door",
        "1000:/two",
        "--slots",
        "1",
        "--stop-after",
        "1",
    ],
    doors: &[
        &[LinkRow {
            gives: &[SHAKE_ALICE, CHECK_YES],
            room: ROOM,
        }],
        &[LinkRow {
            gives: &[SHAKE_ALICE, CHECK_YES],
            room: ROOM,
        }],
    ],
    sights: &[],
    fault: Fault::None,
};

/// What came of a reload whose tree fails at a call.
#[derive(Clone, Copy, Debug, PartialEq, Eq)]
enum Loading {
    /// The first load failed.
    First,
    /// The second load failed, and the service went on.
    Second,
    /// None did.
    Neither,
    /// Something else came of it.
    Other,
}

/// The lines of a service whose second load failed.
const REFUSED: &[(&str, &str)] = &[
    ("connection 3 0 done 1 1", ""),
    ("entries ", " loads 1 refused 1"),
];

/// Those of a service of which none did, whether its connection was told of the load or not.
const RELOADED: &[(&str, &str)] = &[
    ("connection 3 0 done 1 ", ""),
    ("entries ", " loads 2 refused 0"),
];

/// Plays the reload with a tree that fails at this call.
fn reload_at<R: Threads + Wait + Sync>(
    rt: &R,
    alloc: Global,
    call: u64,
) -> Result<Loading, NoMemory> {
    let scene = Scene {
        fault: Fault::Tree(call),
        ..RELOADS
    };
    let served = play(rt, alloc, &scene)?;
    let end = served.end.as_str();
    let written = served.written();
    Ok(if end == "TreeFault { count: 1 }" && written.is_empty() {
        Loading::First
    } else if end == "Done" && is_told(written, REFUSED) {
        Loading::Second
    } else if end == "Done" && is_told(written, RELOADED) {
        Loading::Neither
    } else {
        Loading::Other
    })
}

/// A load makes so many calls of this tree, as the test finds; the next one is the second load's.
#[test]
fn second_load_fails_at_each_call(rt: HostRuntime) -> Result<(), Fail> {
    let mut first = 0u64;
    let mut second = 0u64;
    for call in 1..24u64 {
        let came = reload_at(&rt, rt.alloc(), call)?;
        assert!(rt; came != Loading::Other, "at call {call}");
        first = first.saturating_add(u64::from(came == Loading::First));
        second = second.saturating_add(u64::from(came == Loading::Second));
    }
    assert!(rt; 0 < first);
    assert_eq!(rt; first, second);
    Ok(())
}

/// How the checks end with this fault.
fn end_with<R: Threads + Wait + Sync>(
    rt: &R,
    alloc: Global,
    fault: Fault,
) -> Result<String, NoMemory> {
    let scene = Scene { fault, ..CHECKS };
    let Served {
        end,
        output: _,
        station: _,
    } = play(rt, alloc, &scene)?;
    Ok(end)
}

/// How a service ends of which a call fails, where so many calls of its kind are made.
fn end_at(call: u64, made: u64, end: &'static str) -> &'static str {
    if call <= made { end } else { "Done" }
}

/// A fault, and how the checks end with it alone.
type Ending = (Fault, &'static str);

/// The faults at this call of each kind. A load lists four directories, and reads the policy file and
/// four tables.
fn kinds(call: u64) -> [Ending; 6] {
    [
        (Fault::Read(call), "Done"),
        (Fault::Write(call), "Done"),
        (Fault::Accept(call), end_at(call, 1, "DoorFault")),
        (Fault::Door(call), end_at(call, 2, "DoorFault")),
        (Fault::Tree(call), end_at(call, 9, "TreeFault { count: 1 }")),
        (Fault::Output(call), end_at(call, 1, "WriteFault")),
    ]
}

#[test]
fn each_failing_call_has_its_end(rt: HostRuntime) -> Result<(), Fail> {
    for call in 1..13u64 {
        for (fault, end) in kinds(call) {
            let came = end_with(&rt, rt.alloc(), fault)?;
            assert_eq!(rt; came.as_str(), end, "at call {call}");
        }
    }
    Ok(())
}

/// Two faults of different kinds, at these calls.
fn pairs(first: u64, second: u64) -> [[Ending; 2]; 6] {
    let [read, write, accept, door, tree, _] = kinds(first);
    let [_, _, other_accept, other_door, _, output] = kinds(second);
    [
        [read, other_accept],
        [write, output],
        [accept, output],
        [door, output],
        [tree, output],
        [tree, other_door],
    ]
}

/// Whether the checks end with both faults as with one of them alone, and are done where both calls are
/// never made or do no harm.
fn ends_as_one<R: Threads + Wait + Sync>(
    rt: &R,
    alloc: Global,
    pair: &[Ending; 2],
) -> Result<bool, NoMemory> {
    let [(one, by_one), (other, by_other)] = *pair;
    let end = end_with(rt, alloc, one.beside(other))?;
    let end = end.as_str();
    Ok((end == by_one || end == by_other) && (end != "Done" || by_one == by_other))
}

/// The first of these pairs with which they do not, by its place.
fn odd_pair<R: Threads + Wait + Sync>(
    rt: &R,
    alloc: Global,
    first: u64,
    second: u64,
) -> Result<Option<usize>, NoMemory> {
    for (place, pair) in pairs(first, second).iter().enumerate() {
        if !ends_as_one(rt, alloc, pair)? {
            return Ok(Some(place));
        }
    }
    Ok(None)
}

#[test]
fn two_failing_calls_end_as_one_of_them(rt: HostRuntime) -> Result<(), Fail> {
    for first in 1..5u64 {
        for second in 1..4u64 {
            let odd = odd_pair(&rt, rt.alloc(), first, second)?;
            assert_eq!(rt; odd, None, "at calls {first} and {second}");
        }
    }
    Ok(())
}
