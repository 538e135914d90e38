// What callers collect of the outputs to a connection.
ghost use Rattle.authority_model.specs.Given.{IsStepped};

use crate::calls::{collect, load, ready, step};
use authority_core::{Authority, CollectStepRefused, Limits};
use authority_model::{
    Answer, Call, ErrorCause, Event, Loaded, MAX_BYTES, MAX_ENTRIES, Message, Output, OutputList,
};
use pk_types::{NoMemory, Text};
use std::alloc::Global;
use std::test::Fail;

/// What an output tells: an error, the actions of a load, that something changed, or something else.
#[derive(Clone, Copy, PartialEq, Eq)]
enum Told {
    Refused(ErrorCause),
    Actions(u32),
    Changed,
    Other,
}

fn told_by(output: &Output) -> Told {
    match &output.message {
        Message::Reply {
            answer: Answer::Refused(cause),
            ..
        } => Told::Refused(*cause),
        Message::Reply {
            answer: Answer::Actions { load, .. },
            ..
        } => Told::Actions(*load),
        Message::Changed => Told::Changed,
        _ => Told::Other,
    }
}

/// What the output at a place tells, where there is one.
fn told_at(outputs: &OutputList, place: usize) -> Option<Told> {
    match outputs.get(place) {
        Some(output) => Some(told_by(output)),
        None => None,
    }
}

/// What happens next.
#[derive(Clone, Copy)]
enum Turn {
    /// Connection 1 announces a process that no world lists.
    Announce,
    /// Connection 1 asks for the actions.
    Enumerate,
    /// Connection 1 departs.
    Depart,
    /// The next load, which is empty.
    Reload,
    /// This caller may not collect the outputs to connection 1.
    Waits(u32),
    /// This caller collects a batch with this first number, and so many loads, that tells this.
    Collects(u32, u32, usize, [Option<Told>; 2]),
}

/// Whether connection 1 is answered.
fn steps(authority: &mut Authority, event: Event) -> bool
    requires stepped { IsStepped event }
{
    step(authority, 1, 0, event).ok().is_some()
}

fn call(call: Call) -> Event
    ensures stepped { IsStepped result }
{
    Event::Call {
        serial: 1,
        quiet: false,
        call,
    }
}

/// Whether a caller collects a batch with this first number, and so many loads, that tells this.
fn collects(
    authority: &mut Authority,
    caller: u32,
    from: u32,
    loads: usize,
    told: [Option<Told>; 2],
) -> bool {
    match collect(authority, caller, 1) {
        Some(Ok(batch)) => {
            batch.from == from
                && batch.loads.len() == loads
                && told_at(&batch.outputs, 0) == told[0]
                && told_at(&batch.outputs, 1) == told[1]
                && batch.outputs.len() <= 2
        }
        Some(Err(_)) | None => false,
    }
}

/// Whether this happens.
fn happens(authority: &mut Authority, alloc: Global, turn: Turn) -> bool {
    match turn {
        Turn::Announce => steps(authority, call(Call::Announce { pid: 5, start: 5 })),
        Turn::Enumerate => steps(
            authority,
            call(Call::EnumerateActions {
                locale: Text::new(alloc),
            }),
        ),
        Turn::Depart => steps(authority, Event::Depart),
        Turn::Reload => load(authority, 0, Loaded::empty(alloc)).ok().is_some(),
        Turn::Waits(caller) => !ready(authority, caller, 1),
        Turn::Collects(caller, from, loads, told) => {
            collects(authority, caller, from, loads, told)
        }
    }
}

/// Whether an empty load, connection 1 and these turns happen, one after the other.
fn all_happen(authority: &mut Authority, alloc: Global, turns: &[Turn]) -> bool {
    if !happens(authority, alloc, Turn::Reload) || !steps(authority, Event::Connect { uid: 1000 }) {
        return false;
    }
    for turn in turns {
        if !happens(authority, alloc, *turn) {
            return false;
        }
    }
    true
}

/// A new authority with room for so many entries.
fn with_room(alloc: Global, entries: u64) -> Result<Authority, NoMemory> {
    let limits = Limits {
        entries: entries.min(MAX_ENTRIES),
        bytes: MAX_BYTES,
    };
    Authority::start(alloc, limits)
}

const REFUSED: Option<Told> = Some(Told::Refused(ErrorCause::BadAnnounce));

const DEPARTED: [Turn; 7] = [
    Turn::Waits(2),
    Turn::Announce,
    Turn::Collects(2, 1, 0, [REFUSED, None]),
    Turn::Waits(2),
    Turn::Depart,
    Turn::Collects(2, 2, 0, [None, None]),
    Turn::Collects(3, 1, 0, [REFUSED, None]),
];

/// Whether the turns of a departure happen, and how many entries there are then.
fn departure(authority: &mut Authority, alloc: Global) -> (bool, usize) {
    let happened = all_happen(authority, alloc, &DEPARTED);
    (happened, authority.history().entries.len())
}

/// The same of a new authority.
fn departure_from_start(alloc: Global) -> Result<(bool, usize), NoMemory> {
    let mut authority = with_room(alloc, MAX_ENTRIES)?;
    Ok(departure(&mut authority, alloc))
}

#[test]
fn a_departed_connection_is_collected_to_its_end(rt: HostRuntime) -> Result<(), Fail> {
    assert_eq!(rt; departure_from_start(rt.alloc())?, (true, 7));
    Ok(())
}

const LOADS: [Turn; 5] = [
    Turn::Enumerate,
    Turn::Reload,
    Turn::Collects(2, 1, 1, [Some(Told::Actions(1)), Some(Told::Changed)]),
    Turn::Enumerate,
    Turn::Collects(2, 3, 2, [Some(Told::Actions(2)), None]),
];

/// Number of an output to connection 1, and what it tells.
const NUMBERED: [(u32, Option<Told>); 4] = [
    (0, None),
    (1, Some(Told::Actions(1))),
    (2, Some(Told::Changed)),
    (4, None),
];

/// The first number of which another output to connection 1 is told than its row says.
fn first_untold(authority: &Authority) -> Option<u32> {
    for (number, want) in NUMBERED {
        let told = match authority.output_to(1, number) {
            Some(output) => Some(told_by(output)),
            None => None,
        };
        if told != want {
            return Some(number);
        }
    }
    None
}

/// Whether the loads happen, how many outputs to connection 1 there are then, and which is told
/// wrongly.
fn loading(authority: &mut Authority, alloc: Global) -> (bool, u32, Option<u32>) {
    let happened = all_happen(authority, alloc, &LOADS);
    (happened, authority.sent_count(1), first_untold(authority))
}

/// The same of a new authority.
fn loading_from_start(alloc: Global) -> Result<(bool, u32, Option<u32>), NoMemory> {
    let mut authority = with_room(alloc, MAX_ENTRIES)?;
    Ok(loading(&mut authority, alloc))
}

#[test]
fn a_batch_has_the_loads_that_it_names(rt: HostRuntime) -> Result<(), Fail> {
    assert_eq!(rt; loading_from_start(rt.alloc())?, (true, 3, None));
    Ok(())
}

/// Whether a Collect is refused since the journal is full with three entries.
fn is_refused_by_three(authority: &mut Authority) -> bool {
    let full = CollectStepRefused::JournalFull {
        entries: 3,
        bytes: 256,
    };
    match collect(authority, 2, 1) {
        Some(Err(refused)) => refused == full,
        _ => false,
    }
}

/// Whether three entries are made, a Collect is refused then, and caller 2 may still collect.
fn filling(authority: &mut Authority, alloc: Global) -> [bool; 3] {
    [
        all_happen(authority, alloc, &[Turn::Announce]),
        is_refused_by_three(authority),
        ready(authority, 2, 1),
    ]
}

/// The same of a new authority with room for three entries.
fn filling_from_start(alloc: Global) -> Result<[bool; 3], NoMemory> {
    let mut authority = with_room(alloc, 3)?;
    Ok(filling(&mut authority, alloc))
}

#[test]
fn a_full_journal_refuses_a_collect(rt: HostRuntime) -> Result<(), Fail> {
    assert_eq!(rt; filling_from_start(rt.alloc())?, [true; 3]);
    Ok(())
}
