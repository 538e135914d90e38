// A desk: where outputs stand, how many of them were collected, and what the loader is told by a Stop.
use crate::calls::{collected, desk_collect, desk_step, place};
use authority_desk::Desk;
use authority_model::{Call, Event, Message, OutputList};
use pk_types::NoMemory;
use std::alloc::Global;
use std::test::Fail;

/// A desk at which uid 1000 made connection 1.
fn connected(alloc: Global) -> Result<Box<Desk>, NoMemory> {
    let mut desk = Box::new(alloc, Desk::start(alloc)?)?;
    desk_step(desk.as_mut(), Event::Connect { uid: 1000 })?;
    Ok(desk)
}

/// Connection 1 announces a process that no world lists, which is refused.
fn announce(desk: &mut Desk) -> Result<usize, NoMemory> {
    let call = Call::Announce { pid: 5, start: 5 };
    let event = Event::Call {
        serial: 1,
        quiet: false,
        call,
    };
    Ok(desk_step(desk, event)?.outputs.len())
}

/// Where the outputs 0, 1, 2 and 3 to connection 1 stand.
fn places(desk: &Desk) -> [Option<(u64, u32)>; 4] {
    [
        place(desk, 1, 0),
        place(desk, 1, 1),
        place(desk, 1, 2),
        place(desk, 1, 3),
    ]
}

/// How many outputs callers 8 and 9 have collected to connection 1, and caller 9 to connection 2.
fn collections(desk: &Desk) -> [u32; 3] {
    [
        collected(desk, 8, 1),
        collected(desk, 9, 1),
        collected(desk, 9, 2),
    ]
}

/// The places after two refusals, and what is collected before and after a Collect.
type Shown = ([Option<(u64, u32)>; 4], [u32; 3], [u32; 3]);

/// What a desk shows of two refusals and of a Collect.
fn shown(alloc: Global) -> Result<Shown, NoMemory> {
    let mut desk = connected(alloc)?;
    let _first = announce(desk.as_mut())?;
    let _second = announce(desk.as_mut())?;
    let before = collections(desk.as_ref());
    desk_collect(desk.as_mut())?;
    Ok((places(desk.as_ref()), before, collections(desk.as_ref())))
}

#[test]
fn outputs_are_located_and_collected(rt: HostRuntime) -> Result<(), Fail> {
    let places = [None, Some((1, 0)), Some((2, 0)), None];
    assert_eq!(rt; shown(rt.alloc())?, (places, [0, 0, 0], [0, 2, 0]));
    Ok(())
}

/// Whether the first output tells the loader to stop.
fn is_stop(outputs: &OutputList) -> bool {
    match outputs.get(0) {
        Some(output) => output.to == 0 && matches!(output.message, Message::StopWanted),
        None => false,
    }
}

/// How many outputs a Stop has, and whether the first tells the loader to stop.
fn stopped(alloc: Global) -> Result<(usize, bool), NoMemory> {
    let mut desk = connected(alloc)?;
    let entry = desk_step(desk.as_mut(), Event::Stop)?;
    Ok((entry.outputs.len(), is_stop(&entry.outputs)))
}

#[test]
fn the_loader_is_stopped(rt: HostRuntime) -> Result<(), Fail> {
    assert_eq!(rt; stopped(rt.alloc())?, (1, true));
    Ok(())
}
