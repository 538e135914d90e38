// The station in memory. What came back is compared with what was written by hand.
use memory_outside::{
    ByteLink, ByteSink, ByteSource, DoorPlan, ListDoor, ListStation, Readings, ReturnedLink,
    StationPlan,
};
use pk_outside::{
    Accepted, Clock, Door, Ends, Failed, Link, Salt, Sink, Source, Station, StationRefused,
};
use pk_types::{List, NoMemory, Text};
use std::alloc::Global;
use std::test::Fail;
use test_values::{one, text};

/// A link that gives these two bytes, one in a read, and takes three. Its read with this number
/// fails.
fn link(alloc: Global, bytes: [u8; 2], failing: u64) -> Result<ByteLink, NoMemory> {
    let bytes = bytes.to_vec(alloc)?;
    let failing = vec![in alloc; failing]?;
    let output = ByteSink::new(alloc, 3, 3, Vec::new(alloc))?;
    Ok(ByteLink::new(ByteSource::new(bytes, 1, failing), output))
}

/// Links with these bytes, of which no read fails.
fn links(alloc: Global, all: &[[u8; 2]]) -> Result<List<ByteLink>, NoMemory> {
    let mut links = List::new(alloc);
    for bytes in all {
        links.try_push(link(alloc, *bytes, 0)?)?;
    }
    Ok(links)
}

/// A door with these links, whose call of `accept` with this number fails.
fn door(alloc: Global, all: &[[u8; 2]], failing: u64) -> Result<DoorPlan, NoMemory> {
    let links = links(alloc, all)?;
    let failing = vec![in alloc; failing]?;
    let mut plan = DoorPlan::empty(alloc);
    plan.links = links;
    plan.failing = failing;
    Ok(plan)
}

/// The links of a door, and the number of its call of `accept` that fails.
const DOORS: [(&[[u8; 2]], u64); 2] = [(&[*b"ab", *b"cd"], 2), (&[*b"ef"], 0)];

/// The doors of these rows.
fn doors(alloc: Global) -> Result<List<DoorPlan>, NoMemory> {
    let mut doors = List::new(alloc);
    for (links, failing) in DOORS {
        doors.try_push(door(alloc, links, failing)?)?;
    }
    Ok(doors)
}

/// A plan of a clock and a salt alone.
fn plan_of_readings(alloc: Global) -> Result<StationPlan, NoMemory> {
    let numbers = vec![in alloc; 5, 9_000_000_000_000_000_000]?;
    let clocks = one(alloc, Readings::new(numbers))?;
    let salts = one(alloc, one(alloc, 7)?)?;
    let mut plan = StationPlan::empty(alloc);
    plan.clocks = clocks;
    plan.salts = salts;
    Ok(plan)
}

/// The same plan with its doors and with its link to dial.
fn plan_of_links(alloc: Global) -> Result<StationPlan, NoMemory> {
    let doors = doors(alloc)?;
    let links = one(alloc, link(alloc, *b"gh", 1)?)?;
    let mut plan = plan_of_readings(alloc)?;
    plan.doors = doors;
    plan.links = links;
    Ok(plan)
}

/// Two doors, the first with the links `ab` and `cd` and a second `accept` that fails, the other with
/// the link `ef`; the link `gh` to dial, whose first read fails; a clock and a salt. The third call of
/// `door` and the first call of `dial` fail.
fn plan(alloc: Global) -> Result<StationPlan, NoMemory> {
    let failing_doors = vec![in alloc; 3]?;
    let failing_dials = vec![in alloc; 1]?;
    let mut plan = plan_of_links(alloc)?;
    plan.failing_doors = failing_doors;
    plan.failing_dials = failing_dials;
    Ok(plan)
}

/// The station of that plan.
fn station(alloc: Global) -> Result<ListStation, NoMemory> {
    let plan = plan(alloc)?;
    Ok(ListStation::new(alloc, plan))
}

/// The ends of the next link of a door, which are refused where it gives none.
fn accepted(door: &mut ListDoor) -> Result<Ends<ByteLink>, StationRefused> {
    match door.accept() {
        Accepted::Link(link) => Ok(link.split()),
        _ => Err(StationRefused::Failed),
    }
}

/// What a read of the ends answers.
fn read(ends: &mut Ends<ByteLink>) -> Result<usize, Failed> {
    let mut buffer = [0u8; 4];
    ends.input.read(&mut buffer)
}

/// Whether this link gave these bytes, of which so many were read, got these bytes, and counted so
/// many faults of reads.
fn is_back(
    link: Option<&ReturnedLink>,
    given: &[u8],
    read: usize,
    written: &[u8],
    faults: u64,
) -> bool {
    let Some(link) = link else {
        return false;
    };
    link.given.as_slice() == given
        && link.read == read
        && link.written.as_slice() == written
        && link.read_faults == faults
        && link.write_faults == 0
}

/// Shuts a door with the next clock and salt of the station.
fn shut(station: &mut ListStation, door: ListDoor) {
    let clock = station.clock();
    let salt = station.salt();
    station.shut(door, clock, salt);
}

/// Whether a door fails at this call.
fn door_fails(door: &mut ListDoor) -> bool {
    matches!(door.accept(), Accepted::Failed)
}

/// Whether a door is closed.
fn is_closed(door: &mut ListDoor) -> bool {
    matches!(door.accept(), Accepted::Closed)
}

/// Takes two links of a door, and gives them back, the last one first. It answers what a read of the
/// first link and a write to the second do, whether the door fails between the links, and whether it
/// is closed after them.
fn two_links(
    door: &mut ListDoor,
) -> Result<([Result<usize, Failed>; 2], [bool; 2]), StationRefused> {
    let mut ab = accepted(door)?;
    let read = read(&mut ab);
    let fails = door_fails(door);
    let mut cd = accepted(door)?;
    let written = cd.output.write(b"x");
    let is_closed = is_closed(door);
    door.back(cd);
    door.back(ab);
    Ok(([read, written], [fails, is_closed]))
}

/// Whether the station fails to make a door.
fn has_no_door(station: &mut ListStation, path: &Text) -> bool {
    matches!(station.door(9, path, 2), Err(StationRefused::Failed))
}

/// Makes two doors, uses the first as above, and shuts both, the second one first. It answers also
/// whether the station fails to make a third.
fn two_doors(
    station: &mut ListStation,
    path: &Text,
) -> Result<(bool, [Result<usize, Failed>; 2], [bool; 2]), StationRefused> {
    let mut first = station.door(7, path, 0)?;
    let second = station.door(8, path, 1)?;
    let has_no_third = has_no_door(station, path);
    let used = two_links(&mut first);
    shut(station, second);
    shut(station, first);
    let (ends, door) = used?;
    Ok((has_no_third, ends, door))
}

/// Whether the first door came back as the second one, with its links in the order in which it took
/// them back.
fn first_door_is_back(station: &ListStation) -> bool {
    let Some(door) = station.shut_doors().get(1) else {
        return false;
    };
    (door.uid, door.slot, door.faults) == (7, 0, 1)
        && door.path.bytes() == b"/u".as_slice()
        && is_back(door.links.get(0), b"cd", 0, b"x", 0)
        && is_back(door.links.get(1), b"ab", 1, b"", 0)
        && door.links.get(2).is_none()
}

/// What the doors of the station answer, its faults, and whether the first of them is back.
#[derive(Clone, Copy, Debug, PartialEq, Eq)]
struct DoorsTold {
    has_no_third: bool,
    ends: [Result<usize, Failed>; 2],
    fails_and_closes: [bool; 2],
    faults: u64,
    is_back: bool,
}

/// What the doors tell of a station with a path for both.
fn doors_told(alloc: Global) -> Result<DoorsTold, StationRefused> {
    let path = text(alloc, "/u").map_err(|_| StationRefused::NoMemory)?;
    let mut station = station(alloc).map_err(|_| StationRefused::NoMemory)?;
    let (has_no_third, ends, fails_and_closes) = two_doors(&mut station, &path)?;
    Ok(DoorsTold {
        has_no_third,
        ends,
        fails_and_closes,
        faults: station.faults(),
        is_back: first_door_is_back(&station),
    })
}

#[test]
fn doors_in_memory_give_their_links_and_keep_them(rt: HostRuntime) -> Result<(), Fail> {
    let want = DoorsTold {
        has_no_third: true,
        ends: [Ok(1), Ok(1)],
        fails_and_closes: [true, true],
        faults: 2,
        is_back: true,
    };
    assert_eq!(rt; doors_told(rt.alloc())?, want);
    Ok(())
}

/// Takes a link of a door and gives it back, and answers whether there was one.
fn takes_and_returns(door: &mut ListDoor) -> bool {
    match accepted(door) {
        Ok(ends) => {
            door.back(ends);
            true
        }
        Err(_) => false,
    }
}

/// Reads the next clock and salt of the station once and shuts a door with them.
fn read_and_shut(station: &mut ListStation, door: ListDoor) -> (u64, u128) {
    let mut clock = station.clock();
    let mut salt = station.salt();
    let read = (clock.now(), salt.word());
    station.shut(door, clock, salt);
    read
}

/// Makes two doors, takes a link of the second and gives it back, and shuts both, the second one
/// first. It answers whether there was a link, and what the first clock and salt told.
fn doors_in_order(
    station: &mut ListStation,
    path: &Text,
) -> Result<(bool, (u64, u128)), StationRefused> {
    let first = station.door(7, path, 0)?;
    let mut second = station.door(8, path, 1)?;
    let is_taken = takes_and_returns(&mut second);
    let read = read_and_shut(station, second);
    shut(station, first);
    Ok((is_taken, read))
}

/// Whether the second door came back first, with its link and with what its clock and its salt gave,
/// and one other door after it.
fn second_door_is_back(station: &ListStation) -> bool {
    let Some(door) = station.shut_doors().get(0) else {
        return false;
    };
    (door.uid, door.slot, door.left.len()) == (8, 1, 0)
        && door.clock.given() == [5].as_slice()
        && door.salt.given() == [7].as_slice()
        && is_back(door.links.get(0), b"ef", 0, b"", 0)
        && station.shut_doors().get(2).is_none()
}

/// What the doors answer in that order, the faults of the station, and whether the second is back.
fn order_told(alloc: Global) -> Result<((bool, (u64, u128)), u64, bool), StationRefused> {
    let path = text(alloc, "/u").map_err(|_| StationRefused::NoMemory)?;
    let mut station = station(alloc).map_err(|_| StationRefused::NoMemory)?;
    let told = doors_in_order(&mut station, &path)?;
    Ok((told, station.faults(), second_door_is_back(&station)))
}

#[test]
fn doors_in_memory_are_shut_in_order(rt: HostRuntime) -> Result<(), Fail> {
    assert_eq!(rt; order_told(rt.alloc())?, ((true, (5, 7)), 0, true));
    Ok(())
}

/// Whether the station fails to dial.
fn dial_fails(station: &mut ListStation, path: &Text) -> bool {
    matches!(station.dial(path), Err(StationRefused::Failed))
}

/// What two reads of the ends and a write to them answer.
fn ends_used(ends: &mut Ends<ByteLink>) -> [Result<usize, Failed>; 3] {
    let first = read(ends);
    let second = read(ends);
    [first, second, ends.output.write(b"xyz")]
}

/// Dials the link of the station, uses its ends, and hangs them up. It answers what the ends did,
/// whether a dial before and one after it fail, and the faults before the ends were used.
fn dialled(
    station: &mut ListStation,
    path: &Text,
) -> Result<([Result<usize, Failed>; 3], [bool; 2], u64), StationRefused> {
    let fails_before = dial_fails(station, path);
    let link = station.dial(path)?;
    let fails_after = dial_fails(station, path);
    let faults = station.faults();
    let mut ends = link.split();
    let used = ends_used(&mut ends);
    station.hang(ends);
    Ok((used, [fails_before, fails_after], faults))
}

/// Whether the link came back.
fn link_is_back(station: &ListStation) -> bool {
    let back = station.hung_links().get(0);
    is_back(back, b"gh", 1, b"xyz", 1)
        && back.is_some_and(|link| link.path.bytes() == b"/v".as_slice())
}

/// What a station that dials its link answers, and what it tells when the link was hung up.
#[derive(Clone, Copy, Debug, PartialEq, Eq)]
struct DialTold {
    ends: [Result<usize, Failed>; 3],
    fails_before_and_after: [bool; 2],
    faults: [u64; 2],
    is_back: bool,
}

/// What the station tells of its link.
fn dial_told(alloc: Global) -> Result<DialTold, StationRefused> {
    let path = text(alloc, "/v").map_err(|_| StationRefused::NoMemory)?;
    let mut station = station(alloc).map_err(|_| StationRefused::NoMemory)?;
    let (ends, fails_before_and_after, faults) = dialled(&mut station, &path)?;
    Ok(DialTold {
        ends,
        fails_before_and_after,
        faults: [faults, station.faults()],
        is_back: link_is_back(&station),
    })
}

#[test]
fn station_in_memory_dials_its_links(rt: HostRuntime) -> Result<(), Fail> {
    let want = DialTold {
        ends: [Err(Failed), Ok(1), Ok(3)],
        fails_before_and_after: [true, true],
        faults: [2, 3],
        is_back: true,
    };
    assert_eq!(rt; dial_told(rt.alloc())?, want);
    Ok(())
}

/// Four readings of the first clock of a station, whether it tells those that it had, and a reading
/// of the next clock.
fn clock_told(alloc: Global) -> Result<([u64; 4], bool, u64), NoMemory> {
    let mut station = station(alloc)?;
    let mut clock = station.clock();
    let read = [clock.now(), clock.now(), clock.now(), clock.now()];
    let is_given = clock.given() == [5, 1 << 62].as_slice();
    Ok((read, is_given, station.clock().now()))
}

/// Two words of the first salt of a station, whether it tells the one that it had, and a word of the
/// next salt.
fn salt_told(alloc: Global) -> Result<([u128; 2], bool, u128), NoMemory> {
    let mut station = station(alloc)?;
    let mut salt = station.salt();
    let words = [salt.word(), salt.word()];
    let is_given = salt.given() == [7].as_slice();
    Ok((words, is_given, station.salt().word()))
}

#[test]
fn clock_and_salt_in_memory_give_their_numbers_and_then_0(rt: HostRuntime) -> Result<(), Fail> {
    assert_eq!(rt; clock_told(rt.alloc())?, ([5, 1 << 62, 0, 0], true, 0));
    assert_eq!(rt; salt_told(rt.alloc())?, ([7, 0], true, 0));
    Ok(())
}
