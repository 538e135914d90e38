// Files and looks at processes in memory. What came back is compared with what was written by hand.
use memory_outside::{FilePlan, ListStation, StationPlan};
use pk_outside::{Failed, Sighted, Sights, Sink, Station, StationRefused};
use pk_types::NoMemory;
use std::alloc::Global;
use std::test::Fail;
use test_values::{one, text};

/// A station with one file to make, which has room for three bytes and takes two in a call. Its looks
/// at processes give two sightings.
fn station(alloc: Global) -> Result<ListStation, NoMemory> {
    let files = one(alloc, FilePlan::new(alloc, 3, 2, Vec::new(alloc))?)?;
    let mut sightings = one(alloc, Sighted::Alive { start: 8 })?;
    sightings.try_push(Sighted::Failed)?;
    let sights = one(alloc, sightings)?;
    let mut plan = StationPlan::empty(alloc);
    plan.files = files;
    plan.sights = sights;
    Ok(ListStation::new(alloc, plan))
}

/// Whether the file came back with these bytes, at the path `/f`, and with one fault.
fn is_file_back(station: &ListStation, written: &[u8]) -> bool {
    station.filed_files().get(0).is_some_and(|file| {
        file.path.bytes() == b"/f".as_slice()
            && file.written.as_slice() == written
            && file.faults == 1
    })
}

/// What the writes to the file answer, whether it came back, and the faults of the station.
fn file_told(alloc: Global) -> Result<([Result<usize, Failed>; 3], bool, u64), StationRefused> {
    let path = text(alloc, "/f").map_err(|_| StationRefused::NoMemory)?;
    let mut station = station(alloc).map_err(|_| StationRefused::NoMemory)?;
    let mut file = station.file(&path)?;
    let writes = [file.write(b"abc"), file.write(b"c"), file.write(b"d")];
    station.filed(file);
    Ok((writes, is_file_back(&station, b"abc"), station.faults()))
}

#[test]
fn a_file_comes_back(rt: HostRuntime) -> Result<(), Fail> {
    let (writes, is_back, faults) = file_told(rt.alloc())?;
    assert_eq!(rt; writes, [Ok(2), Ok(1), Err(Failed)]);
    assert!(rt; is_back);
    assert_eq!(rt; faults, 1);
    Ok(())
}

/// What three looks see, and how many of them failed.
fn seen(alloc: Global) -> Result<([Sighted; 3], u64), NoMemory> {
    let mut station = station(alloc)?;
    let mut sights = station.sights();
    let seen = [sights.sight(5), sights.sight(6), sights.sight(7)];
    Ok((seen, sights.faults()))
}

#[test]
fn sightings_come_in_order(rt: HostRuntime) -> Result<(), Fail> {
    let (seen, faults) = seen(rt.alloc())?;
    assert_eq!(rt;
        seen,
        [Sighted::Alive { start: 8 }, Sighted::Failed, Sighted::Gone]
    );
    assert_eq!(rt; faults, 1);
    Ok(())
}
