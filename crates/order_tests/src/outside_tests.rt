// Each public call once. The bytes that are wanted were written by hand.
use memory_outside::{
    ByteLink, ByteSink, ByteSource, ListDoor, ListStation, ListTree, SureSink, SureSource, SureTree,
};
use pk_outside::{
    Accepted, Clock, Door, Failed, FileBytes, Link, Names, Salt, Sink, Source, Station,
    StationRefused, Tree, TreeDirectory, TreeFile, TreeRefused, write_all,
};
use pk_types::{List, NoMemory, Text};
use real_outside::{ReadSource, WriteSink};
use std::alloc::Global;
use std::io;
use std::test::Fail;
use test_values::{one, text};

/// What a read answers, and the buffer after it.
type Read = (Result<usize, Failed>, [u8; 4]);

/// A read into this buffer.
fn read_into<I: Source>(source: &mut I, before: [u8; 4]) -> Read {
    let mut buffer = before;
    let read = source.read(&mut buffer);
    (read, buffer)
}

/// Five reads, each into the buffer of the one before, and the faults after the second and after
/// the last.
fn five_reads(source: &mut ByteSource) -> ([Read; 5], [u64; 2]) {
    let first = read_into(source, [0; 4]);
    let second = read_into(source, first.1);
    let faults = source.faults();
    let third = read_into(source, second.1);
    let fourth = read_into(source, third.1);
    let fifth = read_into(source, fourth.1);
    (
        [first, second, third, fourth, fifth],
        [faults, source.faults()],
    )
}

/// These reads of a source of `abc` that gives one byte at a time and fails at its second call.
fn piece_reads(alloc: Global) -> Result<([Read; 5], [u64; 2]), NoMemory> {
    let bytes = b"abc".to_vec(alloc)?;
    let failing = vec![in alloc; 2]?;
    let mut source = ByteSource::new(bytes, 1, failing);
    Ok(five_reads(&mut source))
}

/// Two reads of a source of `abc` that never fails and gives two bytes at a time.
fn sure_reads(alloc: Global) -> Result<[Read; 2], NoMemory> {
    let mut source = SureSource::new(b"abc".to_vec(alloc)?, 2);
    let first = read_into(&mut source, [0; 4]);
    Ok([first, read_into(&mut source, first.1)])
}

#[test]
fn source_gives_its_bytes_in_pieces(rt: HostRuntime) -> Result<(), Fail> {
    let (reads, faults) = piece_reads(rt.alloc())?;
    let want = [
        (Ok(1), [b'a', 0, 0, 0]),
        (Err(Failed), [b'a', 0, 0, 0]),
        (Ok(1), [b'b', 0, 0, 0]),
        (Ok(1), [b'c', 0, 0, 0]),
        (Ok(0), [b'c', 0, 0, 0]),
    ];
    assert_eq!(rt; reads, want);
    assert_eq!(rt; faults, [1, 1]);
    let want = [(Ok(2), [b'a', b'b', 0, 0]), (Ok(1), [b'c', b'b', 0, 0])];
    assert_eq!(rt; sure_reads(rt.alloc())?, want);
    Ok(())
}

/// Whether a sink takes bytes in full, and holds these then.
fn takes(sink: &mut ByteSink, bytes: &[u8], held: &[u8]) -> (bool, bool) {
    let is_taken = write_all(sink, bytes).is_ok();
    (is_taken, sink.bytes() == held)
}

/// What two writes of a byte answer, and the faults after them.
fn two_writes(sink: &mut ByteSink) -> ([Result<usize, Failed>; 2], u64) {
    let writes = [sink.write(b"f"), sink.write(b"f")];
    (writes, sink.faults())
}

/// What a sink with room for five bytes, whose fourth call fails, does with six bytes and with more.
#[derive(Clone, Copy, Debug, PartialEq, Eq)]
struct SinkTold {
    takes_and_holds: [(bool, bool); 2],
    writes: [Result<usize, Failed>; 2],
    faults: u64,
}

/// What that sink tells.
fn sink_told(alloc: Global) -> Result<SinkTold, NoMemory> {
    let failing = vec![in alloc; 4]?;
    let mut sink = ByteSink::new(alloc, 5, 2, failing)?;
    let abc = takes(&mut sink, b"abc", b"abc");
    let def = takes(&mut sink, b"def", b"abcde");
    let (writes, faults) = two_writes(&mut sink);
    Ok(SinkTold {
        takes_and_holds: [abc, def],
        writes,
        faults,
    })
}

#[test]
fn full_sink_counts_each_fault(rt: HostRuntime) -> Result<(), Fail> {
    let want = SinkTold {
        takes_and_holds: [(true, true), (false, true)],
        writes: [Err(Failed), Err(Failed)],
        faults: 3,
    };
    assert_eq!(rt; sink_told(rt.alloc())?, want);
    let mut sure = SureSink::new();
    assert_eq!(rt; sure.write(b"abc"), Ok(3));
    Ok(())
}

/// The file `/d/a` with the bytes `abc`.
fn files(alloc: Global) -> Result<List<TreeFile>, NoMemory> {
    let path = text(alloc, "/d/a")?;
    let bytes = List::try_from_slice(alloc, b"abc")?;
    one(alloc, TreeFile { path, bytes })
}

/// The directory `/d` with the name `a` and two names that are no text.
fn directories(alloc: Global) -> Result<List<TreeDirectory>, NoMemory> {
    let path = text(alloc, "/d")?;
    let names = one(alloc, text(alloc, "a")?)?;
    let directory = TreeDirectory {
        path,
        names,
        unnamed: 2,
    };
    one(alloc, directory)
}

/// Whether a tree lists `/d` with one name and two that are no text.
fn lists_two_unnamed<T: Tree>(tree: &mut T, path: &Text) -> bool {
    match tree.names(path) {
        Ok(Names::Listed { names, unnamed }) => names.len() == 1 && unnamed == 2,
        _ => false,
    }
}

/// Whether a tree reads `abc` at the path.
fn reads_abc<T: Tree>(tree: &mut T, path: &Text) -> bool {
    match tree.read(path, 3) {
        Ok(FileBytes::Bytes(bytes)) => bytes.as_slice() == b"abc".as_slice(),
        _ => false,
    }
}

/// Whether a tree's file is too long for a limit of two bytes.
fn is_too_long<T: Tree>(tree: &mut T, path: &Text) -> bool {
    matches!(tree.read(path, 2), Ok(FileBytes::TooLong))
}

/// Whether a tree finds no directory at the path.
fn has_no_directory<T: Tree>(tree: &mut T, path: &Text) -> bool {
    matches!(tree.names(path), Ok(Names::Absent))
}

/// Whether a tree finds no file at the path.
fn has_no_file<T: Tree>(tree: &mut T, path: &Text) -> bool {
    matches!(tree.read(path, 9), Ok(FileBytes::Absent))
}

/// What a tree tells of `/d` and of `/d/a`, by the five questions above.
fn told<T: Tree>(alloc: Global, tree: &mut T) -> Result<[bool; 5], NoMemory> {
    let directory = text(alloc, "/d")?;
    let file = text(alloc, "/d/a")?;
    Ok([
        lists_two_unnamed(tree, &directory),
        reads_abc(tree, &file),
        is_too_long(tree, &file),
        has_no_directory(tree, &file),
        has_no_file(tree, &directory),
    ])
}

/// What a tree in memory tells of its files.
fn list_tree_told(alloc: Global) -> Result<[bool; 5], NoMemory> {
    let files = files(alloc)?;
    let directories = directories(alloc)?;
    let mut tree = ListTree::new(alloc, files, directories, Vec::new(alloc));
    told(alloc, &mut tree)
}

/// Whether a tree without files finds no directory.
fn empty_tree_has_none(alloc: Global) -> Result<bool, NoMemory> {
    let directory = text(alloc, "/d")?;
    let mut tree = ListTree::empty(alloc);
    Ok(has_no_directory(&mut tree, &directory))
}

#[test]
fn tree_in_memory_gives_its_files(rt: HostRuntime) -> Result<(), Fail> {
    assert_eq!(rt; list_tree_told(rt.alloc())?, [true; 5]);
    assert!(rt; empty_tree_has_none(rt.alloc())?);
    Ok(())
}

/// Whether a tree fails to list the path.
fn names_fail<T: Tree>(tree: &mut T, path: &Text) -> bool {
    matches!(tree.names(path), Err(TreeRefused::Failed))
}

/// Whether a tree fails to read the path.
fn read_fails<T: Tree>(tree: &mut T, path: &Text) -> bool {
    matches!(tree.read(path, 3), Err(TreeRefused::Failed))
}

/// Whether the second and the third call of a tree without files fail and those around them do not,
/// and the faults after them.
fn failing_tree_told(alloc: Global) -> Result<([bool; 4], u64), NoMemory> {
    let path = text(alloc, "/u")?;
    let failing = vec![in alloc; 2, 3]?;
    let mut tree = ListTree::new(alloc, List::new(alloc), List::new(alloc), failing);
    let answers = [
        has_no_directory(&mut tree, &path),
        names_fail(&mut tree, &path),
        read_fails(&mut tree, &path),
        has_no_directory(&mut tree, &path),
    ];
    Ok((answers, tree.faults()))
}

#[test]
fn tree_in_memory_fails_at_the_listed_calls(rt: HostRuntime) -> Result<(), Fail> {
    assert_eq!(rt; failing_tree_told(rt.alloc())?, ([true; 4], 2));
    Ok(())
}

/// What a tree that never fails tells of its files, and its faults.
fn sure_tree_told(alloc: Global) -> Result<([bool; 5], u64), NoMemory> {
    let files = files(alloc)?;
    let directories = directories(alloc)?;
    let mut tree = SureTree::new(alloc, files, directories);
    let answers = told(alloc, &mut tree)?;
    Ok((answers, tree.faults()))
}

#[test]
fn sure_tree_gives_its_files(rt: HostRuntime) -> Result<(), Fail> {
    assert_eq!(rt; sure_tree_told(rt.alloc())?, ([true; 5], 0));
    Ok(())
}

/// A link with the bytes `ab` whose reads with these numbers fail.
fn link(alloc: Global, failing: Vec<u64>) -> Result<ByteLink, NoMemory> {
    let bytes = b"ab".to_vec(alloc)?;
    let output = ByteSink::new(alloc, 9, 9, Vec::new(alloc))?;
    Ok(ByteLink::new(ByteSource::new(bytes, 9, failing), output))
}

/// Whether a door is closed.
fn is_closed(door: &mut ListDoor) -> bool {
    matches!(door.accept(), Accepted::Closed)
}

/// Gives a link to a door, and answers what a read of the link and a write to it did.
fn give_link(door: &mut ListDoor, link: ByteLink) -> [Result<usize, Failed>; 2] {
    let mut ends = link.split();
    let (read, _) = read_into(&mut ends.input, [0; 4]);
    let written = ends.output.write(b"c");
    door.back(ends);
    [read, written]
}

/// What a door without a link tells: its user, whether it is closed, and the ends of a link that it
/// takes back.
type DoorTold = (u32, bool, [Result<usize, Failed>; 2]);

/// Makes a door and shuts it when it took the link back.
fn door_told(
    station: &mut ListStation,
    path: &Text,
    link: ByteLink,
) -> Result<DoorTold, StationRefused> {
    let mut door = station.door(7, path, 0)?;
    let uid = door.uid();
    let is_closed = is_closed(&mut door);
    let ends = give_link(&mut door, link);
    let clock = station.clock();
    let salt = station.salt();
    station.shut(door, clock, salt);
    Ok((uid, is_closed, ends))
}

/// What a door of an empty station tells, and the faults of the station.
fn empty_station_told(alloc: Global) -> Result<(Result<DoorTold, StationRefused>, u64), NoMemory> {
    let path = text(alloc, "/u")?;
    let link = link(alloc, Vec::new(alloc))?;
    let mut station = ListStation::empty(alloc);
    let told = door_told(&mut station, &path, link);
    Ok((told, station.faults()))
}

#[test]
fn door_in_memory_is_closed(rt: HostRuntime) -> Result<(), Fail> {
    let (told, faults) = empty_station_told(rt.alloc())?;
    assert_eq!(rt; told, Ok((7, true, [Ok(2), Ok(1)])));
    assert_eq!(rt; faults, 0);
    Ok(())
}

/// Hangs a link up at a station, and answers what a read of it did.
fn hang_link(station: &mut ListStation, link: ByteLink) -> Result<usize, Failed> {
    let mut ends = link.split();
    let (read, _) = read_into(&mut ends.input, [0; 4]);
    station.hang(ends);
    read
}

/// What an empty station tells of a dial, and of a link whose first read fails.
#[derive(Clone, Copy, Debug, PartialEq, Eq)]
struct DialTold {
    is_refused: bool,
    read: Result<usize, Failed>,
    faults: [u64; 2],
}

/// What an empty station tells of these.
fn dial_told(alloc: Global) -> Result<DialTold, NoMemory> {
    let path = text(alloc, "/u")?;
    let link = link(alloc, vec![in alloc; 1]?)?;
    let mut station = ListStation::empty(alloc);
    let is_refused = station.dial(&path).is_err();
    let faults = station.faults();
    let read = hang_link(&mut station, link);
    Ok(DialTold {
        is_refused,
        read,
        faults: [faults, station.faults()],
    })
}

#[test]
fn station_in_memory_counts_its_faults(rt: HostRuntime) -> Result<(), Fail> {
    let want = DialTold {
        is_refused: true,
        read: Err(Failed),
        faults: [1, 2],
    };
    assert_eq!(rt; dial_told(rt.alloc())?, want);
    Ok(())
}

/// A reading and a word of an empty station.
fn empty_readings(alloc: Global) -> (u64, u128) {
    let mut station = ListStation::empty(alloc);
    let reading = station.clock().now();
    let word = station.salt().word();
    (reading, word)
}

#[test]
fn clock_and_salt_in_memory_give_0(rt: HostRuntime) {
    assert_eq!(rt; empty_readings(rt.alloc()), (0, 0));
}

/// A reader and a writer that always fail.
#[derive(Drop)]
struct Broken;

impl io::Read for Broken {
    fn read(&mut self, _buffer: &mut [u8]) -> io::Result<usize> {
        Err(io::Error::from(io::ErrorKind::Other))
    }
}

impl io::Write for Broken {
    fn write(&mut self, _bytes: &[u8]) -> io::Result<usize> {
        Err(io::Error::from(io::ErrorKind::Other))
    }

    fn flush(&mut self) -> io::Result<()> {
        Ok(())
    }
}

/// What three reads of a real source of `abc` answer, the buffer after the first of them, and the
/// faults.
fn real_reads() -> ([Result<usize, Failed>; 3], [u8; 2], u64) {
    let mut source = ReadSource::new(b"abc".as_slice());
    let mut buffer = [0u8; 2];
    let first = source.read(&mut buffer);
    let got = buffer;
    let second = source.read(&mut buffer);
    let third = source.read(&mut buffer);
    ([first, second, third], got, source.faults())
}

/// What a read of a reader that fails answers, and the faults.
fn broken_read() -> (Result<usize, Failed>, u64) {
    let mut source = ReadSource::new(Broken);
    let (read, _) = read_into(&mut source, [0; 4]);
    (read, source.faults())
}

#[test]
fn real_source_reads_to_its_end(rt: HostRuntime) {
    assert_eq!(rt; real_reads(), ([Ok(2), Ok(1), Ok(0)], *b"ab", 0));
    assert_eq!(rt; broken_read(), (Err(Failed), 1));
}

/// What a write to a writer that fails answers, and the faults.
fn broken_write() -> (Result<usize, Failed>, u64) {
    let mut sink = WriteSink::new(Broken);
    let written = sink.write(b"a");
    (written, sink.faults())
}

#[test]
fn real_sink_writes_to_standard_output(rt: HostRuntime) {
    let mut sink = WriteSink::new(io::writer(&rt));
    assert_eq!(rt; write_all(&mut sink, b"written\n"), Ok(()));
    assert_eq!(rt; sink.faults(), 0);
    assert_eq!(rt; broken_write(), (Err(Failed), 1));
}
