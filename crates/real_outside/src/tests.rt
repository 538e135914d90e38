// The objects over the real system, whose files the tests make where they run.
ghost use Rattle.pk_outside.specs.Allowing.{IsFree};

use crate::door::is_passing;
use crate::socket::{HANDSHAKE_SECONDS, WRITE_SECONDS};
use crate::{ReadSource, SocketStation, StationCall, SystemClock, WriteSink};
use pk_outside::{
    Accepted, Clock, Door, Ends, Failed, Link, Salt, Sighted, Sights, Sink, Source, Station,
    write_all,
};
use pk_types::Text;
use rand::make_rng;
use std::alloc::Global;
use std::fs::{self, File, Files};
use std::io::{self, ErrorKind};
use std::net::Net;
use std::random::RandomSource;
use std::test::Fail;
use std::time::{self, Duration};

fn text(alloc: Global, path: &str) -> Result<Text, Fail> {
    Ok(Text::try_from_bytes(alloc, path.as_bytes())?)
}

/// A station of the system.
fn station<R: Net + Files<File = File> + time::Clock + RandomSource + AllocGlobal + Sync>(
    rt: &R,
) -> io::Result<SocketStation<'_, R>> {
    Ok(SocketStation::new(rt, rt.alloc(), make_rng(rt)?))
}

/// The two directions of the next connection, if there is one.
fn accepted<D: Door>(door: &mut D) -> Option<Ends<D::Link>> {
    match door.accept() {
        Accepted::Link(link) => Some(link.split()),
        Accepted::Closed | Accepted::Idle | Accepted::Failed | Accepted::NoMemory => None,
    }
}

/// Whether the bytes that are written to the one are read from the other.
#[tactic(auto, using(pk_outside::proofs::Going::may_go_free))]
fn carries<O: Sink, I: Source>(output: &mut O, input: &mut I, bytes: &[u8]) -> bool
    requires free { IsFree O.allowed }
{
    let mut buffer = [0u8; 16];
    if write_all(output, bytes).is_err() {
        return false;
    }
    match input.read(&mut buffer) {
        Ok(count) if count <= buffer.len() => &buffer[..count] == bytes,
        _ => false,
    }
}

/// Whether a source is at its end.
fn is_at_end<I: Source>(input: &mut I) -> bool {
    let mut buffer = [0u8; 16];
    input.read(&mut buffer) == Ok(0)
}

#[test]
fn two_dials_reach_a_door_of_their_path(rt: HostRuntime) -> Result<(), Fail> {
    let _ = fs::remove_file(&rt, "two.socket");
    let path = text(rt.alloc(), "two.socket")?;
    let mut station = station(&rt)?;
    let idle = station.door(1000, &path, 0).expect(&rt, "a door");
    let mut door = station.door(1000, &path, 1).expect(&rt, "a second door");
    for _ in 0..2 {
        let mut ours = station.dial(&path).expect(&rt, "a dialled link").split();
        let mut theirs = accepted(&mut door).expect(&rt, "an accepted link");
        assert!(rt; carries(&mut ours.output, &mut theirs.input, b"question"));
        assert!(rt; carries(&mut theirs.output, &mut ours.input, b"answer"));
        door.back(theirs);
        assert!(rt; is_at_end(&mut ours.input));
        station.hang(ours);
    }
    assert_eq!(rt; door.uid(), 1000);
    for door in [idle, door] {
        let (clock, salt) = (station.clock(), station.salt());
        station.shut(door, clock, salt);
    }
    assert_eq!(rt; station.faults(), 0);
    Ok(())
}

#[test]
fn file_goes_with_the_last_door_of_its_path(rt: HostRuntime) -> Result<(), Fail> {
    let _ = fs::remove_file(&rt, "last.socket");
    let path = text(rt.alloc(), "last.socket")?;
    let mut station = station(&rt)?;
    let one = station.door(0, &path, 0).expect(&rt, "the first door");
    let two = station.door(0, &path, 1).expect(&rt, "the second door");
    let (clock, salt) = (station.clock(), station.salt());
    station.shut(one, clock, salt);
    assert!(rt; fs::metadata(&rt, "last.socket").is_ok());
    let (clock, salt) = (station.clock(), station.salt());
    station.shut(two, clock, salt);
    assert!(rt; fs::metadata(&rt, "last.socket").is_err());
    assert_eq!(rt; station.faults(), 0);
    Ok(())
}

#[test]
fn path_that_stands_already_is_refused_and_left(rt: HostRuntime) -> Result<(), Fail> {
    fs::write(&rt, "standing.socket", "a file")?;
    let path = text(rt.alloc(), "standing.socket")?;
    let mut station = station(&rt)?;
    assert!(rt; station.refusal().is_none());
    assert!(rt; station.door(0, &path, 0).is_err());
    assert_eq!(rt; station.faults(), 1);
    assert_eq!(rt;
        fs::read_to_string(&rt, "standing.socket")?.as_str(),
        "a file"
    );
    let refusal = station.refusal().expect(&rt, "a refusal");
    assert!(rt; refusal.call == StationCall::Listen && refusal.path.is_same(&path));
    let told = format!(in rt.alloc(); "{refusal}")?;
    assert_eq!(rt;
        told.as_str(),
        "cannot listen at standing.socket: Address already in use (os error 98)"
    );
    Ok(())
}

#[test]
fn refused_dials_have_their_cause(rt: HostRuntime) -> Result<(), Fail> {
    fs::write(&rt, "plain.file", "a file")?;
    let mut station = station(&rt)?;
    for (path, cause) in [
        ("", ErrorKind::InvalidInput),
        ("none.socket", ErrorKind::NotFound),
        ("plain.file/below", ErrorKind::NotADirectory),
        ("plain.file", ErrorKind::ConnectionRefused),
    ] {
        let path = text(rt.alloc(), path)?;
        assert!(rt; station.dial(&path).is_err(), "{path:?}");
        let refusal = station.refusal().expect(&rt, "a refusal");
        assert_eq!(rt; refusal.cause.kind(), cause, "{path:?}");
    }
    assert_eq!(rt; station.faults(), 4);
    Ok(())
}

#[test]
fn gone_peer_is_a_fault_and_no_signal(rt: HostRuntime) -> Result<(), Fail> {
    let _ = fs::remove_file(&rt, "gone.socket");
    let path = text(rt.alloc(), "gone.socket")?;
    let mut station = station(&rt)?;
    let mut door = station.door(0, &path, 0).expect(&rt, "a door");
    let link = station.dial(&path).expect(&rt, "a dialled link");
    let wait = link.output.stream.write_timeout()?;
    assert_eq!(rt; wait, Some(Duration::from_secs(WRITE_SECONDS)));
    let mut ours = link.split();
    drop(accepted(&mut door));
    assert!(rt; ours.output.write(b"question").is_err());
    assert!(rt; is_at_end(&mut ours.input));
    station.hang(ours);
    assert_eq!(rt; station.faults(), 1);
    let (clock, salt) = (station.clock(), station.salt());
    station.shut(door, clock, salt);
    assert_eq!(rt; station.faults(), 1);
    Ok(())
}

#[test]
fn door_is_idle_where_nobody_comes(rt: HostRuntime) -> Result<(), Fail> {
    let _ = fs::remove_file(&rt, "idle.socket");
    let path = text(rt.alloc(), "idle.socket")?;
    let mut station = station(&rt)?;
    let mut door = station.door(0, &path, 0).expect(&rt, "a door");
    assert!(rt; matches!(door.accept(), Accepted::Idle));
    let ours = station.dial(&path).expect(&rt, "a dialled link").split();
    let theirs = accepted(&mut door).expect(&rt, "an accepted link");
    let wait = theirs.input.stream.read_timeout()?;
    assert_eq!(rt; wait, Some(Duration::from_secs(HANDSHAKE_SECONDS)));
    assert_eq!(rt; ours.input.stream.read_timeout()?, None);
    door.back(theirs);
    station.hang(ours);
    let (clock, salt) = (station.clock(), station.salt());
    station.shut(door, clock, salt);
    assert_eq!(rt; station.faults(), 0);
    Ok(())
}

#[test]
fn closed_sink_ends_its_source_and_leaves_what_was_written(rt: HostRuntime) -> Result<(), Fail> {
    let _ = fs::remove_file(&rt, "closed.socket");
    let path = text(rt.alloc(), "closed.socket")?;
    let mut station = station(&rt)?;
    let mut door = station.door(0, &path, 0).expect(&rt, "a door");
    let mut ours = station.dial(&path).expect(&rt, "a dialled link").split();
    let mut theirs = accepted(&mut door).expect(&rt, "an accepted link");
    theirs.input.lift_time_limit();
    assert_eq!(rt; theirs.input.stream.read_timeout()?, None);
    assert_eq!(rt; theirs.output.write(b"answer"), Ok(6));
    theirs.output.close();
    assert!(rt; is_at_end(&mut theirs.input));
    let mut buffer = [0u8; 16];
    assert_eq!(rt; ours.input.read(&mut buffer), Ok(6));
    assert!(rt; &buffer[..6] == b"answer".as_slice());
    assert!(rt; is_at_end(&mut ours.input));
    door.back(theirs);
    station.hang(ours);
    let (clock, salt) = (station.clock(), station.salt());
    station.shut(door, clock, salt);
    assert_eq!(rt; station.faults(), 0);
    Ok(())
}

#[test]
fn clocks_tell_the_time_and_salts_differ(rt: HostRuntime) -> Result<(), Fail> {
    let mut station = station(&rt)?;
    // The first second of 2020.
    assert!(rt; station.clock().now() > 1_577_836_800);
    let (mut one, mut two) = (station.salt(), station.salt());
    let words = [one.word(), two.word(), one.word(), two.word()];
    for (i, word) in words.iter().enumerate() {
        assert!(rt; !words[..i].contains(word), "{words:?}");
    }
    Ok(())
}

/// A clock of the system that stands still.
#[derive(Drop)]
struct Stopped(Duration);

impl time::Clock for Stopped {
    fn monotonic(&self) -> io::Result<Duration> {
        Ok(self.0)
    }

    fn since_1970(&self) -> io::Result<Duration> {
        Ok(self.0)
    }
}

#[test]
fn each_reading_asks_the_system(rt: HostRuntime) {
    let (one, two) = (
        Stopped(Duration::from_secs(7)),
        Stopped(Duration::from_secs(8)),
    );
    let mut clock = SystemClock { rt: &one, last: 0 };
    assert_eq!(rt; clock.now(), 7);
    clock.rt = &two;
    assert_eq!(rt; clock.now(), 8);
}

#[test]
fn want_of_descriptors_and_peers_that_left_are_passed_over(rt: HostRuntime) {
    // EMFILE, ENFILE and ECONNABORTED, and then EINVAL, EBADF and ENOMEM.
    for (code, passes) in [
        (24, true),
        (23, true),
        (103, true),
        (22, false),
        (9, false),
        (12, false),
    ] {
        assert_eq!(rt;
            is_passing(&io::Error::from_raw_os_error(code)),
            passes,
            "{code}"
        );
    }
}

/// A reader and a writer whose first calls a signal interrupts, and which then takes one byte.
#[derive(Drop)]
struct Interrupted {
    calls: u32,
}

impl Interrupted {
    fn answer(&mut self) -> io::Result<usize> {
        self.calls = self.calls.saturating_add(1);
        if self.calls < 3 {
            return Err(ErrorKind::Interrupted.into());
        }
        Ok(1)
    }
}

impl io::Read for Interrupted {
    fn read(&mut self, buffer: &mut [u8]) -> io::Result<usize> {
        let count = self.answer()?;
        Ok(count.min(buffer.len()))
    }
}

impl io::Write for Interrupted {
    fn write(&mut self, bytes: &[u8]) -> io::Result<usize> {
        let count = self.answer()?;
        Ok(count.min(bytes.len()))
    }

    fn flush(&mut self) -> io::Result<()> {
        Ok(())
    }
}

#[test]
fn interrupted_calls_are_made_again(rt: HostRuntime) {
    let mut source = ReadSource::new(Interrupted { calls: 0 });
    let mut buffer = [0u8; 4];
    let read: Result<usize, Failed> = source.read(&mut buffer);
    assert_eq!(rt; (read, source.faults()), (Ok(1), 0));
    let mut sink = WriteSink::new(Interrupted { calls: 0 });
    let written = sink.write(b"ab");
    assert_eq!(rt; (written, sink.faults()), (Ok(1), 0));
}

#[test]
fn file_is_made_anew(rt: HostRuntime) -> Result<(), Fail> {
    fs::write(&rt, "made.file", "what stood there before")?;
    let path = text(rt.alloc(), "made.file")?;
    let mut station = station(&rt)?;
    let mut file = station.file(&path).expect(&rt, "a file");
    assert_eq!(rt; write_all(&mut file, b"written\n"), Ok(()));
    station.filed(file);
    assert_eq!(rt; fs::read_to_string(&rt, "made.file")?.as_str(), "written\n");
    assert_eq!(rt; station.faults(), 0);
    let below = text(rt.alloc(), "made.file/below")?;
    assert!(rt; station.file(&below).is_err());
    assert_eq!(rt; station.faults(), 1);
    let refusal = station.refusal().expect(&rt, "a refusal");
    let told = format!(in rt.alloc(); "{refusal}")?;
    assert_eq!(rt;
        told.as_str(),
        "cannot create made.file/below: Not a directory (os error 20)"
    );
    Ok(())
}

#[test]
fn first_process_is_alive_and_the_last_is_gone(rt: HostRuntime) -> Result<(), Fail> {
    let mut sights = station(&rt)?.sights();
    assert!(rt; matches!(sights.sight(1), Sighted::Alive { .. }));
    assert_eq!(rt; sights.sight(1), sights.sight(1));
    assert_eq!(rt; sights.sight(4_294_967_295), Sighted::Gone);
    assert_eq!(rt; sights.faults, 0);
    Ok(())
}
