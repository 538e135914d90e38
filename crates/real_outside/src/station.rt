// The station of a running program.
ghost use Rattle.std.specs.Prelude.{◌≡◌, ◌≤◌, IfOk, OnErr, nat_lt};
ghost use Rattle.pk_outside.specs.Causes.{RoseWhere};
ghost use Rattle.pk_outside.specs.Refusals.{StationRefusal, StationCause};
ghost use Rattle.pk_outside.specs.Stations.{MakesDoor, has_fault};
ghost use Rattle.real_outside.specs.Counts.{source_faults, sink_faults, station_faults, station_told, door_path, door_owner, door_faults, door_told};
ghost use Rattle.real_outside.specs.Streams.{sink_faults as file_faults};

use crate::clock::SystemClock;
use crate::door::SocketDoor;
use crate::file::create;
use crate::paths::Paths;
use crate::refusal::{CallRefused, Refusal, StationCall, system_path};
use crate::salt::RandomSalt;
use crate::sights::ProcessSights;
use crate::socket::SocketLink;
use crate::streams::WriteSink;
use pk_outside::{Ends, Station, StationRefused};
use pk_types::Text;
use rand::rngs::StdRng;
use std::alloc::Global;
use std::fs::{File, Files};
use std::net::Net;
use std::os::unix::net::UnixStream;
use std::time;

/// Unix sockets, files of the system, looks at its processes, its clock, and random words.
///
/// The file of a socket is made with the first door of its path, and removed when the last one is
/// shut. A path at which anything stands already is refused. Its file has the permissions that the
/// system gives it, and who may connect is the administrator's to say.
#[derive(Drop)]
pub struct SocketStation<'a, R: Net + Files + time::Clock> {
    rt: &'a R,
    alloc: Global,
    words: StdRng,
    paths: Paths,
    faults: u64,
    refusal: Option<Refusal>,
}

/// Connects to whoever listens at the path.
fn connect<R: Net>(rt: &R, alloc: Global, path: &Text) -> Result<SocketLink, CallRefused> {
    let stream = UnixStream::connect(rt, system_path(path)?).map_err(CallRefused::Failed)?;
    SocketLink::over(alloc, stream)
}

impl<'a, R: Net + Files + time::Clock> SocketStation<'a, R> {
    /// Counts what the system refused, and keeps it. Want of memory is no fault of the station.
    fn refuse(&mut self, refused: CallRefused, call: StationCall, path: &Text) -> StationRefused
        ensures later { self.old.faults ≤ self.new.faults }
        ensures cause { StationRefusal self.old.faults self.new.faults result }
    {
        let Some(refusal) = refused.of_call(call, path) else {
            return StationRefused::NoMemory;
        };
        self.refusal = Some(refusal);
        self.faults = self.faults.saturating_add(1);
        StationRefused::Failed
    }
}

impl<'a, R: Net + Files<File = File> + time::Clock + Sync> SocketStation<'a, R> {
    /// The station of this system. Each of its givers of random words is seeded with words of this
    /// generator. It takes no memory.
    pub fn new(rt: &'a R, alloc: Global, words: StdRng) -> Self
        ensures sound { ⟦<SocketStation<'a, R> as Station>⟧.faults result ≡ 0 }
    {
        SocketStation {
            rt,
            alloc,
            words,
            paths: Paths::new(alloc),
            faults: 0,
            refusal: None,
        }
    }

    /// How often the station has failed.
    pub fn faults(&self) -> u64
        ensures faults { result ≡ ⟦<SocketStation<'a, R> as Station>⟧.faults self.now }
    {
        self.faults
    }

    /// What the system refused last, of the calls of this station and of the doors that were shut.
    pub fn refusal(&self) -> Option<&Refusal> {
        self.refusal.as_ref()
    }
}

impl<'a, R: Net + Files<File = File> + time::Clock + Sync> Station for SocketStation<'a, R> {
    ghost use Rattle.std.specs.Prelude.{None};

    type Door = SocketDoor<'a, R>;

    type Link = SocketLink;

    type Clock = SystemClock<'a, R>;

    type Salt = RandomSalt;

    type File = WriteSink<File>;

    type Sights = ProcessSights<'a, R>;

    ghost told = { λ _. None };

    ghost faults = { λ s. s.faults };

    fn door(
        &mut self,
        uid: u32,
        path: &Text,
        slot: u32,
    ) -> Result<SocketDoor<'a, R>, StationRefused>
        ensures door { IfOk result (λ door. MakesDoor uid path.now slot (station_told self.old) (station_told self.new) (door_told door)) }
        ensures err { OnErr result (station_told self.new ≡ station_told self.old) }
        ensures path { IfOk result (λ door. door_path door ≡ path.now) }
        ensures owner { IfOk result (λ door. door_owner door ≡ uid) }
        ensures count { IfOk result (λ door. door_faults door ≡ 0) }
        ensures cause { StationCause (station_faults self.old) (station_faults self.new) result }
    {
        match self.paths.listen(self.rt, path) {
            Ok(listening) => Ok(SocketDoor {
                rt: self.rt,
                alloc: self.alloc,
                listening,
                uid,
                faults: 0,
                refusal: None,
            }),
            Err(refused) => Err(self.refuse(refused, StationCall::Listen, path)),
        }
    }

    fn dial(&mut self, path: &Text) -> Result<SocketLink, StationRefused> {
        match connect(self.rt, self.alloc, path) {
            Ok(link) => Ok(link),
            Err(refused) => Err(self.refuse(refused, StationCall::Connect, path)),
        }
    }

    fn clock(&mut self) -> SystemClock<'a, R> {
        SystemClock {
            rt: self.rt,
            last: 0,
        }
    }

    fn salt(&mut self) -> RandomSalt {
        RandomSalt::seeded(&mut self.words)
    }

    fn sights(&mut self) -> ProcessSights<'a, R> {
        ProcessSights {
            rt: self.rt,
            faults: 0,
        }
    }

    fn file(&mut self, path: &Text) -> Result<WriteSink<File>, StationRefused> {
        match create(self.rt, path) {
            Ok(file) => Ok(file),
            Err(refused) => Err(self.refuse(refused, StationCall::Create, path)),
        }
    }

    fn shut(&mut self, door: SocketDoor<'a, R>, _clock: SystemClock<'a, R>, _salt: RandomSalt) {
        self.paths.leave(self.rt, &door.listening.path);
        if door.faults > 0 {
            self.faults = self.faults.saturating_add(1);
            self.refusal = door.refusal;
        }
    }

    fn hang(&mut self, ends: Ends<SocketLink>)
        ensures count { RoseWhere (has_fault (source_faults ends.input) (sink_faults ends.output)) (station_faults self.old) (station_faults self.new) }
    {
        if ends.input.faults > 0 || ends.output.faults > 0 {
            self.faults = self.faults.saturating_add(1);
        }
    }

    fn filed(&mut self, file: WriteSink<File>)
        ensures count { RoseWhere (nat_lt 0 (file_faults file)) (station_faults self.old) (station_faults self.new) }
    {
        if file.faults > 0 {
            self.faults = self.faults.saturating_add(1);
        }
    }
}
