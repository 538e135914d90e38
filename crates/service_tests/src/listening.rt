// The station of a service, which tells how many doors it made.
ghost use Rattle.pk_outside.specs.Causes.{RoseWhere};
ghost use Rattle.pk_outside.specs.Stations.{has_fault};

use pk_outside::{Ends, Station, StationRefused};
use pk_types::Text;
use test_parts::Count;

/// A station that counts its doors.
#[derive(Drop)]
pub struct ListeningStation<'a, N: Station> {
    pub inner: N,
    pub doors: &'a Count,
}

impl<'a, N: Station> Station for ListeningStation<'a, N> {
    ghost use Rattle.std.specs.Prelude.{None};

    type Door = N::Door;

    type Link = N::Link;

    type Clock = N::Clock;

    type Salt = N::Salt;

    type File = N::File;

    type Sights = N::Sights;

    ghost told = { λ _. None };

    ghost faults = { λ s. N.faults s.inner };

    fn door(&mut self, uid: u32, path: &Text, slot: u32) -> Result<N::Door, StationRefused> {
        let door = self.inner.door(uid, path, slot)?;
        self.doors.add(1);
        Ok(door)
    }

    fn dial(&mut self, path: &Text) -> Result<N::Link, StationRefused> {
        self.inner.dial(path)
    }

    fn clock(&mut self) -> N::Clock {
        self.inner.clock()
    }

    fn salt(&mut self) -> N::Salt {
        self.inner.salt()
    }

    fn sights(&mut self) -> N::Sights {
        self.inner.sights()
    }

    fn file(&mut self, path: &Text) -> Result<N::File, StationRefused> {
        self.inner.file(path)
    }

    fn filed(&mut self, file: N::File) {
        self.inner.filed(file)
    }

    fn shut(&mut self, door: N::Door, clock: N::Clock, salt: N::Salt) {
        self.inner.shut(door, clock, salt)
    }

    fn hang(&mut self, ends: Ends<N::Link>)
        ensures count { RoseWhere (has_fault (N.Link.In.faults ends.input) (N.Link.Out.faults ends.output)) (N.faults self.old.inner) (N.faults self.new.inner) }
    {
        self.inner.hang(ends)
    }
}
