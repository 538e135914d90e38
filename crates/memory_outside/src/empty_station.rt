// A station that has nothing to give, with its door, its clock, its salt and its looks: for a program
// without sockets, and for tests of calls that ask a station for nothing.
ghost use Rattle.std.specs.Prelude.{◌≡◌};
ghost use Rattle.pk_outside.specs.Causes.{RoseWhere};
ghost use Rattle.memory_outside.specs.Empty.{door_uid, station_faults};
ghost use Rattle.memory_outside.specs.Held.{source_calls, sink_calls};
ghost use Rattle.pk_outside.specs.Stations.{has_fault};

use crate::link::ByteLink;
use crate::sure::SureSink;
use pk_outside::{Accepted, Clock, Door, Ends, Salt, Sighted, Sights, Station, StationRefused};
use pk_types::Text;

/// A door that has no link to give.
#[derive(Drop)]
pub struct EmptyDoor {
    uid: u32,
}

impl Door for EmptyDoor {
    ghost use Rattle.std.specs.Prelude.{None};

    type Link = ByteLink;

    ghost told = { λ _. None };

    ghost owner = { λ d. d.uid };

    ghost faults = { λ _. 0 };

    fn accept(&mut self) -> Accepted<ByteLink>
        ensures closed { result ≡ Accepted.Closed }
        ensures owner { door_uid self.new ≡ door_uid self.old }
    {
        Accepted::Closed
    }

    fn back(&mut self, _ends: Ends<ByteLink>)
        ensures owner { door_uid self.new ≡ door_uid self.old }
    {}

    fn uid(&self) -> u32 {
        self.uid
    }
}

/// A clock without a reading, which always gives 0.
#[derive(Drop)]
pub struct EmptyClock {}

impl Clock for EmptyClock {
    ghost use Rattle.std.specs.Prelude.{[], None, Some};

    ghost left = { λ _. Some [] };

    ghost gave = { λ _. None };

    fn now(&mut self) -> u64 {
        0
    }
}

/// Random words, of which there are none: it always gives 0.
#[derive(Drop)]
pub struct EmptySalt {}

impl Salt for EmptySalt {
    ghost use Rattle.std.specs.Prelude.{[], None, Some};

    ghost left = { λ _. Some [] };

    ghost gave = { λ _. None };

    fn word(&mut self) -> u128 {
        0
    }
}

/// Looks that find no process.
#[derive(Drop)]
pub struct EmptySights {}

impl Sights for EmptySights {
    ghost use Rattle.std.specs.Prelude.{[], None, Some};

    ghost left = { λ _. Some [] };

    ghost gave = { λ _. None };

    ghost faults = { λ _. 0 };

    fn sight(&mut self, _pid: u32) -> Sighted {
        Sighted::Gone
    }
}

/// A station whose doors have no link, and which has none to dial and no file to make: it counts a
/// fault at each call of `dial` and of `file`.
#[derive(Drop)]
pub struct EmptyStation {
    faults: u64,
}

impl EmptyStation {
    /// A station that counted no fault. It takes no memory.
    pub fn new() -> Self
        ensures sound { ⟦<EmptyStation as Station>⟧.faults result ≡ 0 }
    {
        EmptyStation { faults: 0 }
    }

    /// How many faults it counted.
    pub fn faults(&self) -> u64
        ensures faults { result ≡ ⟦<EmptyStation as Station>⟧.faults self.now }
    {
        self.faults
    }
}

impl Station for EmptyStation {
    ghost use Rattle.std.specs.Prelude.{None};

    type Door = EmptyDoor;

    type Link = ByteLink;

    type Clock = EmptyClock;

    type Salt = EmptySalt;

    type File = SureSink;

    type Sights = EmptySights;

    ghost told = { λ _. None };

    ghost faults = { λ s. s.faults };

    fn door(&mut self, uid: u32, _path: &Text, _slot: u32) -> Result<EmptyDoor, StationRefused> {
        Ok(EmptyDoor { uid })
    }

    fn dial(&mut self, _path: &Text) -> Result<ByteLink, StationRefused> {
        self.faults = self.faults.saturating_add(1);
        Err(StationRefused::Failed)
    }

    fn clock(&mut self) -> EmptyClock {
        EmptyClock {}
    }

    fn salt(&mut self) -> EmptySalt {
        EmptySalt {}
    }

    fn sights(&mut self) -> EmptySights {
        EmptySights {}
    }

    fn file(&mut self, _path: &Text) -> Result<SureSink, StationRefused> {
        self.faults = self.faults.saturating_add(1);
        Err(StationRefused::Failed)
    }

    fn shut(&mut self, _door: EmptyDoor, _clock: EmptyClock, _salt: EmptySalt) {}

    fn hang(&mut self, ends: Ends<ByteLink>)
        ensures count { RoseWhere (has_fault (source_calls ends.input).faults (sink_calls ends.output).faults) (station_faults self.old) (station_faults self.new) }
    {
        if ends.input.faults() > 0 || ends.output.faults() > 0 {
            self.faults = self.faults.saturating_add(1);
        }
    }

    fn filed(&mut self, _file: SureSink) {}
}
