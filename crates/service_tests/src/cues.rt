// A station whose links give what they have to give once other links were sent so much.
ghost use Rattle.std.specs.Prelude.{◌≡◌, ◌≤◌, ◌^◌};

use memory_outside::{EmptySights, SureSink};
use pk_outside::{
    Accepted, Clock, Door, Ends, Failed, Link, Salt, Sink, Source, Station, StationRefused,
};
use pk_types::Text;
use std::alloc::Global;
use std::time;
use test_parts::{Count, SHAKE_ALICE, SHAKE_ROOT};

/// The most that a source gives.
const MOST: usize = 4096;

/// A connection of a dialogue.
#[derive(Clone, Copy)]
pub enum Who {
    /// That of the agent.
    Agent,
    /// That of who asks.
    Asker,
    /// That of the helper.
    Helper,
}

/// What a connection gives, and when.
#[derive(Clone, Copy)]
pub struct Cue {
    /// Whoever has to have been sent so many bytes before.
    pub of: Who,
    pub sent: u64,
    /// What is given then. Behind the last cue comes the end.
    pub gives: &'static [u8],
}

/// How many bytes each connection was sent.
#[derive(Drop)]
pub struct SentBytes {
    pub agent: Count,
    pub asker: Count,
    pub helper: Count,
}

impl SentBytes {
    /// Nothing was sent.
    pub fn none() -> SentBytes {
        SentBytes {
            agent: Count::new(),
            asker: Count::new(),
            helper: Count::new(),
        }
    }

    fn to(&self, who: Who) -> &Count {
        match who {
            Who::Agent => &self.agent,
            Who::Asker => &self.asker,
            Who::Helper => &self.helper,
        }
    }
}

/// A connection's part in a dialogue.
#[derive(Clone, Copy)]
pub struct Part {
    pub who: Who,
    pub cues: &'static [Cue],
}

/// A source that waits for its cues.
#[derive(Drop)]
pub struct CueSource<'a, R: time::Clock> {
    rt: &'a R,
    sent: &'a SentBytes,
    rest: &'static [u8],
    cues: &'static [Cue],
    budget: usize,
    ended: bool,
    ghost bounded: { budget ≤ 2 ^ 62 },
}

impl<'a, R: time::Clock> CueSource<'a, R> {
    /// What is given next: nothing behind the last cue, and where a wait does not end.
    fn next(&mut self) -> &'static [u8]
        ensures budget { self.new.budget ≡ self.old.budget }
    {
        if !self.rest.is_empty() {
            return self.rest;
        }
        let Some((cue, later)) = self.cues.split_first() else {
            return &[];
        };
        self.cues = later;
        if !self.sent.to(cue.of).reaches(self.rt, cue.sent) {
            self.cues = &[];
            return &[];
        }
        cue.gives
    }
}

impl<'a, R: time::Clock + Sync> Source for CueSource<'a, R> {
    ghost use Rattle.std.specs.Prelude.{None};

    ghost left = { λ _. None };

    ghost faults = { λ _. 0 };

    ghost budget = { λ s. s.budget };

    ghost ended = { λ s. s.ended };

    ghost budget_bound = { λ s. s.bounded };

    ghost ended_is_used_up = { λ s at_end. tt };

    fn read(&mut self, buffer: &mut [u8]) -> Result<usize, Failed> {
        let next = self.next();
        let count = next.len().min(buffer.len()).min(self.budget);
        let (given, rest) = next.split_at(count);
        buffer[..count].copy_from_slice(given);
        self.rest = rest;
        self.budget -= count;
        self.ended = count == 0;
        Ok(count)
    }
}

/// A sink that tells how much it was sent. Where memory is refused the bytes are lost.
#[derive(Drop)]
pub struct CueSink<'a> {
    bytes: Vec<u8>,
    sent: &'a Count,
}

impl<'a> Sink for CueSink<'a> {
    ghost use Rattle.std.specs.Prelude.{None};

    ghost held = { λ _. None };

    ghost faults = { λ _. 0 };

    fn write(&mut self, bytes: &[u8]) -> Result<usize, Failed> {
        let _ = self.bytes.extend_from_slice(bytes);
        self.sent.add(bytes.len() as u64);
        Ok(bytes.len())
    }
}

/// A link with its part in a dialogue, of a user.
#[derive(Drop)]
pub struct CueLink<'a, R: time::Clock> {
    rt: &'a R,
    alloc: Global,
    sent: &'a SentBytes,
    uid: u32,
    part: Part,
}

impl<'a, R: time::Clock + Sync> Link for CueLink<'a, R> {
    ghost use Rattle.std.specs.Prelude.{None};

    type In = CueSource<'a, R>;

    type Out = CueSink<'a>;

    ghost origin = { λ _. None };

    fn split(self) -> Ends<CueLink<'a, R>> {
        let shake = if self.uid == 0 {
            SHAKE_ROOT
        } else {
            SHAKE_ALICE
        };
        let input = CueSource {
            rt: self.rt,
            sent: self.sent,
            rest: shake,
            cues: self.part.cues,
            budget: MOST,
            ended: false,
        };
        let output = CueSink {
            bytes: Vec::new(self.alloc),
            sent: self.sent.to(self.part.who),
        };
        Ends { input, output }
    }
}

/// A door with one link.
#[derive(Drop)]
pub struct CueDoor<'a, R: time::Clock + Sync> {
    uid: u32,
    link: Option<CueLink<'a, R>>,
    /// What the link was sent that came back.
    written: Vec<u8>,
}

impl<'a, R: time::Clock + Sync> Door for CueDoor<'a, R> {
    ghost use Rattle.std.specs.Prelude.{None};

    type Link = CueLink<'a, R>;

    ghost told = { λ _. None };

    ghost owner = { λ d. d.uid };

    ghost faults = { λ _. 0 };

    fn accept(&mut self) -> Accepted<CueLink<'a, R>> {
        match self.link.take() {
            Some(link) => Accepted::Link(link),
            None => Accepted::Closed,
        }
    }

    fn back(&mut self, ends: Ends<CueLink<'a, R>>)
        ensures owner { self.new.uid ≡ self.old.uid }
    {
        let Ends { input: _, output } = ends;
        self.written = output.bytes;
    }

    fn uid(&self) -> u32 {
        self.uid
    }
}

/// A clock that always gives 0.
#[derive(Drop)]
pub struct CueClock {}

impl Clock for CueClock {
    ghost use Rattle.std.specs.Prelude.{None};

    ghost left = { λ _. None };

    ghost gave = { λ _. None };

    fn now(&mut self) -> u64 {
        0
    }
}

/// Random words, all of which are 0.
#[derive(Drop)]
pub struct CueSalt {}

impl Salt for CueSalt {
    ghost use Rattle.std.specs.Prelude.{None};

    ghost left = { λ _. None };

    ghost gave = { λ _. None };

    fn word(&mut self) -> u128 {
        0
    }
}

/// A station whose doors have the parts of a dialogue, one after another. It keeps the doors that come
/// back.
#[derive(Drop)]
pub struct CueStation<'a, R: time::Clock + Sync> {
    pub rt: &'a R,
    pub alloc: Global,
    pub sent: &'a SentBytes,
    pub parts: &'static [Part],
    pub shut: Vec<CueDoor<'a, R>>,
}

impl<'a, R: time::Clock + Sync> Station for CueStation<'a, R> {
    ghost use Rattle.std.specs.Prelude.{None};

    type Door = CueDoor<'a, R>;

    type Link = CueLink<'a, R>;

    type Clock = CueClock;

    type Salt = CueSalt;

    type File = SureSink;

    type Sights = EmptySights;

    ghost told = { λ _. None };

    ghost faults = { λ _. 0 };

    fn door(
        &mut self,
        uid: u32,
        _path: &Text,
        _slot: u32,
    ) -> Result<CueDoor<'a, R>, StationRefused> {
        let Some((part, later)) = self.parts.split_first() else {
            return Err(StationRefused::NoMemory);
        };
        self.parts = later;
        Ok(CueDoor {
            uid,
            link: Some(CueLink {
                rt: self.rt,
                alloc: self.alloc,
                sent: self.sent,
                uid,
                part: *part,
            }),
            written: Vec::new(self.alloc),
        })
    }

    fn dial(&mut self, _path: &Text) -> Result<CueLink<'a, R>, StationRefused> {
        Err(StationRefused::NoMemory)
    }

    fn clock(&mut self) -> CueClock {
        CueClock {}
    }

    fn salt(&mut self) -> CueSalt {
        CueSalt {}
    }

    fn sights(&mut self) -> EmptySights {
        EmptySights {}
    }

    fn file(&mut self, _path: &Text) -> Result<SureSink, StationRefused> {
        Err(StationRefused::NoMemory)
    }

    fn filed(&mut self, _file: SureSink)
        ensures same { self.new ≡ self.old }
    {}

    fn shut(&mut self, door: CueDoor<'a, R>, _clock: CueClock, _salt: CueSalt) {
        let _ = self.shut.push(door);
    }

    fn hang(&mut self, _ends: Ends<CueLink<'a, R>>)
        ensures same { self.new ≡ self.old }
    {}
}

impl<'a, R: time::Clock + Sync> CueStation<'a, R> {
    /// What the link of a door was sent that came back.
    pub fn written(&self, place: usize) -> &[u8] {
        match self.shut.get(place) {
            Some(door) => door.written.as_slice(),
            None => &[],
        }
    }
}
