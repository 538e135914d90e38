// A station that waits before it dials, and keeps what its links read.
ghost use Rattle.pk_outside.specs.Causes.{RoseWhere};
ghost use Rattle.pk_outside.specs.Stations.{has_fault};

use crate::count::Count;
use pk_outside::{Ends, Failed, Link, Source, Station, StationRefused};
use pk_types::Text;
use std::alloc::Global;
use std::time::Clock;

/// A station that waits before it dials, and keeps what its links read. It opens no door.
#[derive(Drop)]
pub struct HeardStation<'a, R: Clock, N: Station> {
    pub rt: &'a R,
    pub alloc: Global,
    pub inner: N,
    /// What has to be reached before it dials.
    pub waits: &'a [(&'a Count, u64)],
    /// The bytes that its links gave.
    pub given: &'a Count,
    /// What each link read, in the order in which they were hung up.
    pub kept: Vec<Vec<u8>>,
}

/// A link whose bytes are kept.
#[derive(Drop)]
pub struct HeardLink<'a, L: Link> {
    inner: L,
    given: &'a Count,
    kept: Vec<u8>,
}

/// A source whose bytes are kept.
#[derive(Drop)]
pub struct HeardSource<'a, I: Source> {
    inner: I,
    given: &'a Count,
    kept: Vec<u8>,
}

impl<'a, I: Source> Source for HeardSource<'a, I> {
    ghost use Rattle.std.specs.Prelude.{None};

    ghost left = { λ _. None };

    ghost faults = { λ s. I.faults s.inner };

    ghost budget = { λ s. I.budget s.inner };

    ghost ended = { λ s. I.ended s.inner };

    ghost budget_bound = { λ s. I.budget_bound s.inner };

    ghost ended_is_used_up = { λ s at_end. tt };

    /// Where memory is refused the bytes are not kept.
    fn read(&mut self, buffer: &mut [u8]) -> Result<usize, Failed> {
        let count = self.inner.read(buffer)?;
        let (bytes, _) = buffer.split_at(count);
        let _ = self.kept.extend_from_slice(bytes);
        self.given.add(count as u64);
        Ok(count)
    }
}

impl<'a, L: Link> Link for HeardLink<'a, L> {
    ghost use Rattle.std.specs.Prelude.{None};

    type In = HeardSource<'a, L::In>;

    type Out = L::Out;

    ghost origin = { λ _. None };

    fn split(self) -> Ends<HeardLink<'a, L>> {
        let HeardLink { inner, given, kept } = self;
        let Ends { input, output } = inner.split();
        Ends {
            input: HeardSource {
                inner: input,
                given,
                kept,
            },
            output,
        }
    }
}

impl<'a, R: Clock + Sync, N: Station> Station for HeardStation<'a, R, N> {
    ghost use Rattle.std.specs.Prelude.{None};

    type Door = N::Door;

    type Link = HeardLink<'a, N::Link>;

    type Clock = N::Clock;

    type Salt = N::Salt;

    type File = N::File;

    type Sights = N::Sights;

    ghost told = { λ _. None };

    ghost faults = { λ s. N.faults s.inner };

    fn door(&mut self, _uid: u32, _path: &Text, _slot: u32) -> Result<N::Door, StationRefused> {
        Err(StationRefused::NoMemory)
    }

    /// A wait that does not end is told as want of memory, which is no fault of the station.
    fn dial(&mut self, path: &Text) -> Result<HeardLink<'a, N::Link>, StationRefused> {
        for (count, wanted) in self.waits {
            if !count.reaches(self.rt, *wanted) {
                return Err(StationRefused::NoMemory);
            }
        }
        let inner = self.inner.dial(path)?;
        Ok(HeardLink {
            inner,
            given: self.given,
            kept: Vec::new(self.alloc),
        })
    }

    fn clock(&mut self) -> N::Clock {
        self.inner.clock()
    }

    fn salt(&mut self) -> N::Salt {
        self.inner.salt()
    }

    fn sights(&mut self) -> N::Sights {
        self.inner.sights()
    }

    fn file(&mut self, path: &Text) -> Result<N::File, StationRefused> {
        self.inner.file(path)
    }

    fn filed(&mut self, file: N::File) {
        self.inner.filed(file)
    }

    fn shut(&mut self, door: N::Door, clock: N::Clock, salt: N::Salt) {
        self.inner.shut(door, clock, salt)
    }

    fn hang(&mut self, ends: Ends<HeardLink<'a, N::Link>>)
        ensures count { RoseWhere (has_fault (N.Link.In.faults ends.entry.input.inner) (N.Link.Out.faults ends.entry.output)) (N.faults self.old.inner) (N.faults self.new.inner) }
    {
        let Ends { input, output } = ends;
        let HeardSource {
            inner,
            given: _,
            kept,
        } = input;
        let _ = self.kept.push(kept);
        self.inner.hang(Ends {
            input: inner,
            output,
        })
    }
}
