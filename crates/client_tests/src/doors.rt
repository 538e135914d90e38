// Two doors in memory, each with a link to dial.
ghost use Rattle.std.specs.Prelude.{◌≡◌};
ghost use Rattle.pk_outside.specs.Causes.{RoseWhere};
ghost use Rattle.memory_outside.specs.Held.{sink_calls, source_calls};
ghost use Rattle.pk_outside.specs.Stations.{has_fault};

use crate::messages::Part;
use memory_outside::{
    ByteLink, ByteSink, ByteSource, EmptyClock, EmptyDoor, EmptySalt, EmptySights, SureSink,
};
use pk_outside::{Ends, Station, StationRefused};
use pk_types::{List, NoMemory, Text, TextList};
use std::alloc::Global;
use test_values::text;

/// The numbers of the calls that are to fail: of the reads and writes of the first link, of those of the
/// helper's, of the writes of the output, and of the reads of the tree. None has the number 0.
#[derive(Clone, Copy)]
pub struct Faults {
    pub read: u64,
    pub write: u64,
    pub helper_read: u64,
    pub helper_write: u64,
    pub output: u64,
    pub tree: u64,
}

/// No call fails.
pub const NONE: Faults = Faults {
    read: 0,
    write: 0,
    helper_read: 0,
    helper_write: 0,
    output: 0,
    tree: 0,
};

impl Faults {
    /// Those of the helper's link, as those of a first one.
    pub fn of_helper(self) -> Faults {
        Faults {
            read: self.helper_read,
            write: self.helper_write,
            ..NONE
        }
    }

    /// These calls and those.
    pub fn beside(self, other: Faults) -> Faults {
        Faults {
            read: self.read.max(other.read),
            write: self.write.max(other.write),
            helper_read: self.helper_read.max(other.helper_read),
            helper_write: self.helper_write.max(other.helper_write),
            output: self.output.max(other.output),
            tree: self.tree.max(other.tree),
        }
    }
}

/// The most bytes of a link or of the output.
const ROOM: usize = 4096;

/// A station with a link at the path `/u` and one at the path `/h`, which keeps the two that come back
/// in their order.
#[derive(Drop)]
pub struct TwoDoors {
    pub door: Option<ByteLink>,
    pub helper: Option<ByteLink>,
    pub first: Option<Ends<ByteLink>>,
    pub second: Option<Ends<ByteLink>>,
    pub faults: u64,
}

impl Station for TwoDoors {
    ghost use Rattle.std.specs.Prelude.{None};

    type Door = EmptyDoor;

    type Link = ByteLink;

    type Clock = EmptyClock;

    type Salt = EmptySalt;

    type File = SureSink;

    type Sights = EmptySights;

    ghost told = { λ _. None };

    ghost faults = { λ s. s.faults };

    fn door(&mut self, _uid: u32, _path: &Text, _slot: u32) -> Result<EmptyDoor, StationRefused> {
        Err(StationRefused::NoMemory)
    }

    fn dial(&mut self, path: &Text) -> Result<ByteLink, StationRefused> {
        let link = if path.bytes() == b"/u".as_slice() {
            self.door.take()
        } else if path.bytes() == b"/h".as_slice() {
            self.helper.take()
        } else {
            None
        };
        match link {
            Some(link) => Ok(link),
            None => {
                self.faults = self.faults.saturating_add(1);
                Err(StationRefused::Failed)
            }
        }
    }

    fn clock(&mut self) -> EmptyClock {
        EmptyClock {}
    }

    fn salt(&mut self) -> EmptySalt {
        EmptySalt {}
    }

    fn sights(&mut self) -> EmptySights {
        EmptySights {}
    }

    fn file(&mut self, _path: &Text) -> Result<SureSink, StationRefused> {
        Err(StationRefused::NoMemory)
    }

    fn filed(&mut self, _file: SureSink) {}

    fn shut(&mut self, _door: EmptyDoor, _clock: EmptyClock, _salt: EmptySalt) {}

    fn hang(&mut self, ends: Ends<ByteLink>)
        ensures count { RoseWhere (has_fault (source_calls ends.input).faults (sink_calls ends.output).faults) self.old.faults self.new.faults }
    {
        if ends.input.faults() > 0 || ends.output.faults() > 0 {
            self.faults = self.faults.saturating_add(1);
        }
        if self.first.is_none() {
            self.first = Some(ends);
        } else {
            self.second = Some(ends);
        }
    }
}

/// The bytes that were written to a link that came back.
pub fn written(back: &Option<Ends<ByteLink>>) -> &[u8] {
    match back {
        Some(ends) => ends.output.bytes(),
        None => &[],
    }
}

/// Parts behind one another.
pub fn joined(alloc: Global, parts: &[Part]) -> Result<Vec<u8>, NoMemory> {
    let mut bytes = Vec::new(alloc);
    for part in parts {
        bytes.extend_from_slice(part.bytes())?;
    }
    Ok(bytes)
}

/// An output, of which a write fails.
pub fn output(alloc: Global, fault: u64) -> Result<ByteSink, NoMemory> {
    let failing = vec![in alloc; fault]?;
    ByteSink::new(alloc, ROOM, ROOM, failing)
}

/// A link that gives these bytes, at most so many in a read.
pub fn link(
    alloc: Global,
    given: &[Part],
    piece: usize,
    faults: Faults,
) -> Result<ByteLink, NoMemory> {
    let given = joined(alloc, given)?;
    let (given, _) = given.as_slice().split_at(given.len().min(ROOM));
    let bytes = given.to_vec(alloc)?;
    let reads = vec![in alloc; faults.read]?;
    let writes = vec![in alloc; faults.write]?;
    let sink = ByteSink::new(alloc, ROOM, ROOM, writes)?;
    let source = ByteSource::new(bytes, piece.max(1), reads);
    Ok(ByteLink::new(source, sink))
}

/// A station with these links, of which the second may lack.
pub fn two_doors(door: ByteLink, helper: Option<ByteLink>) -> TwoDoors {
    TwoDoors {
        door: Some(door),
        helper,
        first: None,
        second: None,
        faults: 0,
    }
}

/// Words as texts.
pub fn texts(alloc: Global, words: &[&str]) -> Result<TextList, NoMemory> {
    let mut texts = List::new(alloc);
    for word in words {
        texts.try_push(text(alloc, word)?)?;
    }
    Ok(texts)
}
