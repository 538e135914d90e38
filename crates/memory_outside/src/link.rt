// A link in memory, and what is kept of one that came back.
ghost use Rattle.std.specs.Prelude.{◌≡◌};
ghost use Rattle.memory_outside.specs.Held.{IsUnused};

use crate::bytes::{ByteSink, ByteSource};
use pk_outside::{Ends, Link};
use pk_types::Text;

/// A link between two ends in memory.
#[derive(Drop)]
pub struct ByteLink {
    input: ByteSource,
    output: ByteSink,
    ghost unused: { IsUnused input output },
}

impl ByteLink {
    ghost use Rattle.std.specs.Prelude.{Some};
    ghost use Rattle.memory_outside.specs.Held.{source_bytes, source_origin};
    ghost use Rattle.memory_outside.specs.HeldLink.{link_bytes, link_origin};

    /// A link of which nothing was read or written. It takes no memory.
    pub fn new(input: ByteSource, output: ByteSink) -> Self
        requires unused { IsUnused input output }
        ensures bytes { link_bytes result ≡ source_bytes input }
        ensures origin { link_origin result ≡ source_origin input }
    {
        ByteLink { input, output }
    }

    /// The same link, dialled at this path.
    pub(crate) fn dialled(self, path: Text) -> Self
        ensures origin { link_origin result ≡ Some (record { path = path; bytes = link_bytes self }) }
    {
        let ByteLink { input, output } = self;
        ByteLink {
            input: input.dialled(path),
            output,
        }
    }
}

impl Link for ByteLink {
    ghost use Rattle.std.specs.Prelude.{Some};

    type In = ByteSource;

    type Out = ByteSink;

    ghost origin = { λ l. Some (record { path = l.input.path; bytes = l.input.bytes.items }) };

    fn split(self) -> Ends<Self> {
        let ByteLink { input, output } = self;
        Ends { input, output }
    }
}

/// What is kept of a link that came back to a door or to a station.
#[derive(Drop)]
pub struct ReturnedLink {
    /// The path that it was dialled at. It counts for a dialled link alone.
    pub path: Text,
    /// All of the bytes that it gives.
    pub given: Vec<u8>,
    /// How many of them were read.
    pub read: usize,
    /// What was written to it.
    pub written: Vec<u8>,
    /// How many reads failed.
    pub read_faults: u64,
    /// How many writes failed.
    pub write_faults: u64,
}
