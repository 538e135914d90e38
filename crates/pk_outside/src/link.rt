// The two directions of one connection.
ghost use Rattle.std.specs.Prelude.{◌≡◌, ℕ, Option};
ghost use Rattle.pk_outside.specs.Links.{Origin, bytes_of};
ghost use Rattle.pk_outside.specs.Streams.{IsUsedUp};

use crate::{Sink, Source};

/// The two directions of a link, which may be used beside each other.
#[derive(Drop)]
pub struct Ends<L: Link> {
    /// What the other side sends.
    pub input: L::In,
    /// What is sent to the other side.
    pub output: L::Out,
}

/// A connection, of which nothing was read or written.
pub trait Link: Drop + Send {
    /// The direction that is read.
    type In: Source;

    /// The direction that is written.
    type Out: Sink;

    /// Where the link is from, and all that it will give, where they are told.
    ghost origin: { Self → Option Origin };

    /// The two directions, each with the count 0.
    fn split(self) -> Ends<Self>
    where
        Self: Sized,
        ensures origin { Self.In.origin result.input ≡ origin self }
        ensures unread { Self.In.left result.input ≡ bytes_of (origin self) }
        ensures unwritten { IsUsedUp (Self.Out.held result.output) }
        ensures read_faults { Self.In.faults result.input ≡ 0 }
        ensures write_faults { Self.Out.faults result.output ≡ 0 };
}
