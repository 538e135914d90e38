// Where connections come in.
ghost use Rattle.std.specs.Prelude.{◌≡◌, ◌≤◌, ℕ, Option};
ghost use Rattle.pk_outside.specs.Doors.{DoorTold, Accepts, AcceptCause, TakesBack};
ghost use Rattle.pk_outside.specs.Links.{EndsTell};

use crate::{Ends, Link};

/// What a door answers.
#[derive(Drop)]
pub enum Accepted<L> {
    /// The next link.
    Link(L),
    /// No link is left.
    Closed,
    /// No link came for about a second. One may come later.
    Idle,
    /// The door failed, and counted it.
    Failed,
    /// Memory for the two directions was refused.
    NoMemory,
}

/// Gives the links of one path to one user, and takes them back.
pub trait Door: Drop + Send {
    /// The links that it gives.
    type Link: Link;

    /// With what it was made, what it took back and what it will give, where they are told.
    ghost told: { Self → Option DoorTold };

    /// The user whom the links of this door belong to.
    ghost owner: { Self → ℕ };

    /// How often the door has failed.
    ghost faults: { Self → ℕ };

    /// Waits for the next link, for about a second where none comes. It counts a fault exactly where it
    /// answers `Failed`.
    fn accept(&mut self) -> Accepted<Self::Link>
        ensures links { Accepts Self.Link.origin (told self.old) (told self.new) result }
        ensures owner { owner self.new ≡ owner self.old }
        ensures later { faults self.old ≤ faults self.new }
        ensures cause { AcceptCause (faults self.old) (faults self.new) result };

    /// Takes a link back. It takes no memory.
    fn back(&mut self, ends: Ends<Self::Link>)
        ensures taken { TakesBack (told self.old) (told self.new) (EndsTell (Self.Link.In.origin ends.input)
            (Self.Link.In.left ends.input) (Self.Link.Out.held ends.output) (Self.Link.In.faults ends.input) (Self.Link.Out.faults ends.output)) }
        ensures owner { owner self.new ≡ owner self.old }
        ensures count { faults self.new ≡ faults self.old };

    /// The user id that the door was made with.
    fn uid(&self) -> u32
        ensures { result ≡ owner self.now };
}
