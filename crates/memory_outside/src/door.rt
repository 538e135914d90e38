// A door in memory, which gives its links and keeps those that come back.
ghost use Rattle.std.specs.Prelude.{◌≡◌, ◌≤◌, [], Some, IfOk, map};
ghost use Rattle.pk_outside.specs.Doors.{Accepts, AcceptCause, TakesBack, has_failed};
ghost use Rattle.memory_outside.specs.Memory.{fails_next, one_call};

use crate::calls::Calls;
use crate::clock::{ListClock, ListSalt};
use crate::link::{ByteLink, ReturnedLink};
use crate::seats::{Returned, Seat};
use pk_outside::{Accepted, Door, Ends};
use pk_types::{List, NoMemory, Text};
use std::alloc::Global;
use std::collections::VecDeque;

/// What a door in memory will give.
#[derive(Drop)]
pub struct DoorPlan {
    /// The links that it gives, in this order.
    pub links: List<ByteLink>,
    /// The numbers of its calls of `accept` that are to fail; the first call has the number 1.
    pub failing: Vec<u64>,
}

impl DoorPlan {
    /// No link, and no call that is to fail. It takes no memory.
    pub fn empty(alloc: Global) -> Self
        ensures links { result.links ≡ [] }
        ensures failing { result.failing.items ≡ [] }
    {
        DoorPlan {
            links: List::new(alloc),
            failing: Vec::new(alloc),
        }
    }
}

/// A door in memory, which gives the links of its plan and keeps what comes back. A call that fails
/// leaves the links.
///
/// It tells all of this in every state. A link that comes back, even one of another door, is kept in
/// the seat that it brings, so that there is always room for it.
#[derive(Drop)]
pub struct ListDoor {
    uid: u32,
    path: Text,
    slot: u32,
    links: VecDeque<ByteLink>,
    taken: Returned<ReturnedLink>,
    calls: Calls,
    seat: Seat<ReturnedDoor>,
}

impl ListDoor {
    ghost use Rattle.memory_outside.specs.HeldLink.{link_bytes};
    ghost use Rattle.memory_outside.specs.HeldDoor.{door_told, door_calls, door_back};
    ghost use Rattle.memory_outside.specs.HeldClock.{clock_gave, salt_gave};

    /// A door with these arguments, which will give what the plan says.
    ///
    /// # Errors
    /// `NoMemory` alone.
    pub fn new(
        alloc: Global,
        uid: u32,
        path: Text,
        slot: u32,
        plan: DoorPlan,
    ) -> Result<Self, NoMemory>
        ensures told { IfOk result (λ door. door_told door ≡
            record { uid = uid; path = path; slot = slot; taken = []; left = map link_bytes plan.links }) }
        ensures calls { IfOk result (λ door. door_calls door ≡ record { made = 0; faults = 0; failing = plan.failing.items }) }
    {
        let seat = Seat::new(alloc)?;
        Ok(ListDoor::in_seat(seat, uid, path, slot, plan))
    }

    /// A door with these arguments, which will be kept in this seat when it was shut.
    pub(crate) fn in_seat(
        seat: Seat<ReturnedDoor>,
        uid: u32,
        path: Text,
        slot: u32,
        plan: DoorPlan,
    ) -> Self
        ensures told { door_told result ≡
            record { uid = uid; path = path; slot = slot; taken = []; left = map link_bytes plan.links } }
        ensures calls { door_calls result ≡ record { made = 0; faults = 0; failing = plan.failing.items } }
    {
        ListDoor {
            uid,
            path,
            slot,
            links: VecDeque::from_vec(plan.links.into_vec()),
            taken: Returned::new(),
            calls: Calls::failing_at(plan.failing),
            seat,
        }
    }

    /// How many calls failed.
    pub fn faults(&self) -> u64
        ensures faults { result ≡ (door_calls self.now).faults }
    {
        self.calls.faults()
    }

    /// What is kept of the door, its clock and its salt when the door was shut, and the seat to keep
    /// it in.
    pub(crate) fn come_back(
        self,
        clock: ListClock,
        salt: ListSalt,
    ) -> (ReturnedDoor, Seat<ReturnedDoor>)
        ensures tells { let (door, seat) = result in door_back door ≡ record { door = door_told self; readings = clock_gave clock; words = salt_gave salt } }
    {
        let door = ReturnedDoor {
            uid: self.uid,
            path: self.path,
            slot: self.slot,
            links: self.taken,
            left: self.links,
            faults: self.calls.faults(),
            clock,
            salt,
        };
        (door, self.seat)
    }
}

impl Door for ListDoor {
    ghost use Rattle.std.specs.Prelude.{Some, map};
    ghost use Rattle.pk_outside.specs.Links.{EndsTell};
    ghost use Rattle.memory_outside.specs.Held.{source_origin, source_left, source_calls, sink_held, sink_calls};
    ghost use Rattle.memory_outside.specs.HeldLink.{link_bytes, link_back, link_origin};
    ghost use Rattle.memory_outside.specs.HeldDoor.{door_told, door_calls, door_uid};

    type Link = ByteLink;

    ghost told = { λ d. Some (record { uid = d.uid; path = d.path; slot = d.slot; taken = map link_back d.taken; left = map link_bytes d.links.items }) };

    ghost owner = { λ d. d.uid };

    ghost faults = { λ d. d.calls.faults };

    fn accept(&mut self) -> Accepted<ByteLink>
        ensures links { Accepts link_origin (Some (door_told self.old)) (Some (door_told self.new)) result }
        ensures owner { door_uid self.new ≡ door_uid self.old }
        ensures later { (door_calls self.old).faults ≤ (door_calls self.new).faults }
        ensures cause { AcceptCause (door_calls self.old).faults (door_calls self.new).faults result }
        ensures listed { has_failed result ≡ fails_next (door_calls self.old) }
        ensures counted { door_calls self.new ≡ one_call (door_calls self.old) (has_failed result) }
    {
        if self.calls.is_failing() {
            self.calls.fail();
            return Accepted::Failed;
        }
        self.calls.pass();
        match self.links.pop_front() {
            Some(link) => Accepted::Link(link),
            None => Accepted::Closed,
        }
    }

    fn back(&mut self, ends: Ends<ByteLink>)
        ensures taken { TakesBack (Some (door_told self.old)) (Some (door_told self.new)) (EndsTell (source_origin ends.input)
            (Some (source_left ends.input)) (Some (sink_held ends.output)) (source_calls ends.input).faults (sink_calls ends.output).faults) }
        ensures owner { door_uid self.new ≡ door_uid self.old }
        ensures count { (door_calls self.new).faults ≡ (door_calls self.old).faults }
        ensures calls { door_calls self.new ≡ door_calls self.old }
    {
        let (link, seat) = ends.output.come_back(ends.input);
        self.taken.keep(seat, link);
    }

    fn uid(&self) -> u32 {
        self.uid
    }
}

/// What is kept of a door that was shut, with its clock and its salt.
#[derive(Drop)]
pub struct ReturnedDoor {
    /// The user whom its links belong to.
    pub uid: u32,
    /// Its path.
    pub path: Text,
    /// Its number among the doors of this path.
    pub slot: u32,
    /// The links that came back to it, in this order.
    pub links: Returned<ReturnedLink>,
    /// The links that it did not give.
    pub left: VecDeque<ByteLink>,
    /// How many of its calls failed.
    pub faults: u64,
    /// Its clock.
    pub clock: ListClock,
    /// Its random words.
    pub salt: ListSalt,
}
