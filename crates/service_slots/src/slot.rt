// One slot, and one connection of it.
ghost use Rattle.std.specs.Prelude.{◌≡◌, ◌<◌, [], None, Some, ℕ, Option, IsTrue, IfNone, IfSome, length, vec_len};
ghost use Rattle.std.specs.Vec.{vec_capacity};
ghost use Rattle.connection_serve.specs.Promises.{MayServe};
ghost use Rattle.connection_serve.specs.Headline.{IsFresh};
ghost use Rattle.history_lock.specs.Entries.{NoneBy};
ghost use Rattle.shared_authority.specs.Journals.{caller_of};
ghost use Rattle.service_slots.specs.Doors.{made_of};
ghost use Rattle.service_slots.specs.Served.{SlotOf};
ghost use Rattle.service_slots.specs.Stops.{CountsAs, NoneEnded, StopsAs};

use crate::accepting::next_link;
use crate::admitting::Passes;
use crate::line::Line;
use crate::serving::serve_link;
use crate::stop::SlotStop;
use history_lock::{Pass, TableName};
use pk_outside::{Clock, Door, Link, Salt, Sights};
use shared_authority::{Kept, LimitsName, Shared};
use std::alloc::Global;
use std::sync::Wait;
use std::thread::Threads;

/// A door with its clock, its salt and perhaps its looks at processes, the pass by which it shares the authority, and the lines of
/// the connections that were served.
#[derive(Drop)]
pub struct Slot<L: LimitsName, T: TableName, D: Door, C: Clock, S: Salt, G: Sights> {
    /// The pass that admits the passes of its connections.
    pub pass: Pass<Kept<L>, T>,
    /// Where its connections come in.
    pub door: D,
    /// The clock of its connections.
    pub clock: C,
    /// The random words of its connections.
    pub salt: S,
    /// The looks at the processes that its connections name, if they are to look.
    pub sights: Option<G>,
    /// One line for each connection, in the order of serving.
    pub lines: Vec<Line>,
    /// Why it stopped, once it has.
    pub stop: Option<SlotStop>,
}

impl<L: LimitsName, T: TableName, D: Door, C: Clock, S: Salt, G: Sights> Slot<L, T, D, C, S, G> {
    /// A slot that has served nothing. It takes no memory.
    pub fn new(
        alloc: Global,
        pass: Pass<Kept<L>, T>,
        door: D,
        clock: C,
        salt: S,
        sights: Option<G>,
    ) -> Self
        ensures objects { (result.door ≡ door) × (result.clock ≡ clock) × (result.salt ≡ salt) }
        ensures pass { result.pass ≡ pass }
        ensures lines { result.lines.items ≡ [] }
        ensures stop { result.stop ≡ None }
    {
        Slot {
            pass,
            door,
            clock,
            salt,
            sights,
            lines: Vec::new(alloc),
            stop: None,
        }
    }

    /// Whether it has served as many connections as it was to serve.
    pub(crate) fn has_served(&self, most: Option<u32>) -> bool
        ensures { IsTrue result → most ≡ Some (length self.now.lines.items) }
    {
        match most {
            Some(most) => most as usize == self.lines.len(),
            None => false,
        }
    }
}

/// Accepts a link, serves it with these passes, gives it back to the door, and notes its line.
/// Answers why the slot stops, where it does.
pub(crate) fn serve_next<
    'a,
    L: LimitsName + Send + Sync,
    T: TableName + Send + Sync,
    D: Door,
    C: Clock,
    S: Salt,
    G: Sights,
    R: Threads + Wait + Sync,
>(
    rt: &'a R,
    alloc: Global,
    shared: &'a Shared<L, T>,
    slot: &mut Slot<L, T, D, C, S, G>,
    mut passes: Passes<L, T>,
) -> Option<SlotStop>
    requires room { vec_len slot.old.lines < vec_capacity slot.old.lines }
    requires fresh { IsFresh passes.pass passes.collector }
    requires sighter { IfSome passes.sighter (λ sighter. NoneBy caller_of sighter.number sighter.history) }
    requires none_ended { NoneEnded slot.old.lines.items }
    requires may { MayServe D.Link.Out.allowed }
    ensures slot { SlotOf slot.old.pass.history (D.owner slot.old.door) (D.told slot.old.door) (C.gave slot.old.clock) (S.gave slot.old.salt) slot.old.lines.items
        → SlotOf slot.new.pass.history (D.owner slot.new.door) (D.told slot.new.door) (C.gave slot.new.clock) (S.gave slot.new.salt) slot.new.lines.items }
    ensures door { made_of (D.told slot.new.door) ≡ made_of (D.told slot.old.door) }
    ensures goes_on { IfNone result (NoneEnded slot.new.lines.items) }
    ensures counts { CountsAs (D.faults slot.old.door) (D.faults slot.new.door) result }
    ensures stops { IfSome result (λ stop. (most : Option ℕ) → StopsAs L.limits most slot.new.pass (D.told slot.new.door) (D.faults slot.new.door) slot.new.lines.items stop) }
{
    let link = match next_link(rt, shared, &mut slot.door, &mut slot.pass) {
        Ok(link) => link,
        Err(stop) => return Some(stop),
    };
    let mut ends = link.split();
    let uid = slot.door.uid();
    let (end, sighter) = serve_link(rt, alloc, shared, slot, &mut passes, &mut ends);
    slot.door.back(ends);
    shared.meet(&mut slot.pass, &mut passes.pass);
    let number = passes.pass.number();
    slot.lines.push_reserved(Line {
        number,
        uid,
        sighter,
        end,
    });
    SlotStop::of_end(end)
}
