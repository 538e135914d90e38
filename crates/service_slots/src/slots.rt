// Slots beside each other.
ghost use Rattle.std.specs.Prelude.{◌≡◌, All, IfNone, IfSome, map};
ghost use denote.Param.Send.{IsSync, IsSend};
ghost use Rattle.connection_serve.specs.Promises.{MayServe};
ghost use Rattle.service_slots.specs.Doors.{made_of};
ghost use Rattle.service_slots.specs.Served.{SlotOf};
ghost use Rattle.service_slots.specs.Stops.{CountsAs, NoneEnded, StopsAs, IsStopped};

use crate::admitting::admit_connection;
use crate::slot::{Slot, serve_next};
use crate::stop::SlotStop;
use history_lock::TableName;
use pk_outside::{Clock, Door, Salt, Sights};
use shared_authority::{LimitsName, Shared};
use std::alloc::Global;
use std::sync::Wait;
use std::thread::{Threads, for_each_mut};

/// One turn of a slot: room for a line, the passes of a connection, a link that is served. Answers why the slot
/// stops, where it does.
fn turn<
    'a,
    L: LimitsName + Send + Sync,
    T: TableName + Send + Sync,
    D: Door,
    C: Clock,
    S: Salt,
    G: Sights,
    R: Threads + Wait + Sync,
>(
    rt: &'a R,
    alloc: Global,
    shared: &'a Shared<L, T>,
    most: Option<u32>,
    slot: &mut Slot<L, T, D, C, S, G>,
) -> Option<SlotStop>
    requires none_ended { NoneEnded slot.old.lines.items }
    requires may { MayServe D.Link.Out.allowed }
    ensures slot { SlotOf slot.old.pass.history (D.owner slot.old.door) (D.told slot.old.door) (C.gave slot.old.clock) (S.gave slot.old.salt) slot.old.lines.items
        → SlotOf slot.new.pass.history (D.owner slot.new.door) (D.told slot.new.door) (C.gave slot.new.clock) (S.gave slot.new.salt) slot.new.lines.items }
    ensures door { made_of (D.told slot.new.door) ≡ made_of (D.told slot.old.door) }
    ensures goes_on { IfNone result (NoneEnded slot.new.lines.items) }
    ensures counts { CountsAs (D.faults slot.old.door) (D.faults slot.new.door) result }
    ensures stops { IfSome result (StopsAs L.limits most slot.new.pass (D.told slot.new.door) (D.faults slot.new.door) slot.new.lines.items) }
{
    if slot.has_served(most) {
        return Some(SlotStop::Served);
    }
    if slot.lines.reserve(1).is_err() {
        return Some(SlotStop::NoMemory);
    }
    let live = slot.sights.is_some();
    match admit_connection(rt, shared, &mut slot.pass, live) {
        Ok(passes) => serve_next(rt, alloc, shared, slot, passes),
        Err(cause) => Some(SlotStop::Ended { cause }),
    }
}

/// Serves the links of one door, one after another, until the slot stops.
fn serve_slot<
    'a,
    L: LimitsName + Send + Sync,
    T: TableName + Send + Sync,
    D: Door,
    C: Clock,
    S: Salt,
    G: Sights,
    R: Threads + Wait + Sync,
>(
    rt: &'a R,
    alloc: Global,
    shared: &'a Shared<L, T>,
    most: Option<u32>,
    slot: &mut Slot<L, T, D, C, S, G>,
)
    requires none_ended { NoneEnded slot.old.lines.items }
    requires may { MayServe D.Link.Out.allowed }
    ensures slot { SlotOf slot.old.pass.history (D.owner slot.old.door) (D.told slot.old.door) (C.gave slot.old.clock) (S.gave slot.old.salt) slot.old.lines.items
        → SlotOf slot.new.pass.history (D.owner slot.new.door) (D.told slot.new.door) (C.gave slot.new.clock) (S.gave slot.new.salt) slot.new.lines.items }
    ensures door { made_of (D.told slot.new.door) ≡ made_of (D.told slot.old.door) }
    ensures stopped { IsStopped L.limits most slot.new.pass (D.told slot.new.door) (D.faults slot.new.door) slot.new.lines.items slot.new.stop }
    ensures counts { CountsAs (D.faults slot.old.door) (D.faults slot.new.door) slot.new.stop }
{
    for _ in rt.forever() {
        if let Some(stop) = turn(rt, alloc, shared, most, slot) {
            slot.stop = Some(stop);
            return;
        }
    }
    unreachable!()
}

/// Serves all slots beside each other, each in a thread of its own, until all have stopped. A slot
/// serves at most `most` connections, if that is told.
///
/// Each slot then has a line for each link that its door gave, in order, and its door has taken all
/// of these links back.
pub fn serve_slots<
    'a,
    L: LimitsName + Send + Sync,
    T: TableName + Send + Sync,
    D: Door,
    C: Clock,
    S: Salt,
    G: Sights,
    R: Threads + Wait + Sync,
>(
    rt: &'a R,
    alloc: Global,
    shared: &'a Shared<L, T>,
    most: Option<u32>,
    slots: &mut [Slot<L, T, D, C, S, G>],
)
    requires none_ended { All (λ s. NoneEnded s.lines.items) slots.old }
    requires may { MayServe D.Link.Out.allowed }
    ensures slots { All (λ s. SlotOf s.pass.history (D.owner s.door) (D.told s.door) (C.gave s.clock) (S.gave s.salt) s.lines.items) slots.old
        → All (λ s. SlotOf s.pass.history (D.owner s.door) (D.told s.door) (C.gave s.clock) (S.gave s.salt) s.lines.items) slots.new }
    ensures doors { map (λ s. made_of (D.told s.door)) slots.new ≡ map (λ s. made_of (D.told s.door)) slots.old }
    ensures stopped { All (λ s. IsStopped L.limits most s.pass (D.told s.door) (D.faults s.door) s.lines.items s.stop) slots.new }
    ensures counts { All (λ s. D.faults s.door ≡ 0) slots.old → All (λ s. CountsAs 0 (D.faults s.door) s.stop) slots.new }
{
    let count = slots.len();
    if count > 0 {
        for_each_mut(
            rt,
            slots,
            count,
            &|_index: usize, slot: &mut Slot<L, T, D, C, S, G>|
                requires { IsSync R.row × IsSync L.row × IsSync T.row × IsSend L.row × IsSend T.row × IsSend D.row × IsSend C.row × IsSend S.row × IsSend G.row
                    × IsSend D.Link.row × IsSend D.Link.In.row × IsSend D.Link.Out.row
                    × MayServe D.Link.Out.allowed
                    × NoneEnded slot.now.lines.items }
                ensures slot { SlotOf slot.entry.now.pass.history (D.owner slot.entry.now.door) (D.told slot.entry.now.door) (C.gave slot.entry.now.clock) (S.gave slot.entry.now.salt) slot.entry.now.lines.items
                    → SlotOf slot.exit.now.pass.history (D.owner slot.exit.now.door) (D.told slot.exit.now.door) (C.gave slot.exit.now.clock) (S.gave slot.exit.now.salt) slot.exit.now.lines.items }
                ensures door { made_of (D.told slot.exit.now.door) ≡ made_of (D.told slot.entry.now.door) }
                ensures stopped { IsStopped L.limits most slot.exit.now.pass (D.told slot.exit.now.door) (D.faults slot.exit.now.door) slot.exit.now.lines.items slot.exit.now.stop }
                ensures counts { CountsAs (D.faults slot.entry.now.door) (D.faults slot.exit.now.door) slot.exit.now.stop }
            { serve_slot(rt, alloc, shared, most, slot) },
        );
    }
}
