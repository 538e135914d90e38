// A slot at whose door nobody comes stops once the lock has ended.
ghost use Rattle.std.specs.Prelude.{◌≡◌};
ghost use Rattle.authority_model.specs.Entering.{AreAllowed};

use authority_model::Limits;
use history_lock::{EndCause, Opened, Pass, TableName, open_table};
use memory_outside::{ByteLink, EmptyStation};
use pk_outside::{Accepted, Door, Ends, Station};
use service_slots::{Slot, SlotStop, serve_slots};
use shared_authority::{Kept, LimitsName, Shared};
use std::alloc::Global;
use std::marker::Brand;
use std::sync::Wait;
use std::thread::{self, Threads, join};
use std::time::{self, Duration};
use test_parts::{Count, new_pass};

/// How often the door was idle when the lock ends.
const IDLE: u64 = 3;

/// A door at which nobody comes.
#[derive(Drop)]
struct IdleDoor<'a, R: time::Clock> {
    rt: &'a R,
    /// How often it was idle.
    idle: &'a Count,
}

impl<'a, R: time::Clock + Sync> Door for IdleDoor<'a, R> {
    ghost use Rattle.std.specs.Prelude.{None};

    type Link = ByteLink;

    ghost told = { λ _. None };

    ghost owner = { λ _. 1000 };

    ghost faults = { λ _. 0 };

    fn accept(&mut self) -> Accepted<ByteLink> {
        thread::sleep(self.rt, Duration::from_millis(1));
        self.idle.add(1);
        Accepted::Idle
    }

    fn back(&mut self, _ends: Ends<ByteLink>)
        ensures same { self.new ≡ self.old }
    {}

    fn uid(&self) -> u32 {
        1000
    }
}

/// Where the lock was ended by want of memory while the slot waited, that is why the slot stops.
#[test]
fn idle_slot_stops_once_the_lock_has_ended(rt: HostRuntime) {
    let ended = name_limits::<Brand, _>(&rt, rt.alloc(), Limits::GREATEST);
    let cause = EndCause::NoMemory;
    assert_eq!(rt; ended, Some((cause, Some(SlotStop::Ended { cause }))));
}

/// By which cause the lock was ended, and why the slot stopped.
type Ended = (EndCause, Option<SlotStop>);

fn name_limits<L: LimitsName + Send + Sync, R: Threads + Wait + time::Clock + Sync>(
    rt: &R,
    alloc: Global,
    limits: Limits,
) -> Option<Ended>
    requires allowed { AreAllowed limits }
    requires limits { limits ≡ L.limits }
{
    let opened = open_table::<Kept<L>>(alloc).ok()?;
    end_beside_slot::<L, Brand, R>(rt, alloc, limits, opened)
}

fn end_beside_slot<
    L: LimitsName + Send + Sync,
    T: TableName + Send + Sync,
    R: Threads + Wait + time::Clock + Sync,
>(rt: &R, alloc: Global, limits: Limits, opened: Opened<Kept<L>>) -> Option<Ended>
    requires allowed { AreAllowed limits }
    requires limits { limits ≡ L.limits }
    requires table { opened ≡ T.table }
{
    let (shared, mut control) = Shared::<L, T>::start(alloc, limits, opened).ok()?;
    let pass = new_pass(rt, &shared, &mut control)?;
    let idle = Count::new();
    Some(beside(rt, alloc, &shared, &idle, control, pass))
}

/// Ends the lock by the control pass, beside a slot with the other one.
fn beside<
    'a,
    L: LimitsName + Send + Sync,
    T: TableName + Send + Sync,
    R: Threads + Wait + time::Clock + Sync,
>(
    rt: &'a R,
    alloc: Global,
    shared: &'a Shared<L, T>,
    idle: &'a Count,
    control: Pass<Kept<L>, T>,
    pass: Pass<Kept<L>, T>,
) -> Ended {
    join(
        rt,
        move || end_when_idle(rt, shared, idle, control),
        move || serve_idle(rt, alloc, shared, idle, pass),
    )
}

/// Ends the lock once the door was idle some times, and answers the kept cause.
fn end_when_idle<L: LimitsName, T: TableName, R: Wait + time::Clock>(
    rt: &R,
    shared: &Shared<L, T>,
    idle: &Count,
    mut control: Pass<Kept<L>, T>,
) -> EndCause {
    let _ = idle.reaches(rt, IDLE);
    shared.end(rt, &mut control, EndCause::NoMemory)
}

/// Serves a slot at whose door nobody comes, and answers why it stopped.
fn serve_idle<
    'a,
    L: LimitsName + Send + Sync,
    T: TableName + Send + Sync,
    R: Threads + Wait + time::Clock + Sync,
>(
    rt: &'a R,
    alloc: Global,
    shared: &'a Shared<L, T>,
    idle: &'a Count,
    pass: Pass<Kept<L>, T>,
) -> Option<SlotStop> {
    let mut station = EmptyStation::new();
    let (clock, salt) = (station.clock(), station.salt());
    let sights = Some(station.sights());
    let mut slots = Vec::new(alloc);
    let slot = Slot::new(alloc, pass, IdleDoor { rt, idle }, clock, salt, sights);
    slots.push(slot).ok()?;
    serve_slots(rt, alloc, shared, None, slots.as_mut_slice());
    let Slot {
        pass: _,
        door: _,
        clock: _,
        salt: _,
        sights: _,
        lines: _,
        stop,
    } = slots.pop()?;
    stop
}
