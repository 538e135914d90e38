// Slots whose doors are closed stop at once, and come back to their station.
ghost use Rattle.std.specs.Prelude.{◌≡◌, All};
ghost use Rattle.authority_model.specs.Entering.{AreAllowed};
ghost use Rattle.service_slots.specs.Stops.{NoneEnded};

use crate::passes::close;
use authority_model::Limits;
use history_lock::{Opened, Pass, TableName, open_table};
use memory_outside::EmptyStation;
use pk_outside::Station;
use pk_types::Text;
use service_slots::{Place, ShutSlot, Slot, SlotStop, open_slot, serve_slots, shut_slot};
use shared_authority::{Kept, LimitsName, Shared};
use std::alloc::Global;
use std::marker::Brand;
use std::sync::Wait;
use std::thread::Threads;
use test_parts::new_pass;

#[test]
fn closed_doors_stop_their_slots(rt: HostRuntime) {
    let stopped = name_limits::<Brand, _>(&rt, rt.alloc(), Limits::GREATEST);
    assert_eq!(rt; stopped, Some((2, 0)));
}

fn name_limits<L: LimitsName + Send + Sync, R: Threads + Wait + Sync>(
    rt: &R,
    alloc: Global,
    limits: Limits,
) -> Option<(usize, usize)>
    requires allowed { AreAllowed limits }
    requires limits { limits ≡ L.limits }
{
    let opened = open_table::<Kept<L>>(alloc).ok()?;
    stop_two_slots::<L, Brand, R>(rt, alloc, limits, opened)
}

/// How many of two slots stop since their doors are closed, and how many entries the journal has
/// then.
fn stop_two_slots<
    L: LimitsName + Send + Sync,
    T: TableName + Send + Sync,
    R: Threads + Wait + Sync,
>(rt: &R, alloc: Global, limits: Limits, opened: Opened<Kept<L>>) -> Option<(usize, usize)>
    requires allowed { AreAllowed limits }
    requires limits { limits ≡ L.limits }
    requires table { opened ≡ T.table }
{
    let (shared, mut control) = Shared::<L, T>::start(alloc, limits, opened).ok()?;
    let closed = serve_two(rt, alloc, &shared, &mut control)?;
    Some((closed, close(shared, control).entries))
}

/// Serves two slots of one path, of which the second looks at processes, and answers how many of them stopped since their doors are closed.
fn serve_two<L: LimitsName + Send + Sync, T: TableName + Send + Sync, R: Threads + Wait + Sync>(
    rt: &R,
    alloc: Global,
    shared: &Shared<L, T>,
    control: &mut Pass<Kept<L>, T>,
) -> Option<usize> {
    let path = Text::try_from_bytes(alloc, b"/u").ok()?;
    let mut station = EmptyStation::new();
    let mut slots = Vec::new(alloc);
    let first = place(&path, 0, false);
    push_slot(rt, alloc, shared, control, &mut station, first, &mut slots)?;
    let second = place(&path, 1, true);
    push_slot(rt, alloc, shared, control, &mut station, second, &mut slots)?;
    serve_slots(rt, alloc, shared, None, slots.as_mut_slice());
    Some(count_closed(shared, control, &mut station, slots))
}

/// A place of user 1000.
fn place(path: &Text, number: u32, live: bool) -> Place<'_> {
    Place {
        uid: 1000,
        path,
        number,
        live,
    }
}

/// Opens a slot behind others. None where a pass, a door or memory is refused.
fn push_slot<L: LimitsName, T: TableName, N: Station, R: Wait>(
    rt: &R,
    alloc: Global,
    shared: &Shared<L, T>,
    control: &mut Pass<Kept<L>, T>,
    station: &mut N,
    place: Place<'_>,
    slots: &mut Vec<Slot<L, T, N::Door, N::Clock, N::Salt, N::Sights>>,
) -> Option<()>
    requires none { All (λ s. NoneEnded s.lines.items) slots.old.items }
    ensures none { All (λ s. NoneEnded s.lines.items) slots.new.items }
{
    let pass = new_pass(rt, shared, control)?;
    let slot = open_slot(alloc, station, place, pass).ok()?;
    slots.push(slot).ok()
}

/// Shuts the slots, and answers how many of them stopped since their doors are closed.
fn count_closed<L: LimitsName, T: TableName, N: Station>(
    shared: &Shared<L, T>,
    control: &mut Pass<Kept<L>, T>,
    station: &mut N,
    slots: Vec<Slot<L, T, N::Door, N::Clock, N::Salt, N::Sights>>,
) -> usize {
    let mut closed = 0usize;
    for slot in slots {
        let shut = shut_slot(shared, control, station, slot);
        if is_closed(&shut) {
            closed = closed.saturating_add(1);
        }
    }
    closed
}

/// Whether a slot stopped since its door is closed, and has served nothing.
fn is_closed(shut: &ShutSlot) -> bool {
    shut.stop == Some(SlotStop::Closed) && shut.lines.is_empty()
}
