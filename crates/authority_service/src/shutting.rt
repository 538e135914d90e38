// The end of the slots.
ghost use Rattle.std.specs.Prelude.{◌≡◌, ◌≤◌, [], All, ℕ, Option, flat_map, map, vec_len};
ghost use Rattle.std.specs.Vec.{vec_capacity};
ghost use Rattle.authority_service.specs.Shutting.{ShutsAll};
ghost use Rattle.connection_laws.specs.Knowing.{KnowsMore};
ghost use Rattle.service_slots.specs.Doors.{DoorsAreDone};
ghost use Rattle.service_slots.specs.Served.{SlotOf, SlotsOf};
ghost use Rattle.service_slots.specs.Stops.{CountsAs, HasServedAll, IsStopped, StopTells};
ghost use Rattle.history_lock.specs.declared.machine.TheConstants.{MOST_PASSES};

use history_lock::{Pass, TableName};
use pk_outside::Station;
use service_slots::{ShutSlot, Slot, shut_slot};
use shared_authority::{Kept, LimitsName, Shared};

/// Shuts all slots, in their order. The passes of all of them tell the control pass what they know.
/// It takes no memory.
pub fn shut_slots<L: LimitsName, T: TableName, N: Station>(
    shared: &Shared<L, T>,
    control: &mut Pass<Kept<L>, T>,
    station: &mut N,
    slots: Vec<Slot<L, T, N::Door, N::Clock, N::Salt, N::Sights>>,
    shut: &mut Vec<ShutSlot>,
)
    requires none { shut.old.items ≡ [] }
    requires room { vec_len slots ≤ vec_capacity shut.old }
    ensures slots { All (λ s. SlotOf s.pass.history (N.Door.owner s.door) (N.Door.told s.door) (N.Clock.gave s.clock) (N.Salt.gave s.salt) s.lines.items) slots.items
        → SlotsOf control.old.history (N.told station.old) []
        → SlotsOf control.new.history (N.told station.new) (flat_map (λ s. s.lines.items) shut.new.items) }
    ensures doors { ShutsAll (N.told station.old) (N.told station.new) (map (λ s. N.Door.told s.door) slots.items) }
    ensures stops { (most : Option ℕ) → All (λ s. IsStopped L.limits most s.pass (N.Door.told s.door) (N.Door.faults s.door) s.lines.items s.stop) slots.items
        → All (λ s. StopTells L.limits most control.new (N.faults station.old) (N.faults station.new) s.lines.items s.stop) shut.new.items }
    ensures done { (most : Option ℕ)
        → All (λ s. SlotOf s.pass.history (N.Door.owner s.door) (N.Door.told s.door) (N.Clock.gave s.clock) (N.Salt.gave s.salt) s.lines.items) slots.items
        → All (λ s. IsStopped L.limits most s.pass (N.Door.told s.door) (N.Door.faults s.door) s.lines.items s.stop) slots.items
        → All (λ s. HasServedAll s.stop) shut.new.items → DoorsAreDone most (N.told station.old) (N.told station.new) }
    ensures knows { KnowsMore control.old control.new }
    ensures top { control.new.made ≤ MOST_PASSES }
    ensures lines { map (λ s. s.lines.items) shut.new.items ≡ map (λ s. s.lines.items) slots.items }
    ensures stopped { map (λ s. s.stop) shut.new.items ≡ map (λ s. s.stop) slots.items }
    ensures counts { All (λ s. CountsAs 0 (N.Door.faults s.door) s.stop) slots.items → All (λ s. HasServedAll s.stop) shut.new.items → N.faults station.new ≡ N.faults station.old }
    ensures later { N.faults station.old ≤ N.faults station.new }
{
    let _number = control.number();
    for slot in slots {
        let one = shut_slot(shared, control, station, slot);
        shut.push_reserved(one);
    }
}
