// The slots of a plan.
ghost use Rattle.std.specs.Prelude.{◌≡◌, ◌≤◌, [], None, Some, All, IfErr, IfOk, List, OnOk, map, vec_len};
ghost use Rattle.std.specs.Vec.{vec_capacity};
ghost use Rattle.authority_model.specs.declared.journal.Item.{Item};
ghost use Rattle.pk_outside.specs.Stations.{StationTold};
ghost use Rattle.serve_words.specs.Plans.{IsAllowed};
ghost use Rattle.service_slots.specs.Doors.{made_of};
ghost use Rattle.service_slots.specs.Served.{SlotOf};
ghost use Rattle.authority_service.specs.Begun.{IsShort, unbegun_by};
ghost use Rattle.authority_service.specs.Places.{OpensFirst};
ghost use Rattle.authority_service.specs.Service.{slots_of};

use crate::beginning::Parts;
use crate::shutting::shut_slots;
use history_lock::TableName;
use pk_outside::{Station, StationRefused};
use serve_words::ServePlan;
use service_slots::{Place, Slot, open_slot};
use shared_authority::{LimitsName, Shared};
use std::alloc::Global;

/// Why no connection was served.
#[derive(Clone, Copy, Debug, PartialEq, Eq)]
pub enum Unbegun {
    /// A door could not be made, and the station counted a fault.
    DoorFault,
    /// Memory was refused.
    NoMemory,
}

impl Unbegun {
    /// Why no connection was served, by the refusal of a door.
    fn by(refused: StationRefused) -> Unbegun
        ensures why { result ≡ unbegun_by refused }
    {
        match refused {
            StationRefused::Failed => Unbegun::DoorFault,
            StationRefused::NoMemory => Unbegun::NoMemory,
        }
    }
}

/// Opens the slots of a plan: they stand in the order of its doors and, for one door, by their numbers
/// from 0. Where a door is refused, the slots that were opened before it are shut.
pub fn open_slots<L: LimitsName, T: TableName, N: Station>(
    alloc: Global,
    station: &mut N,
    plan: &ServePlan,
    shared: &Shared<L, T>,
    parts: &mut Parts<L, T>,
) -> Result<Vec<Slot<L, T, N::Door, N::Clock, N::Salt, N::Sights>>, Unbegun>
    requires allowed { IsAllowed plan.now }
    requires passes { vec_len parts.old.passes ≡ slots_of plan.now }
    requires room { (parts.old.shut.items ≡ []) × (slots_of plan.now ≤ vec_capacity parts.old.shut) }
    ensures all { IfOk result (λ slots. vec_len slots ≡ slots_of plan.now) }
    ensures doors { IfOk result (λ slots. OpensFirst plan.now.doors plan.now.slots (slots_of plan.now) plan.now.live (N.told station.old) (N.told station.new) (map (λ s. made_of (N.Door.told s.door)) slots.items)) }
    ensures slots { IfOk result (λ slots. (now : StationTold) (H : List Item) → N.told station.new ≡ Some now
        → All (λ s. SlotOf H (N.Door.owner s.door) (N.Door.told s.door) (N.Clock.gave s.clock) (N.Salt.gave s.salt) s.lines.items) slots.items) }
    ensures new { IfOk result (λ slots. All (λ s. (s.lines.items ≡ []) × (s.stop ≡ None) × (N.Door.faults s.door ≡ 0)) slots.items) }
    ensures room { OnOk result ((parts.new.shut.items ≡ []) × (slots_of plan.now ≤ vec_capacity parts.new.shut)) }
    ensures short { IfErr result (IsShort plan.now (N.told station.old) (N.told station.new) (N.faults station.old) (N.faults station.new)) }
    ensures quiet { OnOk result (N.faults station.new ≡ N.faults station.old) }
{
    let paths = plan.doors.as_slice();
    let each = plan.slots as usize;
    let count = paths.len() * each;
    let Ok(mut slots) = Vec::with_capacity(alloc, count) else {
        return Err(Unbegun::NoMemory);
    };
    for index in 0..count {
        let path = &paths[index / each];
        let Some(pass) = parts.passes.pop() else {
            unreachable!()
        };
        let place = Place {
            uid: path.uid,
            path: &path.path,
            number: (index % each) as u32,
            live: plan.live,
        };
        match open_slot(alloc, station, place, pass) {
            Ok(slot) => slots.push_reserved(slot),
            Err(refused) => {
                shut_slots(shared, &mut parts.control, station, slots, &mut parts.shut);
                return Err(Unbegun::by(refused));
            }
        }
    }
    Ok(slots)
}
