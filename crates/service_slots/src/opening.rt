// How slots are opened and shut.
ghost use Rattle.std.specs.Prelude.{◌≡◌, ◌++◌, [], None, Some, ◌≤◌, ℕ, List, Option, IfOk, OnErr};
ghost use Rattle.history_lock.specs.Calls.{Learned};
ghost use Rattle.authority_model.specs.declared.journal.Item.{Item};
ghost use Rattle.pk_outside.specs.Refusals.{StationCause};
ghost use Rattle.pk_outside.specs.Stations.{StationTold};
ghost use Rattle.shared_authority.specs.Journals.{IsJournal, caller_of};
ghost use Rattle.service_slots.specs.declared.line.Line.{Line};
ghost use Rattle.service_slots.specs.Doors.{made_of, DoorsAreDone, OpensDoor, ShutsDoor};
ghost use Rattle.service_slots.specs.Served.{SlotOf, SlotsOf};
ghost use Rattle.service_slots.specs.Stops.{CountsAs, HasServedAll, IsStopped, StopTells};
ghost use Rattle.history_lock.specs.declared.machine.TheConstants.{MOST_PASSES};

use crate::line::Line;
use crate::slot::Slot;
use crate::stop::SlotStop;
use history_lock::{Pass, TableName};
use pk_outside::{Station, StationRefused};
use pk_types::Text;
use shared_authority::{Kept, LimitsName, Shared};
use std::alloc::Global;

/// Which slot it is, and how its connections are served.
#[derive(Clone, Copy)]
pub struct Place<'a> {
    /// The user of its door.
    pub uid: u32,
    /// The path of its door.
    pub path: &'a Text,
    /// Its number among the slots of this path.
    pub number: u32,
    /// Whether its connections look at processes.
    pub live: bool,
}

/// Makes the door of a place with a clock and a salt, and with looks at processes where its connections
/// are to look, and a slot of them that has served nothing.
///
/// # Errors
/// As of the station's door. The station then tells what it told.
pub fn open_slot<L: LimitsName, T: TableName, N: Station>(
    alloc: Global,
    station: &mut N,
    place: Place<'_>,
    pass: Pass<Kept<L>, T>,
) -> Result<Slot<L, T, N::Door, N::Clock, N::Salt, N::Sights>, StationRefused>
    ensures slot { IfOk result (λ slot. (now : StationTold) (H : List Item) → N.told station.new ≡ Some now → SlotOf H (N.Door.owner slot.door) (N.Door.told slot.door) (N.Clock.gave slot.clock) (N.Salt.gave slot.salt) slot.lines.items) }
    ensures new { IfOk result (λ slot. (slot.pass ≡ pass) × (slot.lines.items ≡ []) × (slot.stop ≡ None) × (N.Door.faults slot.door ≡ 0)) }
    ensures door { IfOk result (λ slot. OpensDoor place.entry.uid place.entry.path.now place.entry.number place.entry.live (N.told station.old) (N.told station.new) (made_of (N.Door.told slot.door))) }
    ensures refused { OnErr result (N.told station.new ≡ N.told station.old) }
    ensures cause { StationCause (N.faults station.old) (N.faults station.new) result }
{
    let door = station.door(place.uid, place.path, place.number)?;
    let clock = station.clock();
    let salt = station.salt();
    let mut sights = None;
    if place.live {
        sights = Some(station.sights());
    }
    Ok(Slot::new(alloc, pass, door, clock, salt, sights))
}

/// What is left of a slot that was shut.
#[derive(Drop)]
pub struct ShutSlot {
    /// One line for each connection, in the order of serving.
    pub lines: Vec<Line>,
    /// Why it stopped.
    pub stop: Option<SlotStop>,
}

/// Shuts one slot, whose pass tells the control pass what it knows, and answers its lines, which go
/// behind those of the slots that were shut before. It takes no memory.
pub fn shut_slot<L: LimitsName, T: TableName, N: Station>(
    shared: &Shared<L, T>,
    control: &mut Pass<Kept<L>, T>,
    station: &mut N,
    slot: Slot<L, T, N::Door, N::Clock, N::Salt, N::Sights>,
) -> ShutSlot
    ensures slots { (lines : List Line) → SlotOf slot.pass.history (N.Door.owner slot.door) (N.Door.told slot.door) (N.Clock.gave slot.clock) (N.Salt.gave slot.salt) slot.lines.items
        → SlotsOf control.old.history (N.told station.old) lines → SlotsOf control.new.history (N.told station.new) (lines ++ result.lines.items) }
    ensures door { ShutsDoor (N.told station.old) (N.told station.new) (N.Door.told slot.door) }
    ensures same { (result.lines ≡ slot.lines) × (result.stop ≡ slot.stop) }
    ensures stop { (most : Option ℕ) → IsStopped L.limits most slot.pass (N.Door.told slot.door) (N.Door.faults slot.door) slot.lines.items slot.stop → StopTells L.limits most control.new (N.faults station.old) (N.faults station.new) result.lines.items result.stop }
    ensures done { (most : Option ℕ) → SlotOf slot.pass.history (N.Door.owner slot.door) (N.Door.told slot.door) (N.Clock.gave slot.clock) (N.Salt.gave slot.salt) slot.lines.items
        → IsStopped L.limits most slot.pass (N.Door.told slot.door) (N.Door.faults slot.door) slot.lines.items slot.stop
        → HasServedAll result.stop → DoorsAreDone most (N.told station.old) (N.told station.new) }
    ensures counts { CountsAs 0 (N.Door.faults slot.door) slot.stop → CountsAs (N.faults station.old) (N.faults station.new) result.stop }
    ensures learned { Learned caller_of IsJournal control.old control.new }
    ensures top { control.new.made ≤ MOST_PASSES }
    ensures later { N.faults station.old ≤ N.faults station.new }
{
    let Slot {
        mut pass,
        door,
        clock,
        salt,
        sights: _sights,
        lines,
        stop,
    } = slot;
    shared.meet(control, &mut pass);
    station.shut(door, clock, salt);
    ShutSlot { lines, stop }
}
