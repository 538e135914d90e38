// A station in memory, which gives what its plan says and keeps what comes back.
ghost use Rattle.std.specs.Prelude.{◌≡◌, ◌≤◌, ◌||◌, [], Some, IfOk, OnOk, OnErr, map, length, nat_eq, nat_lt};
ghost use Rattle.pk_outside.specs.Causes.{Rose, RoseWhere};
ghost use Rattle.memory_outside.specs.Held.{source_calls, sink_calls};
ghost use Rattle.memory_outside.specs.Memory.{fails_next, one_call};
ghost use Rattle.pk_outside.specs.Refusals.{StationCause, station_failed};
ghost use Rattle.pk_outside.specs.Stations.{MakesDoor, Dials, MakesClock, MakesSalt, MakesSights, MakesFile, Shuts, Hangs, TakesFile, first_list, other_lists, has_fault};

use crate::calls::Calls;
use crate::clock::{ListClock, ListSalt, Readings};
use crate::door::{DoorPlan, ListDoor, ReturnedDoor};
use crate::file::{FilePlan, ListFile, ReturnedFile};
use crate::link::{ByteLink, ReturnedLink};
use crate::seats::{Returned, Seat};
use crate::sights::ListSights;
use pk_outside::{Ends, Sighted, Station, StationRefused};
use pk_types::{List, NoMemory, Text};
use std::alloc::Global;
use std::collections::VecDeque;

/// What a station in memory will give.
#[derive(Drop)]
pub struct StationPlan {
    /// What each door that it will make gives, in the order of the calls of `door`.
    pub doors: List<DoorPlan>,
    /// The links that it will dial, in the order of the calls of `dial`.
    pub links: List<ByteLink>,
    /// The readings of each clock that it will make.
    pub clocks: List<Readings>,
    /// The words of each salt that it will make.
    pub salts: List<List<u128>>,
    /// The sightings of all looks at processes that it will make.
    pub sights: List<List<Sighted>>,
    /// The files that it will make, in the order of the calls of `file`.
    pub files: List<FilePlan>,
    /// The numbers of the calls of `door` that are to fail; the first call has the number 1.
    pub failing_doors: Vec<u64>,
    /// The numbers of the calls of `dial` that are to fail; the first call has the number 1.
    pub failing_dials: Vec<u64>,
    /// The numbers of the calls of `file` that are to fail; the first call has the number 1.
    pub failing_files: Vec<u64>,
}

impl StationPlan {
    ghost use Rattle.memory_outside.specs.HeldStation.{plan_told};

    /// Nothing to give, and no call that is to fail. It takes no memory.
    pub fn empty(alloc: Global) -> Self
        ensures told { plan_told result ≡ record { doors = []; links = []; clocks = []; salts = []; shut = []; hung = []; sights = []; made = []; filed = [] } }
        ensures files { result.files ≡ [] }
        ensures failing { (result.failing_doors.items ≡ []) × (result.failing_dials.items ≡ []) × (result.failing_files.items ≡ []) }
    {
        StationPlan {
            doors: List::new(alloc),
            links: List::new(alloc),
            clocks: List::new(alloc),
            salts: List::new(alloc),
            sights: List::new(alloc),
            files: List::new(alloc),
            failing_doors: Vec::new(alloc),
            failing_dials: Vec::new(alloc),
            failing_files: Vec::new(alloc),
        }
    }
}

/// A station in memory, which gives what its plan says, in order, and keeps what comes back. Where
/// the plan has no more, a door has no link, a clock no reading, a salt no word and a look finds no
/// process, and there is no link to dial and no file to make: such a call of `dial` or `file` fails,
/// and counts a fault.
///
/// It tells all of this in every state. What comes back is kept in the seat that it brings, so that
/// there is always room for it.
#[derive(Drop)]
pub struct ListStation {
    alloc: Global,
    doors: VecDeque<DoorPlan>,
    links: VecDeque<ByteLink>,
    clocks: VecDeque<Readings>,
    salts: VecDeque<List<u128>>,
    sights: VecDeque<List<Sighted>>,
    files: VecDeque<FilePlan>,
    shut: Returned<ReturnedDoor>,
    hung: Returned<ReturnedLink>,
    made: Returned<Text>,
    filed: Returned<ReturnedFile>,
    door_calls: Calls,
    dial_calls: Calls,
    file_calls: Calls,
    faults: u64,
}

impl ListStation {
    ghost use Rattle.memory_outside.specs.HeldStation.{door_links, door_failing, plan_told, station_told, station_faults, failing_accepts, calls_of_door, calls_of_dial, calls_of_file, planned_files, shut_doors, hung_links, filed_files};

    /// A station that will give what the plan says. It counted no fault. It takes no memory.
    pub fn new(alloc: Global, plan: StationPlan) -> Self
        ensures told { station_told result ≡ plan_told plan }
        ensures doors { calls_of_door result ≡ record { made = 0; faults = 0; failing = plan.failing_doors.items } }
        ensures dials { calls_of_dial result ≡ record { made = 0; faults = 0; failing = plan.failing_dials.items } }
        ensures files { calls_of_file result ≡ record { made = 0; faults = 0; failing = plan.failing_files.items } }
        ensures planned { planned_files result ≡ plan.files }
        ensures accepts { failing_accepts result ≡ map door_failing plan.doors }
        ensures sound { station_faults result ≡ 0 }
    {
        ListStation {
            alloc,
            doors: VecDeque::from_vec(plan.doors.into_vec()),
            links: VecDeque::from_vec(plan.links.into_vec()),
            clocks: VecDeque::from_vec(plan.clocks.into_vec()),
            salts: VecDeque::from_vec(plan.salts.into_vec()),
            sights: VecDeque::from_vec(plan.sights.into_vec()),
            files: VecDeque::from_vec(plan.files.into_vec()),
            shut: Returned::new(),
            hung: Returned::new(),
            made: Returned::new(),
            filed: Returned::new(),
            door_calls: Calls::failing_at(plan.failing_doors),
            dial_calls: Calls::failing_at(plan.failing_dials),
            file_calls: Calls::failing_at(plan.failing_files),
            faults: 0,
        }
    }

    /// A station that has nothing to give: its doors have no link. It takes no memory.
    pub fn empty(alloc: Global) -> Self
        ensures told { station_told result ≡ record { doors = []; links = []; clocks = []; salts = []; shut = []; hung = []; sights = []; made = []; filed = [] } }
        ensures doors { calls_of_door result ≡ record { made = 0; faults = 0; failing = [] } }
        ensures dials { calls_of_dial result ≡ record { made = 0; faults = 0; failing = [] } }
        ensures files { calls_of_file result ≡ record { made = 0; faults = 0; failing = [] } }
        ensures planned { planned_files result ≡ [] }
        ensures accepts { failing_accepts result ≡ [] }
        ensures sound { station_faults result ≡ 0 }
    {
        ListStation::new(alloc, StationPlan::empty(alloc))
    }

    /// How many faults it counted.
    pub fn faults(&self) -> u64
        ensures faults { result ≡ station_faults self.now }
    {
        self.faults
    }

    /// The doors that were shut, in this order.
    pub fn shut_doors(&self) -> &Returned<ReturnedDoor>
        ensures shut { result.now ≡ shut_doors self.now }
    {
        &self.shut
    }

    /// The dialled links that were hung up, in this order.
    pub fn hung_links(&self) -> &Returned<ReturnedLink>
        ensures hung { result.now ≡ hung_links self.now }
    {
        &self.hung
    }

    /// The files that came back, in this order.
    pub fn filed_files(&self) -> &Returned<ReturnedFile>
        ensures filed { result.now ≡ filed_files self.now }
    {
        &self.filed
    }

    /// Counts a fault.
    fn count_fault(&mut self)
        ensures rose { Rose (station_faults self.old) (station_faults self.new) }
        ensures later { station_faults self.old ≤ station_faults self.new }
        ensures others { self.new ≡ record self.old { faults = station_faults self.new } }
    {
        self.faults = self.faults.saturating_add(1);
    }

    /// Counts a fault where what came back had failed.
    fn count_fault_where(&mut self, failed: bool)
        ensures count { RoseWhere failed (station_faults self.old) (station_faults self.new) }
        ensures others { self.new ≡ record self.old { faults = station_faults self.new } }
    {
        if failed {
            self.count_fault();
        }
    }

    /// What the next door gives.
    fn next_door(&mut self) -> DoorPlan
        ensures plan { door_links result ≡ first_list (station_told self.old).doors }
        ensures rest { station_told self.new ≡ record (station_told self.old) { doors = other_lists (station_told self.old).doors } }
        ensures failing { result.failing.items ≡ first_list (failing_accepts self.old) }
        ensures failing_later { failing_accepts self.new ≡ other_lists (failing_accepts self.old) }
        ensures count { station_faults self.new ≡ station_faults self.old }
        ensures doors { calls_of_door self.new ≡ calls_of_door self.old }
        ensures dials { calls_of_dial self.new ≡ calls_of_dial self.old }
        ensures files { calls_of_file self.new ≡ calls_of_file self.old }
        ensures planned { planned_files self.new ≡ planned_files self.old }
    {
        match self.doors.pop_front() {
            Some(plan) => plan,
            None => DoorPlan::empty(self.alloc),
        }
    }
}

impl Station for ListStation {
    ghost use Rattle.std.specs.Prelude.{Some};
    ghost use Rattle.pk_outside.specs.Links.{EndsTell};
    ghost use Rattle.memory_outside.specs.Held.{source_origin, source_left, sink_held};
    ghost use Rattle.memory_outside.specs.HeldClock.{clock_left, clock_gave, salt_left, salt_gave};
    ghost use Rattle.memory_outside.specs.HeldLink.{link_bytes, link_hung, link_origin};
    ghost use Rattle.memory_outside.specs.HeldDoor.{door_told, door_uid, door_calls, door_back};
    ghost use Rattle.pk_outside.specs.Files.{FileTells};
    ghost use Rattle.memory_outside.specs.HeldFile.{file_path, file_held, file_calls, file_back, MakesPlanned};
    ghost use Rattle.memory_outside.specs.HeldSights.{sights_left, sights_gave, sights_faults};
    ghost use Rattle.memory_outside.specs.HeldStation.{door_links, station_told, station_faults, failing_accepts, calls_of_door, calls_of_dial, calls_of_file, planned_files};

    type Door = ListDoor;

    type Link = ByteLink;

    type Clock = ListClock;

    type Salt = ListSalt;

    type File = ListFile;

    type Sights = ListSights;

    ghost told = { λ s. Some (record {
      doors = map door_links s.doors.items;
      links = map link_bytes s.links.items;
      clocks = s.clocks.items;
      salts = s.salts.items;
      shut = map door_back s.shut;
      hung = map link_hung s.hung;
      sights = s.sights.items;
      made = s.made;
      filed = map file_back s.filed;
    }) };

    ghost faults = { λ s. s.faults };

    fn door(&mut self, uid: u32, path: &Text, slot: u32) -> Result<ListDoor, StationRefused>
        ensures door { IfOk result (λ door. MakesDoor uid path.now slot (Some (station_told self.old)) (Some (station_told self.new)) (Some (door_told door))) }
        ensures owner { IfOk result (λ door. door_uid door ≡ uid) }
        ensures count { IfOk result (λ door. (door_calls door).faults ≡ 0) }
        ensures accepts { IfOk result (λ door. door_calls door ≡ record { made = 0; faults = 0; failing = first_list (failing_accepts self.old) }) }
        ensures accepts_later { OnOk result (failing_accepts self.new ≡ other_lists (failing_accepts self.old)) }
        ensures accepts_kept { OnErr result (failing_accepts self.new ≡ failing_accepts self.old) }
        ensures err { OnErr result (Some (station_told self.new) ≡ Some (station_told self.old)) }
        ensures cause { StationCause (station_faults self.old) (station_faults self.new) result }
        ensures listed { station_failed result ≡ fails_next (calls_of_door self.old) }
        ensures counted { calls_of_door self.new ≡ one_call (calls_of_door self.old) (station_failed result) }
        ensures dials { calls_of_dial self.new ≡ calls_of_dial self.old }
        ensures files { calls_of_file self.new ≡ calls_of_file self.old }
        ensures planned { planned_files self.new ≡ planned_files self.old }
    {
        if self.door_calls.is_failing() {
            self.door_calls.fail();
            self.count_fault();
            return Err(StationRefused::Failed);
        }
        self.door_calls.pass();
        match room_for_door(self.alloc, path) {
            Ok((path, seat)) => Ok(ListDoor::in_seat(seat, uid, path, slot, self.next_door())),
            Err(NoMemory) => Err(StationRefused::NoMemory),
        }
    }

    fn dial(&mut self, path: &Text) -> Result<ByteLink, StationRefused>
        ensures link { IfOk result (λ link. Dials path.now (Some (station_told self.old)) (Some (station_told self.new)) (link_origin link)) }
        ensures err { OnErr result (Some (station_told self.new) ≡ Some (station_told self.old)) }
        ensures cause { StationCause (station_faults self.old) (station_faults self.new) result }
        ensures listed { station_failed result ≡ (fails_next (calls_of_dial self.old) || nat_eq (length (station_told self.old).links) 0) }
        ensures counted { calls_of_dial self.new ≡ one_call (calls_of_dial self.old) (station_failed result) }
        ensures doors { calls_of_door self.new ≡ calls_of_door self.old }
        ensures files { calls_of_file self.new ≡ calls_of_file self.old }
        ensures planned { planned_files self.new ≡ planned_files self.old }
        ensures accepts { failing_accepts self.new ≡ failing_accepts self.old }
    {
        if self.dial_calls.is_failing() || self.links.is_empty() {
            self.dial_calls.fail();
            self.count_fault();
            return Err(StationRefused::Failed);
        }
        self.dial_calls.pass();
        let Ok(path) = path.try_copy() else {
            return Err(StationRefused::NoMemory);
        };
        let Some(link) = self.links.pop_front() else {
            unreachable!()
        };
        Ok(link.dialled(path))
    }

    fn clock(&mut self) -> ListClock
        ensures clock { MakesClock (Some (station_told self.old)) (Some (station_told self.new)) (Some (clock_left result)) (Some (clock_gave result)) }
        ensures count { station_faults self.new ≡ station_faults self.old }
        ensures doors { calls_of_door self.new ≡ calls_of_door self.old }
        ensures dials { calls_of_dial self.new ≡ calls_of_dial self.old }
        ensures files { calls_of_file self.new ≡ calls_of_file self.old }
        ensures planned { planned_files self.new ≡ planned_files self.old }
        ensures accepts { failing_accepts self.new ≡ failing_accepts self.old }
    {
        match self.clocks.pop_front() {
            Some(readings) => ListClock::new(readings),
            None => ListClock::empty(self.alloc),
        }
    }

    fn salt(&mut self) -> ListSalt
        ensures salt { MakesSalt (Some (station_told self.old)) (Some (station_told self.new)) (Some (salt_left result)) (Some (salt_gave result)) }
        ensures count { station_faults self.new ≡ station_faults self.old }
        ensures doors { calls_of_door self.new ≡ calls_of_door self.old }
        ensures dials { calls_of_dial self.new ≡ calls_of_dial self.old }
        ensures files { calls_of_file self.new ≡ calls_of_file self.old }
        ensures planned { planned_files self.new ≡ planned_files self.old }
        ensures accepts { failing_accepts self.new ≡ failing_accepts self.old }
    {
        match self.salts.pop_front() {
            Some(words) => ListSalt::new(words),
            None => ListSalt::empty(self.alloc),
        }
    }

    fn sights(&mut self) -> ListSights
        ensures sights { MakesSights (Some (station_told self.old)) (Some (station_told self.new)) (Some (sights_left result)) (Some (sights_gave result)) }
        ensures sound { sights_faults result ≡ 0 }
        ensures count { station_faults self.new ≡ station_faults self.old }
        ensures doors { calls_of_door self.new ≡ calls_of_door self.old }
        ensures dials { calls_of_dial self.new ≡ calls_of_dial self.old }
        ensures files { calls_of_file self.new ≡ calls_of_file self.old }
        ensures planned { planned_files self.new ≡ planned_files self.old }
        ensures accepts { failing_accepts self.new ≡ failing_accepts self.old }
    {
        match self.sights.pop_front() {
            Some(sightings) => ListSights::new(sightings),
            None => ListSights::empty(self.alloc),
        }
    }

    fn file(&mut self, path: &Text) -> Result<ListFile, StationRefused>
        ensures file { IfOk result (λ file. MakesFile path.now (Some (station_told self.old)) (Some (station_told self.new)) (Some (file_path file)) (Some (file_held file))) }
        ensures unwritten { IfOk result (λ file. file_held file ≡ []) }
        ensures count { IfOk result (λ file. (file_calls file).faults ≡ 0) }
        ensures planned { IfOk result (λ file. MakesPlanned (planned_files self.old) (planned_files self.new) file) }
        ensures planned_kept { OnErr result (planned_files self.new ≡ planned_files self.old) }
        ensures err { OnErr result (Some (station_told self.new) ≡ Some (station_told self.old)) }
        ensures cause { StationCause (station_faults self.old) (station_faults self.new) result }
        ensures listed { station_failed result ≡ (fails_next (calls_of_file self.old) || nat_eq (length (planned_files self.old)) 0) }
        ensures counted { calls_of_file self.new ≡ one_call (calls_of_file self.old) (station_failed result) }
        ensures doors { calls_of_door self.new ≡ calls_of_door self.old }
        ensures dials { calls_of_dial self.new ≡ calls_of_dial self.old }
        ensures accepts { failing_accepts self.new ≡ failing_accepts self.old }
    {
        if self.file_calls.is_failing() || self.files.is_empty() {
            self.file_calls.fail();
            self.count_fault();
            return Err(StationRefused::Failed);
        }
        self.file_calls.pass();
        let Ok((path, note, seat)) = room_for_file(self.alloc, path) else {
            return Err(StationRefused::NoMemory);
        };
        let Some(plan) = self.files.pop_front() else {
            unreachable!()
        };
        self.made.keep(seat, note);
        Ok(plan.at(path))
    }

    fn shut(&mut self, door: ListDoor, clock: ListClock, salt: ListSalt)
        ensures shut { Shuts (Some (station_told self.old)) (Some (station_told self.new)) (Some (door_told door)) (Some (clock_gave clock)) (Some (salt_gave salt)) }
        ensures count { RoseWhere (nat_lt 0 (door_calls door).faults) (station_faults self.old) (station_faults self.new) }
        ensures doors { calls_of_door self.new ≡ calls_of_door self.old }
        ensures dials { calls_of_dial self.new ≡ calls_of_dial self.old }
        ensures files { calls_of_file self.new ≡ calls_of_file self.old }
        ensures planned { planned_files self.new ≡ planned_files self.old }
        ensures accepts { failing_accepts self.new ≡ failing_accepts self.old }
    {
        let failed = door.faults() > 0;
        let (door, seat) = door.come_back(clock, salt);
        self.shut.keep(seat, door);
        self.count_fault_where(failed);
    }

    fn hang(&mut self, ends: Ends<ByteLink>)
        ensures hung { Hangs (Some (station_told self.old)) (Some (station_told self.new)) (EndsTell (source_origin ends.input)
            (Some (source_left ends.input)) (Some (sink_held ends.output)) (source_calls ends.input).faults (sink_calls ends.output).faults) }
        ensures count { RoseWhere (has_fault (source_calls ends.input).faults (sink_calls ends.output).faults) (station_faults self.old) (station_faults self.new) }
        ensures doors { calls_of_door self.new ≡ calls_of_door self.old }
        ensures dials { calls_of_dial self.new ≡ calls_of_dial self.old }
        ensures files { calls_of_file self.new ≡ calls_of_file self.old }
        ensures planned { planned_files self.new ≡ planned_files self.old }
        ensures accepts { failing_accepts self.new ≡ failing_accepts self.old }
    {
        let failed = has_fault(&ends);
        let (link, seat) = ends.output.come_back(ends.input);
        self.hung.keep(seat, link);
        self.count_fault_where(failed);
    }

    fn filed(&mut self, file: ListFile)
        ensures filed { TakesFile (Some (station_told self.old)) (Some (station_told self.new)) (FileTells (Some (file_path file)) (Some (file_held file)) (file_calls file).faults) }
        ensures count { RoseWhere (nat_lt 0 (file_calls file).faults) (station_faults self.old) (station_faults self.new) }
        ensures doors { calls_of_door self.new ≡ calls_of_door self.old }
        ensures dials { calls_of_dial self.new ≡ calls_of_dial self.old }
        ensures files { calls_of_file self.new ≡ calls_of_file self.old }
        ensures planned { planned_files self.new ≡ planned_files self.old }
        ensures accepts { failing_accepts self.new ≡ failing_accepts self.old }
    {
        let failed = file.faults() > 0;
        let (file, seat) = file.come_back();
        self.filed.keep(seat, file);
        self.count_fault_where(failed);
    }
}

/// Whether one of the two directions counted a fault.
fn has_fault(ends: &Ends<ByteLink>) -> bool
    ensures fault { result ≡ has_fault (source_calls ends.now.input).faults (sink_calls ends.now.output).faults }
{
    ends.input.faults() > 0 || ends.output.faults() > 0
}

/// A copy of the path of a door, and the seat that the door will be kept in.
fn room_for_door(alloc: Global, path: &Text) -> Result<(Text, Seat<ReturnedDoor>), NoMemory>
    ensures path { IfOk result (λ (copy, _). copy ≡ path.now) }
{
    Ok((path.try_copy()?, Seat::new(alloc)?))
}

/// Two copies of the path of a file, and the seat that one of them will be kept in.
fn room_for_file(alloc: Global, path: &Text) -> Result<(Text, Text, Seat<Text>), NoMemory>
    ensures path { IfOk result (λ (copy, note, _). (copy ≡ path.now) × (note ≡ path.now)) }
{
    Ok((path.try_copy()?, path.try_copy()?, Seat::new(alloc)?))
}
