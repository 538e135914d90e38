// A service over objects in memory.
ghost use Rattle.pk_outside.specs.Allowing.{IsFree};
ghost use Rattle.connection_serve.specs.Promises.{MayServe};

use crate::written::joined;
use authority_service::{ServiceEnd, serve};
use memory_outside::{
    ByteLink, ByteSink, ByteSource, DoorPlan, ListStation, Readings, StationPlan,
};
use pk_outside::{Sighted, Sink, Station};
use pk_types::{List, NoMemory, Text};
use serve_words::read_plan;
use std::alloc::Global;
use std::sync::Wait;
use std::thread::Threads;
use test_parts::{texts, tree};

/// The most bytes of a link or of an output.
pub const ROOM: usize = 4096;

/// A link: what it gives, and the room for what it is sent.
#[derive(Clone, Copy)]
pub struct LinkRow {
    pub gives: &'static [&'static [u8]],
    pub room: usize,
}

/// The call that fails, by its number.
#[derive(Clone, Copy)]
pub enum Fault {
    /// None does.
    None,
    /// An accept of the first door.
    Accept(u64),
    /// A read of each of its links.
    Read(u64),
    /// A write of each of its links.
    Write(u64),
    /// A call of the tree.
    Tree(u64),
    /// A write of the output.
    Output(u64),
    /// The making of a door.
    Door(u64),
    /// A look of each slot.
    Sight(u64),
    /// Each of these calls.
    Each(Calls),
}

/// The numbers of the calls that fail. None has the number 0.
#[derive(Clone, Copy)]
pub struct Calls {
    accept: u64,
    read: u64,
    write: u64,
    tree: u64,
    output: u64,
    door: u64,
    sight: u64,
}

/// No call fails.
const NONE: Calls = Calls {
    accept: 0,
    read: 0,
    write: 0,
    tree: 0,
    output: 0,
    door: 0,
    sight: 0,
};

impl Fault {
    fn calls(self) -> Calls {
        match self {
            Fault::None => NONE,
            Fault::Accept(accept) => Calls { accept, ..NONE },
            Fault::Read(read) => Calls { read, ..NONE },
            Fault::Write(write) => Calls { write, ..NONE },
            Fault::Tree(tree) => Calls { tree, ..NONE },
            Fault::Output(output) => Calls { output, ..NONE },
            Fault::Door(door) => Calls { door, ..NONE },
            Fault::Sight(sight) => Calls { sight, ..NONE },
            Fault::Each(calls) => calls,
        }
    }

    /// This call and one of another object.
    pub fn beside(self, other: Fault) -> Fault {
        let one = self.calls();
        let other = other.calls();
        Fault::Each(Calls {
            accept: one.accept.max(other.accept),
            read: one.read.max(other.read),
            write: one.write.max(other.write),
            tree: one.tree.max(other.tree),
            output: one.output.max(other.output),
            door: one.door.max(other.door),
            sight: one.sight.max(other.sight),
        })
    }
}

/// What a service is given: its words, the links of its doors, what the looks of its slots see, and the
/// call that fails.
#[derive(Clone, Copy)]
pub struct Scene {
    pub words: &'static [&'static str],
    pub doors: &'static [&'static [LinkRow]],
    pub sights: &'static [&'static [Sighted]],
    pub fault: Fault,
}

/// How a service ended, its output, and what came back to its station.
#[derive(Drop)]
pub struct Served {
    pub end: String,
    pub output: ByteSink,
    pub station: ListStation,
}

/// The link of a row. A read gives at most 40 bytes, and a write takes 50.
fn link(alloc: Global, row: &LinkRow, calls: Calls) -> Result<ByteLink, NoMemory> {
    let reads = vec![in alloc; calls.read]?;
    let writes = vec![in alloc; calls.write]?;
    let mut bytes = joined(alloc, row.gives)?;
    bytes.truncate(ROOM);
    let output = ByteSink::new(alloc, row.room, 50, writes)?;
    Ok(ByteLink::new(ByteSource::new(bytes, 40, reads), output))
}

/// What a door with these links gives.
fn door(alloc: Global, rows: &[LinkRow], calls: Calls) -> Result<DoorPlan, NoMemory> {
    let mut links = List::new(alloc);
    for row in rows {
        links.try_push(link(alloc, row, calls)?)?;
    }
    let failing = vec![in alloc; calls.accept]?;
    let mut plan = DoorPlan::empty(alloc);
    plan.links = links;
    plan.failing = failing;
    Ok(plan)
}

/// What the looks of a slot see, of which this one fails.
fn looks(alloc: Global, row: &[Sighted], failing: u64) -> Result<List<Sighted>, NoMemory> {
    let mut looks = List::new(alloc);
    for (place, sighted) in row.iter().enumerate() {
        let is_failing = (place as u64).saturating_add(1) == failing;
        looks.try_push(if is_failing {
            Sighted::Failed
        } else {
            *sighted
        })?;
    }
    Ok(looks)
}

/// What the looks of each slot see.
fn sights(
    alloc: Global,
    rows: &[&'static [Sighted]],
    failing: u64,
) -> Result<List<List<Sighted>>, NoMemory> {
    let mut lists = List::new(alloc);
    for row in rows {
        lists.try_push(looks(alloc, row, failing)?)?;
    }
    Ok(lists)
}

/// The station of a scene, whose slots have these clocks.
fn station(alloc: Global, scene: &Scene, clocks: List<Readings>) -> Result<ListStation, NoMemory> {
    let mut calls = scene.fault.calls();
    let failing_doors = vec![in alloc; calls.door]?;
    let sights = sights(alloc, scene.sights, calls.sight)?;
    let mut doors = List::new(alloc);
    for rows in scene.doors {
        doors.try_push(door(alloc, rows, calls)?)?;
        calls = NONE;
    }
    let mut plan = StationPlan::empty(alloc);
    plan.doors = doors;
    plan.clocks = clocks;
    plan.sights = sights;
    plan.failing_doors = failing_doors;
    Ok(ListStation::new(alloc, plan))
}

/// The text of how a service ended.
fn end_text(alloc: Global, end: &ServiceEnd) -> Result<String, NoMemory> {
    Ok(format!(in alloc; "{end:?}")?)
}

/// Serves the plan that the words name over a tree of which this call fails, and answers the text of how
/// it ended.
fn serve_named<R: Threads + Wait + Sync, N: Station, O: Sink>(
    rt: &R,
    alloc: Global,
    words: &[Text],
    failing: u64,
    station: &mut N,
    output: &mut O,
) -> Result<String, NoMemory>
    requires free { IsFree O.allowed }
    requires may_serve { MayServe N.Door.Link.Out.allowed }
{
    let failing = vec![in alloc; failing]?;
    let mut tree = tree(alloc, failing)?;
    let Some(plan) = read_plan(alloc, words)? else {
        return Ok(String::from_str(alloc, "no plan")?);
    };
    let end = serve(rt, alloc, &plan, &mut tree, station, output);
    end_text(alloc, &end)
}

/// An output of which this write fails.
fn failing_output(alloc: Global, failing: u64) -> Result<ByteSink, NoMemory> {
    let failing = vec![in alloc; failing]?;
    ByteSink::new(alloc, ROOM, ROOM, failing)
}

/// Plays a scene.
pub fn play<R: Threads + Wait + Sync>(
    rt: &R,
    alloc: Global,
    scene: &Scene,
) -> Result<Served, NoMemory> {
    play_by(rt, alloc, scene, List::new(alloc))
}

/// Plays a scene whose slots have these clocks.
pub fn play_by<R: Threads + Wait + Sync>(
    rt: &R,
    alloc: Global,
    scene: &Scene,
    clocks: List<Readings>,
) -> Result<Served, NoMemory> {
    let calls = scene.fault.calls();
    let words = texts(alloc, scene.words)?;
    let mut output = failing_output(alloc, calls.output)?;
    let mut station = station(alloc, scene, clocks)?;
    let end = serve_named(
        rt,
        alloc,
        words.as_slice(),
        calls.tree,
        &mut station,
        &mut output,
    )?;
    Ok(Served {
        end,
        output,
        station,
    })
}

impl Served {
    /// What it wrote.
    pub fn written(&self) -> &[u8] {
        self.output.bytes()
    }

    /// What the link was sent that this door gave at this place.
    pub fn sent(&self, door: usize, link: usize) -> &[u8] {
        let Some(door) = self.station.shut_doors().get(door) else {
            return &[];
        };
        match door.links.get(link) {
            Some(link) => link.written.as_slice(),
            None => &[],
        }
    }
}
