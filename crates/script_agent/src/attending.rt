// An agent with its task: it dials, serves, and hangs up.
ghost use Rattle.std.specs.Prelude.{◌≡◌, ◌≤◌};
ghost use Rattle.pk_outside.specs.Allowing.{IsFree};
ghost use Rattle.script_agent.specs.Runs.{Attends};
ghost use Rattle.script_agent.specs.Stations.{AreUsedUp, CountsLinks, HangsUp};
ghost use Rattle.script_agent.specs.Steps.{outside};

use crate::asking::dial;
use crate::line::Line;
use crate::meeting::serve;
use crate::status::AgentStatus;
use crate::task::{MAX_COUNT, Task};
use pk_outside::{Sink, Station};
use std::alloc::Global;

/// Hangs up the link to the authority, and then that to the helper, if it was dialled.
#[tactic(none)]
fn hang_up<N: Station>(desk: Line<N::Link>, helper: Option<Line<N::Link>>, station: &mut N)
    ensures hangs { HangsUp (N.told station.old) (N.told station.new) desk helper }
    ensures count { CountsLinks (N.faults station.old) (N.faults station.new) desk helper }
    ensures used_up { AreUsedUp desk helper }
{
    station.hang(desk.into_ends());
    if let Some(line) = helper {
        station.hang(line.into_ends());
    }
}

/// Does a task: dials the authority, registers, meets the challenges, and hangs up.
#[tactic(none)]
pub fn attend<N: Station, O: Sink>(
    alloc: Global,
    task: &Task,
    station: &mut N,
    output: &mut O,
) -> AgentStatus
    requires count { task.now.count ≤ MAX_COUNT }
    requires free { IsFree O.allowed }
    requires free_link { IsFree N.Link.Out.allowed }
    ensures attends { Attends task.now (outside (N.told station.old) (N.faults station.old) (O.held output.old) (O.faults output.old)) (outside (N.told station.new) (N.faults station.new) (O.held output.new) (O.faults output.new)) result }
{
    let mut desk = match dial(alloc, &task.path, station) {
        Ok(desk) => desk,
        Err(status) => return status,
    };
    let mut helper = None;
    let end = serve(alloc, task, &mut desk, &mut helper, station, output);
    hang_up(desk, helper, station);
    match end {
        Ok(()) => AgentStatus::Done,
        Err(status) => status,
    }
}
