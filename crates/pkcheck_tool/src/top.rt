// A check from its words to its status.
ghost use Rattle.std.specs.Prelude.{◌≡◌, ◌≤◌};
ghost use Rattle.pk_outside.specs.Allowing.{IsFree};
ghost use Rattle.pkcheck_tool.specs.Checks.{Asks, Checked, Checks, Completes, Tells, outside};

use crate::asking::converse;
use crate::reply::Reply;
use crate::status::{CheckStatus, status_of};
use crate::telling::lines_of;
use client_commands::{CheckPlan, WordsFault, read_check};
use pk_outside::{Failed, Link, Sink, Station, StationRefused, write_all};
use pk_types::{NoMemory, Text};
use std::alloc::Global;

/// Dials the door of the plan, asks the check, and hangs up, after a fault too.
fn ask<N: Station>(alloc: Global, plan: &CheckPlan, station: &mut N) -> Result<Reply, CheckStatus>
    requires free_link { IsFree N.Link.Out.allowed }
    ensures asks { Asks plan.now (N.told station.old) (N.told station.new) (N.faults station.old) (N.faults station.new) result }
    ensures later { N.faults station.old ≤ N.faults station.new }
{
    let link = match station.dial(&plan.path) {
        Ok(link) => link,
        Err(StationRefused::Failed) => return Err(CheckStatus::StationFault),
        Err(StationRefused::NoMemory) => return Err(CheckStatus::NoMemory),
    };
    let mut ends = link.split();
    let reply = converse(alloc, plan, &mut ends.input, &mut ends.output);
    station.hang(ends);
    match reply {
        Ok(reply) => Ok(reply),
        Err(stop) => Err(status_of(stop)),
    }
}

/// Writes what a reply tells, and answers its status.
#[tactic(auto, using(pk_outside::proofs::Going::may_go_free))]
fn tell<O: Sink>(alloc: Global, reply: &Reply, output: &mut O) -> CheckStatus
    requires free { IsFree O.allowed }
    ensures tells { Tells reply.now (O.held output.old) (O.held output.new) (O.faults output.old) (O.faults output.new) result }
{
    let lines = match lines_of(alloc, reply) {
        Ok(lines) => lines,
        Err(NoMemory) => return CheckStatus::NoMemory,
    };
    match write_all(output, lines.as_slice()) {
        Ok(()) => reply.status(),
        Err(Failed) => CheckStatus::WriteFault,
    }
}

/// Checks what the plan says.
fn check<N: Station, O: Sink>(
    alloc: Global,
    plan: &CheckPlan,
    station: &mut N,
    output: &mut O,
) -> CheckStatus
    requires free { IsFree O.allowed }
    requires free_link { IsFree N.Link.Out.allowed }
    ensures checked { Checked plan.now (outside (N.told station.old) (N.told station.new) (N.faults station.old) (N.faults station.new) (O.held output.old) (O.held output.new) (O.faults output.old) (O.faults output.new)) result }
    ensures later { N.faults station.old ≤ N.faults station.new }
{
    match ask(alloc, plan, station) {
        Ok(reply) => tell(alloc, &reply, output),
        Err(status) => status,
    }
}

/// Does what the words of `pkcheck` ask, without the program's name: asks the authority behind the
/// door whether the process may do the action (CheckAuthorization in the reference manual), and writes
/// the details of the reply, each as a line `KEY=VALUE` in their order, or the name of the error.
///
/// It dials the door once, shakes hands as its user, sends the one call, reads messages until the
/// reply, and hangs up, after a fault too. The reply is the first message that tells a verdict or an
/// error of this call.
///
/// # Errors
/// The first fault of the run is the status. `Usage` exactly where the words are not in the grammar,
/// and then nothing is done; `BadShake` and `BadBytes` exactly where what was read has that fault;
/// `Cut` exactly where the link ended before the reply; `StationFault` only where the station counted
/// a fault, at the dialling or at the hanging up of a link that failed; `WriteFault` only where the
/// output counted a fault; `NoMemory`, which may come in place of any other answer.
pub fn pkcheck<N: Station, O: Sink>(
    alloc: Global,
    words: &[Text],
    station: &mut N,
    output: &mut O,
) -> CheckStatus
    requires free { IsFree O.allowed }
    requires free_link { IsFree N.Link.Out.allowed }
    // What was read and written, and what the status says of it.
    ensures checks { Checks words.now (outside (N.told station.old) (N.told station.new) (N.faults station.old) (N.faults station.new) (O.held output.old) (O.held output.new) (O.faults output.old) (O.faults output.new)) result }
    // What has to come where nothing fails.
    ensures complete { Completes words.now (outside (N.told station.old) (N.told station.new) (N.faults station.old) (N.faults station.new) (O.held output.old) (O.held output.new) (O.faults output.old) (O.faults output.new)) result }
    ensures later { N.faults station.old ≤ N.faults station.new }
{
    match read_check(alloc, words) {
        Ok(plan) => check(alloc, &plan, station, output),
        Err(WordsFault::NoMemory) => CheckStatus::NoMemory,
        Err(WordsFault::Command(_)) => CheckStatus::Usage,
        Err(WordsFault::Value { .. }) => CheckStatus::Usage,
    }
}
