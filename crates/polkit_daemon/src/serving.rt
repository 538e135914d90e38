// The command that serves the connections that come in at doors.
ghost use Rattle.std.specs.Prelude.{◌≡◌, is_some, true};
ghost use Rattle.connection_serve.specs.Promises.{MayServe};
ghost use Rattle.serve_words.specs.declared.plan.ServePlan.{ServePlan};
ghost use Rattle.serve_words.specs.Plans.{IsAllowed, plan_in};
ghost use Rattle.authority_service.specs.Promises.{MayPrint};
ghost use Rattle.authority_service.specs.Service.{outside};
ghost use Rattle.polkit_daemon.specs.Promises.{MayPrintNamed};
ghost use Rattle.polkit_daemon.specs.Served.{IsServed, IsServedOrUntouched, IsServiceStatus};

use crate::status::Status;
use pk_outside::{Sink, Station, Tree};
use pk_types::{NoMemory, Text};
use serve_words::{ServePlan, read_plan};
use std::alloc::Global;
use std::sync::Wait;
use std::thread::Threads;

/// Serves the connections that come in at the doors of the plan, many at once, and answers all of
/// them from one journal.
///
/// The first load is what the tree gives below the root, and what it skipped is written at once. Then
/// the station makes a door, a clock and a salt for each slot, the slots serve beside each other until
/// all have ended, and the station takes them back. At last a line for each connection and one for the
/// journal are written. It may wait for connections for ever.
///
/// On `Done` each door had no link left, or has taken back as many links as each slot was to serve.
///
/// # Errors
/// The first of these that applies: `TreeFault` only where the tree counted a fault in the first load,
/// and `LoadRefused` exactly where this is refused by a limit or a table; `JournalFull` and
/// `Admissions` exactly where the service was ended for that; `NoMemory`, which may come in place of
/// any other answer; `DoorFault` only where the station counted a fault; `WriteFault` only where the
/// output counted one.
pub fn serve<R: Threads + Wait + Sync, T: Tree, N: Station, O: Sink>(
    rt: &R,
    alloc: Global,
    plan: &ServePlan,
    tree: &mut T,
    station: &mut N,
    output: &mut O,
) -> Status
    requires allowed { IsAllowed plan.now }
    // Each prefix may be written of what is printed of the first load and of some legal journal.
    requires may { MayPrint O.allowed (O.held output.old) plan.now (T.told tree.old) }
    // Each prefix of a talk with a connection may be written to its link.
    requires may_serve { MayServe N.Door.Link.Out.allowed }

    // The journal that was closed, the doors that came back, what was written and what was counted,
    // as far as the status says.
    ensures served { IsServed plan.now (outside (T.told tree.old) (T.faults tree.old) (T.faults tree.new) (N.told station.old) (N.told station.new)
        (N.faults station.old) (N.faults station.new) (O.held output.old) (O.held output.new) (O.faults output.old) (O.faults output.new)) result }
{
    Status::of_service(authority_service::serve(rt, alloc, plan, tree, station, output))
}

/// Serves the plan that the words behind `serve` name.
pub fn serve_named<R: Threads + Wait + Sync, T: Tree, N: Station, O: Sink>(
    rt: &R,
    alloc: Global,
    words: &[Text],
    tree: &mut T,
    station: &mut N,
    output: &mut O,
) -> Status
    requires plan { is_some (plan_in words.now) ≡ true }
    requires may { MayPrintNamed O.allowed (O.held output.old) (T.told tree.old) words.now }
    requires may_serve { MayServe N.Door.Link.Out.allowed }
    ensures run { (plan : ServePlan) → plan_in words.now ≡ Some plan →
        IsServedOrUntouched plan (outside (T.told tree.old) (T.faults tree.old) (T.faults tree.new) (N.told station.old) (N.told station.new)
        (N.faults station.old) (N.faults station.new) (O.held output.old) (O.held output.new) (O.faults output.old) (O.faults output.new)) result }
    ensures status { IsServiceStatus result }
{
    match read_plan(alloc, words) {
        Ok(Some(plan)) => serve(rt, alloc, &plan, tree, station, output),
        Ok(None) => unreachable!(),
        Err(NoMemory) => Status::NoMemory,
    }
}
