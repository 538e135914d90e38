// The service, from its first load to its end.
ghost use Rattle.std.specs.Prelude.{◌≡◌};
ghost use Rattle.authority_service.specs.Ends.{end_of_refused};
ghost use Rattle.authority_service.specs.Promises.{MayPrint};
ghost use Rattle.authority_service.specs.Service.{Serves, outside};
ghost use Rattle.connection_serve.specs.Promises.{MayServe};
ghost use Rattle.serve_words.specs.Plans.{IsAllowed};

use crate::ends::ServiceEnd;
use crate::lines::opening_text;
use crate::opening::Unbegun;
use crate::service::Service;
use pk_outside::{Failed, Sink, Station, Tree, write_all};
use policy_load::{LoadRefused, load_beside};
use serve_words::ServePlan;
use std::alloc::Global;
use std::marker::Brand;
use std::sync::Wait;
use std::thread::Threads;

/// How a first load that is refused ends the service.
fn end_of_refused(refused: LoadRefused) -> ServiceEnd
    ensures { result ≡ end_of_refused refused }
{
    match refused {
        LoadRefused::TreeFault { count } => ServiceEnd::TreeFault { count },
        LoadRefused::NoMemory => ServiceEnd::NoMemory,
        refused => ServiceEnd::LoadRefused { refused },
    }
}

/// Serves the connections of the doors of a plan, from the first load of the tree to the lines that
/// are printed at the end. Where the plan asks for the audit text of the closed journal, this is written in
/// place of all lines.
///
/// On `Done` each door had no link left, or has taken back as many links as each slot was to serve. On `Done`
/// and `WriteFault` the station counted no fault, so nothing was tried again that had failed.
///
/// # Errors
/// Each end other than `Done` has its cause in `served`; `NoMemory` is free.
pub fn serve<F, N, O, R>(
    rt: &R,
    alloc: Global,
    plan: &ServePlan,
    tree: &mut F,
    station: &mut N,
    output: &mut O,
) -> ServiceEnd
where
    F: Tree,
    N: Station,
    O: Sink,
    R: Threads + Wait + Sync,
    requires allowed { IsAllowed plan.now }
    // Each prefix may be written of what is printed of the first load and of some legal journal.
    requires may { MayPrint O.allowed (O.held output.old) plan.now (F.told tree.old) }
    // Each prefix of a talk with a connection may be written to its link.
    requires may_serve { MayServe N.Door.Link.Out.allowed }
    ensures served { Serves plan.now (outside (F.told tree.old) (F.faults tree.old) (F.faults tree.new) (N.told station.old) (N.told station.new)
        (N.faults station.old) (N.faults station.new) (O.held output.old) (O.held output.new) (O.faults output.old) (O.faults output.new)) result }
{
    let first = match load_beside(rt, alloc, tree, &plan.root) {
        Ok(first) => first,
        Err(refused) => return end_of_refused(refused),
    };
    let Ok(lines) = opening_text(alloc, plan.audit, &first) else {
        return ServiceEnd::NoMemory;
    };
    match write_all(output, lines.as_slice()) {
        Ok(()) => {}
        Err(Failed) => return ServiceEnd::WriteFault,
    }
    let service = Service { rt, alloc, plan };
    match service.run::<Brand, F, N>(first, tree, station) {
        Ok(ran) => ran.tell(alloc, plan, output),
        Err(Unbegun::DoorFault) => ServiceEnd::DoorFault,
        Err(Unbegun::NoMemory) => ServiceEnd::NoMemory,
    }
}
