// The slots beside the loader.
ghost use Rattle.std.specs.Prelude.{◌≡◌, None, All, map};
ghost use mathlib.Core.List.{IsPrefix};
ghost use Rattle.connection_serve.specs.Promises.{MayServe};
ghost use Rattle.authority_model.specs.Peers.{uid_of};
ghost use Rattle.shared_authority.specs.Journals.{past_of};
ghost use Rattle.serve_loader.specs.Loads.{Loads};
ghost use Rattle.service_slots.specs.Doors.{made_of};
ghost use Rattle.service_slots.specs.Ending.{StopsLoader};
ghost use Rattle.service_slots.specs.Served.{SlotOf};
ghost use Rattle.service_slots.specs.Stops.{CountsAs, NoneEnded, IsStopped};

use crate::slot::Slot;
use crate::slots::serve_slots;
use authority_model::Event;
use history_lock::{EndCause, Pass, TableName};
use pk_outside::{Clock, Door, Salt, Sights, Tree};
use pk_types::Text;
use serve_loader::{LoaderEnd, serve_loader};
use shared_authority::{Kept, LimitsName, Shared};
use std::alloc::Global;
use std::sync::Wait;
use std::thread::{Threads, join};

/// What a service serves with.
#[derive(Drop)]
pub struct OpenService<L: LimitsName, T: TableName, D: Door, C: Clock, S: Salt, G: Sights> {
    /// The loader's pass.
    pub zero: Pass<Kept<L>, T>,
    /// The pass that stops the loader.
    pub control: Pass<Kept<L>, T>,
    /// The slots.
    pub slots: Vec<Slot<L, T, D, C, S, G>>,
    /// How many connections each slot serves at most, if that is told.
    pub most: Option<u32>,
}

/// What is left when all slots and the loader have ended.
#[derive(Drop)]
pub struct EndedService<L: LimitsName, T: TableName, D: Door, C: Clock, S: Salt, G: Sights> {
    /// The loader's pass.
    pub zero: Pass<Kept<L>, T>,
    /// How the loader ended.
    pub loader: LoaderEnd,
    /// How often the tree had failed by then.
    pub tree_faults: u64,
    /// The pass that stopped the loader.
    pub control: Pass<Kept<L>, T>,
    /// Why the loader could not be told to stop, if the lock had ended.
    pub stopped: Result<(), EndCause>,
    /// The slots, all of which have stopped.
    pub slots: Vec<Slot<L, T, D, C, S, G>>,
}

/// Submits Stop by the control pass, with the moment 0 and the salt 0. All of these slots have
/// stopped by then. Where Stop is refused the lock is ended, and the kept cause is answered.
fn stop_loader<L: LimitsName, T: TableName, D: Door, C: Clock, S: Salt, G: Sights, R: Wait>(
    rt: &R,
    shared: &Shared<L, T>,
    _most: Option<u32>,
    _slots: &[Slot<L, T, D, C, S, G>],
    control: &mut Pass<Kept<L>, T>,
) -> Result<(), EndCause>
    requires { All (λ s. IsStopped L.limits _most s.pass (D.told s.door) (D.faults s.door) s.lines.items s.stop) _slots.now }
    ensures stops { StopsLoader L.limits control.old control.new result }
    ensures grows { IsPrefix control.old.history control.new.history }
{
    match shared.submit(rt, control, 0, 0, Event::Stop) {
        Ok(_) => Ok(()),
        Err(refused) => {
            let cause = refused.cause();
            Err(shared.end(rt, control, cause))
        }
    }
}

/// Serves the slots until all have stopped, and then stops the loader by the control pass.
fn serve_then_stop<
    'a,
    L: LimitsName + Send + Sync,
    T: TableName + Send + Sync,
    D: Door,
    C: Clock,
    S: Salt,
    G: Sights,
    R: Threads + Wait + Sync,
>(
    rt: &'a R,
    alloc: Global,
    shared: &'a Shared<L, T>,
    most: Option<u32>,
    control: &mut Pass<Kept<L>, T>,
    slots: &mut Vec<Slot<L, T, D, C, S, G>>,
) -> Result<(), EndCause>
    requires none_ended { All (λ s. NoneEnded s.lines.items) slots.old.items }
    requires may { MayServe D.Link.Out.allowed }
    ensures slots { All (λ s. SlotOf s.pass.history (D.owner s.door) (D.told s.door) (C.gave s.clock) (S.gave s.salt) s.lines.items) slots.old.items
        → All (λ s. SlotOf s.pass.history (D.owner s.door) (D.told s.door) (C.gave s.clock) (S.gave s.salt) s.lines.items) slots.new.items }
    ensures doors { map (λ s. made_of (D.told s.door)) slots.new.items ≡ map (λ s. made_of (D.told s.door)) slots.old.items }
    ensures stopped { All (λ s. IsStopped L.limits most s.pass (D.told s.door) (D.faults s.door) s.lines.items s.stop) slots.new.items }
    ensures counts { All (λ s. D.faults s.door ≡ 0) slots.old.items → All (λ s. CountsAs 0 (D.faults s.door) s.stop) slots.new.items }
    ensures stops { StopsLoader L.limits control.old control.new result }
    ensures control { IsPrefix control.old.history control.new.history }
{
    serve_slots(rt, alloc, shared, most, slots.as_mut_slice());
    stop_loader(rt, shared, most, slots.as_slice(), control)
}

/// Serves the slots beside the loader. When all slots have stopped, the control pass stops the
/// loader.
pub fn serve_beside_loader<
    'a,
    L: LimitsName + Send + Sync,
    T: TableName + Send + Sync,
    F: Tree,
    D: Door,
    C: Clock,
    S: Salt,
    G: Sights,
    R: Threads + Wait + Sync,
>(
    rt: &'a R,
    alloc: Global,
    shared: &'a Shared<L, T>,
    root: &'a Text,
    tree: &mut F,
    service: OpenService<L, T, D, C, S, G>,
) -> EndedService<L, T, D, C, S, G>
    requires zero { service.zero.number ≡ 0 }
    requires fresh { uid_of (past_of service.zero.history) 0 ≡ None }
    requires none_ended { All (λ s. NoneEnded s.lines.items) service.slots.items }
    requires may { MayServe D.Link.Out.allowed }
    ensures slots { All (λ s. SlotOf s.pass.history (D.owner s.door) (D.told s.door) (C.gave s.clock) (S.gave s.salt) s.lines.items) service.slots.items
        → All (λ s. SlotOf s.pass.history (D.owner s.door) (D.told s.door) (C.gave s.clock) (S.gave s.salt) s.lines.items) result.slots.items }
    ensures doors { map (λ s. made_of (D.told s.door)) result.slots.items ≡ map (λ s. made_of (D.told s.door)) service.slots.items }
    ensures stopped { All (λ s. IsStopped L.limits service.most s.pass (D.told s.door) (D.faults s.door) s.lines.items s.stop) result.slots.items }
    ensures counts { All (λ s. D.faults s.door ≡ 0) service.slots.items → All (λ s. CountsAs 0 (D.faults s.door) s.stop) result.slots.items }
    ensures stops { StopsLoader L.limits service.control result.control result.stopped }
    ensures control { IsPrefix service.control.history result.control.history }
    ensures loader { Loads L.limits (F.told tree.old) root.now (F.faults tree.old) result.tree_faults service.zero result.zero result.loader }
    ensures zero { (result.zero.number ≡ 0) × IsPrefix service.zero.history result.zero.history }
{
    let OpenService {
        mut zero,
        mut control,
        mut slots,
        most,
    } = service;
    let for_loader = alloc;
    let for_slots = alloc;
    let ((zero, loader, tree_faults), (control, stopped, slots)) = join(
        rt,
        move || -> (Pass<Kept<L>, T>, LoaderEnd, u64)
            requires { (zero.number ≡ 0) × (uid_of (past_of zero.history) 0 ≡ None) }
            ensures loads { let (pass, end, faults) = result in Loads L.limits (F.told tree.entry.now) root.entry.now (F.faults tree.entry.now) faults zero pass end }
            ensures zero { let (pass, end, faults) = result in (pass.number ≡ 0) × IsPrefix zero.history pass.history }
        {
            let end = serve_loader(rt, for_loader, shared, &mut zero, root, tree);
            (zero, end, tree.faults())
        },
        move || -> (
            Pass<Kept<L>, T>,
            Result<(), EndCause>,
            Vec<Slot<L, T, D, C, S, G>>,
        )
            requires none_ended { All (λ s. NoneEnded s.lines.items) slots.items }
            requires may { MayServe D.Link.Out.allowed }
            ensures slots { All (λ s. SlotOf s.pass.history (D.owner s.door) (D.told s.door) (C.gave s.clock) (S.gave s.salt) s.lines.items) slots.items
                → let (pass, stopped, served) = result in All (λ s. SlotOf s.pass.history (D.owner s.door) (D.told s.door) (C.gave s.clock) (S.gave s.salt) s.lines.items) served.items }
            ensures doors { let (pass, stopped, served) = result in map (λ s. made_of (D.told s.door)) served.items ≡ map (λ s. made_of (D.told s.door)) slots.items }
            ensures stopped { let (pass, stopped, served) = result in All (λ s. IsStopped L.limits most s.pass (D.told s.door) (D.faults s.door) s.lines.items s.stop) served.items }
            ensures counts { All (λ s. D.faults s.door ≡ 0) slots.items → let (pass, stopped, served) = result in All (λ s. CountsAs 0 (D.faults s.door) s.stop) served.items }
            ensures stops { let (pass, stopped, served) = result in StopsLoader L.limits control pass stopped }
            ensures control { let (pass, stopped, served) = result in IsPrefix control.history pass.history }
        {
            let stopped = serve_then_stop(rt, for_slots, shared, most, &mut control, &mut slots);
            (control, stopped, slots)
        },
    );
    EndedService {
        zero,
        loader,
        tree_faults,
        control,
        stopped,
        slots,
    }
}
