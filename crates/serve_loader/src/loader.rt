// The loader: a turn, and the loop.
ghost use Rattle.std.specs.Prelude.{◌≡◌, ◌≤◌, ℕ, None, IfErr, IfNone, IfOk, IfSome};
ghost use mathlib.Core.List.{IsPrefix};
ghost use Rattle.history_lock.specs.Known.{Known};
ghost use Rattle.authority_model.specs.declared.journal.Item.{Item};
ghost use Rattle.authority_model.specs.Peers.{uid_of};
ghost use Rattle.shared_authority.specs.Journals.{past_of};
ghost use Rattle.serve_loader.specs.Loads.{HasEnded, IsLoad, Loads, LoadsEnd, LoadsTo, Takes};
ghost use Rattle.serve_loader.specs.Turns.{idle, told_by};

use crate::ends::LoaderEnd;
use crate::loading::Loader;
use crate::wanted::{wanted_in, wants_stop};
use authority_model::{Output, OutputList};
use history_lock::{EndCause, Pass, TableName};
use pk_outside::Tree;
use pk_types::Text;
use shared_authority::{Collected, Kept, LimitsName, Shared};
use std::alloc::Global;
use std::sync::Wait;
use std::thread::Threads;

/// Collects the next outputs to connection 0. Where that is refused, the lock is ended.
fn collect_next<L: LimitsName, T: TableName, R: Wait>(
    rt: &R,
    shared: &Shared<L, T>,
    pass: &mut Pass<Kept<L>, T>,
) -> Result<OutputList, EndCause>
    requires zero { pass.old.number ≡ 0 }
    requires fresh { uid_of (past_of pass.old.history) 0 ≡ None }
    ensures ok { IfOk result (λ outputs. Takes pass.old outputs pass.new) }
    ensures err { IfErr result (λ cause. HasEnded L.limits pass.old cause pass.new) }
    ensures number { pass.new.number ≡ pass.old.number }
{
    match shared.collect(rt, pass, 0) {
        Ok(Collected::Batch(batch)) => Ok(batch.outputs),
        Ok(Collected::Gone) => unreachable!(),
        Err(refused) => {
            let cause = refused.cause();
            Err(shared.end(rt, pass, cause))
        }
    }
}

impl<L: LimitsName, T: TableName, R: Threads + Wait + Sync> Loader<'_, L, T, R> {
    /// Loads for each LoadWanted before the first StopWanted among some outputs. Says how the loader
    /// ends, if it does.
    fn load_for<F: Tree>(
        &self,
        pass: &mut Pass<Kept<L>, T>,
        tree: &mut F,
        outputs: &[Output],
    ) -> Option<LoaderEnd>
        requires zero { pass.old.number ≡ 0 }
        ensures goes_on { IfNone result ((v : Known Item) (from : ℕ) → from ≤ F.faults tree.old
            → LoadsTo (IsLoad (F.told tree.old) self.now.root.now from (F.faults tree.old)) v pass.old (told_by outputs.now)
            → LoadsTo (IsLoad (F.told tree.old) self.now.root.now from (F.faults tree.new)) v pass.new idle) }
        ensures ends { IfSome result (λ end. (v : Known Item) (from : ℕ) → from ≤ F.faults tree.old
            → LoadsTo (IsLoad (F.told tree.old) self.now.root.now from (F.faults tree.old)) v pass.old (told_by outputs.now)
            → LoadsEnd L.limits (IsLoad (F.told tree.old) self.now.root.now from (F.faults tree.new)) v pass.new end) }
        ensures same { F.told tree.new ≡ F.told tree.old }
        ensures later { F.faults tree.old ≤ F.faults tree.new }
    {
        let count = wanted_in(outputs);
        let stop = wants_stop(outputs);
        match self.load_times(pass, tree, count) {
            Ok(()) => { if stop { Some(LoaderEnd::Stopped) } else { None } }
            Err(cause) => Some(LoaderEnd::Ended { cause }),
        }
    }

    /// Collects, and loads for each LoadWanted before the first StopWanted. Says how the loader ends, if
    /// it does.
    fn load_next<F: Tree>(&self, pass: &mut Pass<Kept<L>, T>, tree: &mut F) -> Option<LoaderEnd>
        requires zero { pass.old.number ≡ 0 }
        requires fresh { uid_of (past_of pass.old.history) 0 ≡ None }
        ensures goes_on { IfNone result ((v : Known Item) (from : ℕ) → from ≤ F.faults tree.old
            → LoadsTo (IsLoad (F.told tree.old) self.now.root.now from (F.faults tree.old)) v pass.old idle
            → LoadsTo (IsLoad (F.told tree.old) self.now.root.now from (F.faults tree.new)) v pass.new idle) }
        ensures ends { IfSome result (λ end. (v : Known Item) (from : ℕ) → from ≤ F.faults tree.old
            → LoadsTo (IsLoad (F.told tree.old) self.now.root.now from (F.faults tree.old)) v pass.old idle
            → LoadsEnd L.limits (IsLoad (F.told tree.old) self.now.root.now from (F.faults tree.new)) v pass.new end) }
        ensures same { F.told tree.new ≡ F.told tree.old }
        ensures later { F.faults tree.old ≤ F.faults tree.new }
    {
        match collect_next(self.rt, self.shared, pass) {
            Ok(outputs) => self.load_for(pass, tree, outputs.as_slice()),
            Err(cause) => Some(LoaderEnd::Ended { cause }),
        }
    }
}

/// Serves the loads that are asked for: collects the outputs to connection 0, and for each LoadWanted
/// before the first StopWanted loads the tree by several threads and hands in the load, or LoadFailed
/// with the code of its refusal, at the moment of the entry before it. Where a call of the authority
/// is refused, the lock is ended by that cause.
///
/// It waits for what is sent to connection 0, and returns once it has collected StopWanted or the
/// lock has ended.
pub fn serve_loader<
    'a,
    L: LimitsName + Send + Sync,
    T: TableName + Send + Sync,
    F: Tree,
    R: Threads + Wait + Sync,
>(
    rt: &'a R,
    alloc: Global,
    shared: &'a Shared<L, T>,
    pass: &mut Pass<Kept<L>, T>,
    root: &'a Text,
    tree: &mut F,
) -> LoaderEnd
    requires zero { pass.old.number ≡ 0 }
    requires fresh { uid_of (past_of pass.old.history) 0 ≡ None }
    ensures loads { Loads L.limits (F.told tree.old) root.now (F.faults tree.old) (F.faults tree.new) pass.old pass.new result }
    ensures number { pass.new.number ≡ pass.old.number }
    ensures grows { IsPrefix pass.old.history pass.new.history }
    ensures later { F.faults tree.old ≤ F.faults tree.new }
{
    let loader = Loader {
        rt,
        alloc,
        shared,
        root,
    };
    for _turn in rt.forever() {
        match loader.load_next(pass, tree) {
            Some(end) => return end,
            None => {}
        }
    }
    unreachable!()
}
