// One load that is asked for: the tree is loaded, and what that gave is handed in.
ghost use Rattle.std.specs.Prelude.{◌≡◌, ◌≤◌, ℕ, ◌+◌, Bool, OnOk, IfErr};
ghost use Rattle.history_lock.specs.Known.{Known};
ghost use Rattle.authority_model.specs.declared.journal.Item.{Item};
ghost use Rattle.authority_model.specs.declared.event.Event.TheVariants.{LoadFailed};
ghost use Rattle.authority_model.specs.Given.{event_given, load_given};
ghost use Rattle.shared_authority.specs.Passes.{Entered};
ghost use Rattle.serve_loader.specs.Loads.{GoesOn, HasEnded, IsLoad, LoadsTo};
ghost use Rattle.serve_loader.specs.Turns.{loading_given};

use authority_model::{Event, Loaded};
use history_lock::{EndCause, Pass, TableName};
use pk_outside::Tree;
use pk_types::{ByteList, List, NoMemory, Text};
use policy_load::{LoadRefused, load_beside};
use scenario_text::skipped_text;
use shared_authority::{Kept, LimitsName, Shared};
use std::alloc::Global;
use std::sync::Wait;
use std::thread::Threads;

/// Hands in a load. Where that is refused, the lock is ended.
fn submit_loaded<L: LimitsName, T: TableName, R: Wait>(
    rt: &R,
    shared: &Shared<L, T>,
    pass: &mut Pass<Kept<L>, T>,
    loaded: Loaded,
) -> Result<(), EndCause>
    requires zero { pass.old.number ≡ 0 }
    ensures ok { OnOk result (Entered pass.old (load_given 0 0 loaded) pass.new) }
    ensures err { IfErr result (λ cause. HasEnded L.limits pass.old cause pass.new) }
    ensures number { pass.new.number ≡ pass.old.number }
{
    match shared.submit_load(rt, pass, 0, loaded) {
        Ok(_) => Ok(()),
        Err(refused) => {
            let cause = refused.cause();
            Err(shared.end(rt, pass, cause))
        }
    }
}

/// Hands in the code of a load's refusal. Where that is refused, the lock is ended.
fn submit_code<L: LimitsName, T: TableName, R: Wait>(
    rt: &R,
    shared: &Shared<L, T>,
    pass: &mut Pass<Kept<L>, T>,
    code: u32,
) -> Result<(), EndCause>
    requires zero { pass.old.number ≡ 0 }
    ensures ok { OnOk result (Entered pass.old (event_given 0 0 0 (LoadFailed code)) pass.new) }
    ensures err { IfErr result (λ cause. HasEnded L.limits pass.old cause pass.new) }
    ensures number { pass.new.number ≡ pass.old.number }
{
    match shared.submit(rt, pass, 0, 0, Event::LoadFailed { code }) {
        Ok(_) => Ok(()),
        Err(refused) => {
            let cause = refused.cause();
            Err(shared.end(rt, pass, cause))
        }
    }
}

/// Hands in what a load gave: the load, or the code of its refusal. Where that is refused, the lock
/// is ended.
fn submit_loading<L: LimitsName, T: TableName, R: Wait>(
    rt: &R,
    shared: &Shared<L, T>,
    pass: &mut Pass<Kept<L>, T>,
    gave: Result<Loaded, LoadRefused>,
) -> Result<(), EndCause>
    requires zero { pass.old.number ≡ 0 }
    ensures ok { OnOk result (Entered pass.old (loading_given gave) pass.new) }
    ensures err { IfErr result (λ cause. HasEnded L.limits pass.old cause pass.new) }
    ensures number { pass.new.number ≡ pass.old.number }
{
    match gave {
        Ok(loaded) => submit_loaded(rt, shared, pass, loaded),
        Err(refused) => submit_code(rt, shared, pass, refused.code()),
    }
}

/// The lines that tell what a load skipped, or why it was refused.
fn told_of(alloc: Global, gave: &Result<Loaded, LoadRefused>) -> Result<ByteList, NoMemory> {
    match gave {
        Ok(loaded) => skipped_text(alloc, loaded.faults.as_slice()),
        Err(refused) => {
            let mut line = String::new(alloc);
            write!(&mut line, "load refused: {refused}\n")?;
            Ok(List::from_vec(line.into_bytes()))
        }
    }
}

/// Tells whoever keeps the tree what a load skipped, or why it was refused. Where memory for that is
/// refused nothing is told.
fn tell_tree<F: Tree>(alloc: Global, tree: &mut F, gave: &Result<Loaded, LoadRefused>)
    ensures same { F.told tree.new ≡ F.told tree.old }
    ensures count { F.faults tree.new ≡ F.faults tree.old }
{
    if let Ok(lines) = told_of(alloc, gave) {
        tree.tell(lines.as_slice());
    }
}

/// What the loader loads with.
#[derive(Drop)]
pub struct Loader<'a, L: LimitsName, T: TableName, R> {
    /// The threads that load.
    pub rt: &'a R,
    /// Where memory is taken from.
    pub alloc: Global,
    /// The authority, which all connections share.
    pub shared: &'a Shared<L, T>,
    /// Below this directory the tree is loaded.
    pub root: &'a Text,
}

impl<L: LimitsName, T: TableName, R: Threads + Wait + Sync> Loader<'_, L, T, R> {
    /// Loads the tree once, tells of it, and hands in what it gave.
    fn load_again<F: Tree>(&self, pass: &mut Pass<Kept<L>, T>, tree: &mut F) -> Result<(), EndCause>
        requires zero { pass.old.number ≡ 0 }
        ensures loads { (v : Known Item) (from count : ℕ) (stop : Bool) → from ≤ F.faults tree.old
            → LoadsTo (IsLoad (F.told tree.old) self.now.root.now from (F.faults tree.old)) v pass.old (record { owed = count + 1; stop = stop })
            → GoesOn L.limits (IsLoad (F.told tree.old) self.now.root.now from (F.faults tree.new)) v (record { owed = count; stop = stop }) pass.new result }
        ensures same { F.told tree.new ≡ F.told tree.old }
        ensures later { F.faults tree.old ≤ F.faults tree.new }
        ensures number { pass.new.number ≡ pass.old.number }
    {
        let gave = load_beside(self.rt, self.alloc, tree, self.root);
        tell_tree(self.alloc, tree, &gave);
        submit_loading(self.rt, self.shared, pass, gave)
    }

    /// Loads the tree so many times, and hands in what each load gave.
    pub(crate) fn load_times<F: Tree>(
        &self,
        pass: &mut Pass<Kept<L>, T>,
        tree: &mut F,
        count: usize,
    ) -> Result<(), EndCause>
        requires zero { pass.old.number ≡ 0 }
        ensures loads { (v : Known Item) (from : ℕ) (stop : Bool) → from ≤ F.faults tree.old
            → LoadsTo (IsLoad (F.told tree.old) self.now.root.now from (F.faults tree.old)) v pass.old (record { owed = count; stop = stop })
            → GoesOn L.limits (IsLoad (F.told tree.old) self.now.root.now from (F.faults tree.new)) v (record { owed = 0; stop = stop }) pass.new result }
        ensures same { F.told tree.new ≡ F.told tree.old }
        ensures later { F.faults tree.old ≤ F.faults tree.new }
        ensures number { pass.new.number ≡ pass.old.number }
    {
        let mut left = count;
        while left > 0 {
            match self.load_again(pass, tree) {
                Ok(()) => left -= 1,
                Err(cause) => return Err(cause),
            }
        }
        Ok(())
    }
}
