// A service, from its first load to the closed journal.
ghost use Rattle.std.specs.Prelude.{◌≡◌, ◌≤◌, [], vec_len};
ghost use Rattle.std.specs.Vec.{vec_capacity};
ghost use Rattle.authority_model.specs.declared.load.Loaded.{Loaded};
ghost use Rattle.authority_service.specs.Beginning.{BeginsWith, HasBegun};
ghost use Rattle.authority_service.specs.Begun.{Runs, objects};
ghost use Rattle.authority_service.specs.Service.{slots_of};
ghost use Rattle.connection_serve.specs.Promises.{MayServe};
ghost use Rattle.serve_words.specs.Plans.{IsAllowed};

use crate::admitting::PrepareRefused;
use crate::beginning::{Parts, prepare};
use crate::causes::{ended_loader, ended_slots};
use crate::opening::{Unbegun, open_slots};
use crate::running::{Ran, close_journal};
use crate::shutting::shut_slots;
use authority_model::Loaded;
use history_lock::{Opened, Pass, TableName, open_table};
use pk_outside::{Station, Tree};
use serve_words::ServePlan;
use service_slots::{EndedService, OpenService, serve_beside_loader};
use shared_authority::{Kept, LimitsName, Shared};
use std::alloc::Global;
use std::marker::Brand;
use std::sync::Wait;
use std::thread::Threads;

/// What a service runs with, and what it is to do.
#[derive(Drop)]
pub struct Service<'a, 'b, R> {
    /// Its threads.
    pub rt: &'a R,
    /// Where memory is taken from.
    pub alloc: Global,
    /// What it is to do.
    pub plan: &'b ServePlan,
}

impl<R: Threads + Wait + Sync> Service<'_, '_, R> {
    /// Opens the slots, serves them beside the loader until all have stopped, shuts them in their order, and
    /// closes the journal by the loader's pass.
    fn run_prepared<L, T, F, N>(
        &self,
        shared: Shared<L, T>,
        zero: Pass<Kept<L>, T>,
        mut parts: Parts<L, T>,
        tree: &mut F,
        station: &mut N,
    ) -> Result<Ran, Unbegun>
    where
        L: LimitsName + Send + Sync,
        T: TableName + Send + Sync,
        F: Tree,
        N: Station,
        requires allowed { IsAllowed self.now.plan.now }
        requires limits { self.now.plan.now.limits ≡ L.limits }
        requires begun { HasBegun zero }
        requires passes { vec_len parts.passes ≡ slots_of self.now.plan.now }
        requires room { (parts.shut.items ≡ []) × (slots_of self.now.plan.now ≤ vec_capacity parts.shut) }
        requires may_serve { MayServe N.Door.Link.Out.allowed }
        ensures runs { (first : Loaded) → BeginsWith first zero.history → Runs self.now.plan.now first (objects (F.told tree.old) (N.told station.old) (N.told station.new) (N.faults station.old) (N.faults station.new)) result }
    {
        let slots = open_slots(self.alloc, station, self.plan, &shared, &mut parts)?;
        let Parts {
            control,
            passes: _passes,
            mut shut,
        } = parts;
        let service = OpenService {
            zero,
            control,
            slots,
            most: self.plan.stop_after,
        };
        let EndedService {
            zero,
            loader,
            mut control,
            stopped,
            slots,
            tree_faults: _,
        } = serve_beside_loader(self.rt, self.alloc, &shared, &self.plan.root, tree, service);
        shut_slots(&shared, &mut control, station, slots, &mut shut);
        let authority = close_journal(self.rt, shared, control, zero);
        let cause = ended_slots(shut.as_slice())
            .or(stopped.err())
            .or(ended_loader(loader));
        Ok(Ran {
            authority,
            slots: shut,
            cause,
        })
    }

    /// Starts the authority in this table, begins with the first load, and serves the slots.
    fn run_tabled<L, T, F, N>(
        &self,
        first: Loaded,
        opened: Opened<Kept<L>>,
        tree: &mut F,
        station: &mut N,
    ) -> Result<Ran, Unbegun>
    where
        L: LimitsName + Send + Sync,
        T: TableName + Send + Sync,
        F: Tree,
        N: Station,
        requires allowed { IsAllowed self.now.plan.now }
        requires limits { self.now.plan.now.limits ≡ L.limits }
        requires table { opened ≡ T.table }
        requires may_serve { MayServe N.Door.Link.Out.allowed }
        ensures runs { Runs self.now.plan.now first (objects (F.told tree.old) (N.told station.old) (N.told station.new) (N.faults station.old) (N.faults station.new)) result }
    {
        let Ok((shared, mut zero)) = Shared::<L, T>::start(self.alloc, self.plan.limits, opened)
        else {
            return Err(Unbegun::NoMemory);
        };
        match prepare(self.rt, self.alloc, &shared, &mut zero, self.plan, first) {
            Ok(parts) => self.run_prepared(shared, zero, parts, tree, station),
            Err(PrepareRefused::NoMemory) => Err(Unbegun::NoMemory),
            Err(PrepareRefused::Ended { cause }) => Ok(Ran::closed(
                self.alloc, shared, zero, cause,
            )),
        }
    }

    /// Picks the name of the table, and serves what begins with this first load.
    pub fn run<L, F, N>(&self, first: Loaded, tree: &mut F, station: &mut N) -> Result<Ran, Unbegun>
    where
        L: LimitsName + Send + Sync,
        F: Tree,
        N: Station,
        requires allowed { IsAllowed self.now.plan.now }
        requires limits { self.now.plan.now.limits ≡ L.limits }
        requires may_serve { MayServe N.Door.Link.Out.allowed }
        ensures runs { Runs self.now.plan.now first (objects (F.told tree.old) (N.told station.old) (N.told station.new) (N.faults station.old) (N.faults station.new)) result }
    {
        let Ok(opened) = open_table::<Kept<L>>(self.alloc) else {
            return Err(Unbegun::NoMemory);
        };
        self.run_tabled::<L, Brand, F, N>(first, opened, tree, station)
    }
}
