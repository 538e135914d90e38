// The first load, and what a service has before it opens its doors.
ghost use Rattle.std.specs.Prelude.{◌≡◌, ◌≤◌, [], IfErr, IfOk, OnOk, vec_len};
ghost use Rattle.std.specs.Vec.{vec_capacity};
ghost use Rattle.authority_service.specs.Beginning.{BeginsWith, HasBegun};
ghost use Rattle.authority_service.specs.Causes.{PrepareCause};
ghost use Rattle.authority_service.specs.Service.{slots_of};
ghost use Rattle.serve_words.specs.Plans.{IsAllowed};

use crate::admitting::{PrepareRefused, admit_one, admit_passes};
use authority_model::Loaded;
use history_lock::{Pass, TableName};
use serve_words::ServePlan;
use service_slots::ShutSlot;
use shared_authority::{Kept, LimitsName, Shared};
use std::alloc::Global;
use std::sync::Wait;

/// Enters the first load, with the moment 0. Where it is refused the lock is ended, and the kept
/// cause is answered.
fn enter_first<L: LimitsName, T: TableName, R: Wait>(
    rt: &R,
    shared: &Shared<L, T>,
    zero: &mut Pass<Kept<L>, T>,
    first: Loaded,
) -> Result<(), PrepareRefused>
    requires zero { zero.old.number ≡ 0 }
    requires new { zero.old.history ≡ [] }
    ensures begins { BeginsWith first zero.new.history }
    ensures begun { OnOk result (HasBegun zero.new) }
    ensures cause { IfErr result (PrepareCause L.limits zero.new) }
{
    match shared.submit_load(rt, zero, 0, first) {
        Ok(_place) => Ok(()),
        Err(refused) => {
            let refusal = refused.cause();
            let cause = shared.end(rt, zero, refusal);
            Err(PrepareRefused::Ended { cause })
        }
    }
}

/// What a service has before it opens its doors, besides the loader's pass.
#[derive(Drop)]
pub struct Parts<L: LimitsName, T: TableName> {
    /// The pass that stops the loader.
    pub control: Pass<Kept<L>, T>,
    /// One pass for each slot.
    pub passes: Vec<Pass<Kept<L>, T>>,
    /// Room for what is left of each slot.
    pub shut: Vec<ShutSlot>,
}

/// Enters the first load by the loader's pass, and makes the other passes of a plan.
pub fn prepare<L: LimitsName, T: TableName, R: Wait>(
    rt: &R,
    alloc: Global,
    shared: &Shared<L, T>,
    zero: &mut Pass<Kept<L>, T>,
    plan: &ServePlan,
    first: Loaded,
) -> Result<Parts<L, T>, PrepareRefused>
    requires allowed { IsAllowed plan.now }
    requires zero { zero.old.number ≡ 0 }
    requires new { zero.old.history ≡ [] }
    ensures begins { BeginsWith first zero.new.history }
    ensures begun { OnOk result (HasBegun zero.new) }
    ensures passes { IfOk result (λ parts. vec_len parts.passes ≡ slots_of plan.now) }
    ensures room { IfOk result (λ parts. (parts.shut.items ≡ []) × (slots_of plan.now ≤ vec_capacity parts.shut)) }
    ensures cause { IfErr result (PrepareCause L.limits zero.new) }
{
    enter_first(rt, shared, zero, first)?;
    let control = admit_one(rt, shared, zero)?;
    let count = plan.doors.len() * plan.slots as usize;
    let passes = admit_passes(rt, alloc, shared, zero, count)?;
    let Ok(shut) = Vec::with_capacity(alloc, count) else {
        return Err(PrepareRefused::NoMemory);
    };
    Ok(Parts {
        control,
        passes,
        shut,
    })
}
