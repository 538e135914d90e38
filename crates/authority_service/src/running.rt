// What a service leaves.
ghost use Rattle.std.specs.Prelude.{◌≡◌, ◌≤◌, [], Some, length};
ghost use Rattle.authority_laws.specs.Batches.{in_order};
ghost use Rattle.authority_service.specs.Causes.{FitsJournal};
ghost use Rattle.authority_service.specs.Running.{HaveClosed};
ghost use Rattle.shared_authority.specs.Journals.{Fits, IsJournal};

use authority_core::Authority;
use history_lock::{EndCause, Pass, TableName};
use service_slots::ShutSlot;
use shared_authority::{Kept, LimitsName, Shared};
use std::alloc::Global;
use std::sync::Wait;

/// What a service leaves.
#[derive(Drop)]
pub struct Ran {
    /// The authority with the closed journal.
    pub authority: Authority,
    /// What is left of the slots, in their order.
    pub slots: Vec<ShutSlot>,
    /// The kept cause, if the lock had ended.
    pub cause: Option<EndCause>,
}

impl Ran {
    /// What a service leaves whose lock ended before there was a slot.
    pub fn closed<L: LimitsName, T: TableName>(
        alloc: Global,
        shared: Shared<L, T>,
        pass: Pass<Kept<L>, T>,
        cause: EndCause,
    ) -> Ran
        requires fits { Fits L.limits cause pass.history pass.made }
        requires ended { pass.ended ≡ Some cause }
        ensures journal { in_order result.authority.history ≡ pass.history }
        ensures legal { IsJournal (in_order result.authority.history) }
        ensures slots { result.slots.items ≡ [] }
        ensures cause { result.cause ≡ Some cause }
        ensures fits { FitsJournal L.limits cause (in_order result.authority.history) }
        ensures within { length result.authority.history.entries ≤ L.limits.entries }
    {
        Ran {
            authority: shared.close(pass),
            slots: Vec::new(alloc),
            cause: Some(cause),
        }
    }
}

/// Closes the journal, once the control pass and the loader's have met and the lock has ended. The loader's pass then
/// knew all of the journal, and what it had not known before is not its own.
pub fn close_journal<L: LimitsName, T: TableName, R: Wait>(
    rt: &R,
    shared: Shared<L, T>,
    mut control: Pass<Kept<L>, T>,
    mut zero: Pass<Kept<L>, T>,
) -> Authority
    requires zero { zero.number ≡ 0 }
    ensures closed { HaveClosed control zero (in_order result.history) }
    ensures legal { IsJournal (in_order result.history) }
    ensures within { length result.history.entries ≤ L.limits.entries }
{
    shared.meet(&mut control, &mut zero);
    // Nobody is told this cause: the service has its own by now, and a lock that has ended keeps the one that it has.
    shared.end(rt, &mut zero, EndCause::NoMemory);
    shared.close(zero)
}
