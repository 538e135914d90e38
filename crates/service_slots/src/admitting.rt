// The passes of a connection.
ghost use Rattle.std.specs.Prelude.{◌≡◌, IfOk, IfErr, IfSome};
ghost use mathlib.Core.List.{IsPrefix};
ghost use Rattle.history_lock.specs.Calls.{Admitted, Learned};
ghost use Rattle.history_lock.specs.Entries.{NoneBy};
ghost use Rattle.shared_authority.specs.Journals.{Fits, IsJournal, caller_of};
ghost use Rattle.connection_serve.specs.Headline.{IsFresh};

use history_lock::{AdmitRefused, EndCause, Pass, TableName};
use shared_authority::{Kept, LimitsName, Shared};
use std::sync::Wait;

/// The passes of a connection that was not served yet.
#[derive(Drop)]
pub(crate) struct Passes<L: LimitsName, T: TableName> {
    /// The one of its entries.
    pub(crate) pass: Pass<Kept<L>, T>,
    /// The one that collects what is sent to it.
    pub(crate) collector: Pass<Kept<L>, T>,
    /// The one that takes out processes that have ended, if it looks at processes.
    pub(crate) sighter: Option<Pass<Kept<L>, T>>,
}

/// A new pass. Where all passes were made the lock ends, and the kept cause is answered.
fn admit_one<L: LimitsName, T: TableName, R: Wait>(
    rt: &R,
    shared: &Shared<L, T>,
    pass: &mut Pass<Kept<L>, T>,
) -> Result<Pass<Kept<L>, T>, EndCause>
    ensures admitted { IfOk result (λ new. Admitted caller_of IsJournal pass.old new pass.new) }
    ensures fits { IfErr result (λ cause. Fits L.limits cause pass.new.history pass.new.made) }
    ensures grows { IsPrefix pass.old.history pass.new.history }
{
    match shared.admit(rt, pass) {
        Ok(new) => Ok(new),
        Err(AdmitRefused::Full { admitted }) => {
            Err(shared.end(rt, pass, EndCause::Admissions { admitted }))
        }
    }
}

/// Two new passes, which know the same.
fn admit_two<L: LimitsName, T: TableName, R: Wait>(
    rt: &R,
    shared: &Shared<L, T>,
    pass: &mut Pass<Kept<L>, T>,
) -> Result<(Pass<Kept<L>, T>, Pass<Kept<L>, T>), EndCause>
    ensures fresh { IfOk result (λ (first, second). IsFresh first second) }
    ensures fits { IfErr result (λ cause. Fits L.limits cause pass.new.history pass.new.made) }
    ensures grows { IsPrefix pass.old.history pass.new.history }
{
    let _number = pass.number();
    let mut first = admit_one(rt, shared, pass)?;
    let mut second = admit_one(rt, shared, pass)?;
    shared.meet(&mut first, &mut second);
    Ok((first, second))
}

/// A sighter where a connection is to look at processes, and else none.
fn admit_sighter<L: LimitsName, T: TableName, R: Wait>(
    rt: &R,
    shared: &Shared<L, T>,
    pass: &mut Pass<Kept<L>, T>,
    live: bool,
) -> Result<Option<Pass<Kept<L>, T>>, EndCause>
    ensures sighter { IfOk result (λ new. IfSome new (λ sighter. NoneBy caller_of sighter.number sighter.history)) }
    ensures fits { IfErr result (λ cause. Fits L.limits cause pass.new.history pass.new.made) }
    ensures grows { IsPrefix pass.old.history pass.new.history }
{
    if !live {
        return Ok(None);
    }
    Ok(Some(admit_one(rt, shared, pass)?))
}

/// Admits the passes of a connection by the slot's pass; the sighter's too where it is to look at processes.
/// Where all passes were made the lock ends, and the kept cause is answered.
pub(crate) fn admit_connection<L: LimitsName, T: TableName, R: Wait>(
    rt: &R,
    shared: &Shared<L, T>,
    slot: &mut Pass<Kept<L>, T>,
    live: bool,
) -> Result<Passes<L, T>, EndCause>
    ensures fresh { IfOk result (λ passes. IsFresh passes.pass passes.collector) }
    ensures sighter { IfOk result (λ passes. IfSome passes.sighter (λ sighter. NoneBy caller_of sighter.number sighter.history)) }
    ensures fits { IfErr result (λ cause. Fits L.limits cause slot.new.history slot.new.made) }
    ensures grows { IsPrefix slot.old.history slot.new.history }
{
    let (pass, collector) = admit_two(rt, shared, slot)?;
    let sighter = admit_sighter(rt, shared, slot, live)?;
    Ok(Passes {
        pass,
        collector,
        sighter,
    })
}
