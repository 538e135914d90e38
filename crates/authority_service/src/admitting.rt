// The passes that the loader's pass makes.
ghost use Rattle.std.specs.Prelude.{◌≡◌, IfOk, IfErr, vec_len};
ghost use mathlib.Core.List.{IsPrefix};
ghost use Rattle.authority_service.specs.Beginning.{HasBegun};
ghost use Rattle.authority_service.specs.Causes.{PrepareCause};

use history_lock::{AdmitRefused, EndCause, Pass, TableName};
use shared_authority::{Kept, LimitsName, Shared};
use std::alloc::Global;
use std::sync::Wait;

/// Why a service has not begun.
#[derive(Clone, Copy, Debug, PartialEq, Eq)]
pub enum PrepareRefused {
    /// Memory was refused.
    NoMemory,
    /// The lock has ended by this cause.
    Ended { cause: EndCause },
}

/// Makes one pass. Where all passes were made, the lock is ended, and the kept cause is answered.
pub fn admit_one<L: LimitsName, T: TableName, R: Wait>(
    rt: &R,
    shared: &Shared<L, T>,
    zero: &mut Pass<Kept<L>, T>,
) -> Result<Pass<Kept<L>, T>, PrepareRefused>
    requires begun { HasBegun zero.old }
    ensures begun { HasBegun zero.new }
    ensures grows { IsPrefix zero.old.history zero.new.history }
    ensures cause { IfErr result (PrepareCause L.limits zero.new) }
{
    match shared.admit(rt, zero) {
        Ok(pass) => Ok(pass),
        Err(AdmitRefused::Full { admitted }) => {
            let cause = shared.end(rt, zero, EndCause::Admissions { admitted });
            Err(PrepareRefused::Ended { cause })
        }
    }
}

/// Makes so many passes.
pub fn admit_passes<L: LimitsName, T: TableName, R: Wait>(
    rt: &R,
    alloc: Global,
    shared: &Shared<L, T>,
    zero: &mut Pass<Kept<L>, T>,
    count: usize,
) -> Result<Vec<Pass<Kept<L>, T>>, PrepareRefused>
    requires begun { HasBegun zero.old }
    ensures all { IfOk result (λ passes. vec_len passes ≡ count) }
    ensures begun { HasBegun zero.new }
    ensures grows { IsPrefix zero.old.history zero.new.history }
    ensures cause { IfErr result (PrepareCause L.limits zero.new) }
{
    let Ok(mut passes) = Vec::with_capacity(alloc, count) else {
        return Err(PrepareRefused::NoMemory);
    };
    for _index in 0..count {
        let pass = admit_one(rt, shared, zero)?;
        passes.push_reserved(pass);
    }
    Ok(passes)
}
