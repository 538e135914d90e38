// What a connection does with a shared authority. Where something is refused, the cause is let go.
ghost use Rattle.std.specs.Prelude.{◌≡◌};
ghost use Rattle.authority_model.specs.Entering.{AreAllowed};
ghost use Rattle.authority_model.specs.Given.{IsStepped};

use authority_core::Authority;
use authority_model::{Call, Event, Limits, Loaded};
use history_lock::{Opened, Pass, TableName};
use pk_types::NoMemory;
use shared_authority::{Collected, Kept, LimitsName, Shared};
use std::alloc::Global;
use std::sync::Wait;
use std::test::Fail;

/// A shared authority with an empty journal, and its first pass.
pub fn start<L: LimitsName, T: TableName>(
    alloc: Global,
    limits: Limits,
    opened: Opened<Kept<L>>,
) -> Result<(Shared<L, T>, Pass<Kept<L>, T>), NoMemory>
    requires allowed { AreAllowed limits }
    requires limits { limits ≡ L.limits }
    requires table { opened ≡ T.table }
{
    Shared::<L, T>::start(alloc, limits, opened)
}

/// The authority that was shared.
pub fn close<L: LimitsName, T: TableName>(
    shared: Shared<L, T>,
    pass: Pass<Kept<L>, T>,
) -> Authority {
    shared.close(pass)
}

/// A new pass.
pub fn admit<L: LimitsName, T: TableName, R: Wait>(
    rt: &R,
    shared: &Shared<L, T>,
    pass: &mut Pass<Kept<L>, T>,
) -> Result<Pass<Kept<L>, T>, Fail> {
    match shared.admit(rt, pass) {
        Ok(new) => Ok(new),
        Err(_) => Err("admits")?,
    }
}

/// Submits a load, and answers its place if it is entered.
pub fn load<L: LimitsName, T: TableName, R: Wait>(
    rt: &R,
    shared: &Shared<L, T>,
    pass: &mut Pass<Kept<L>, T>,
    loaded: Loaded,
) -> Option<u64> {
    shared.submit_load(rt, pass, 0, loaded).ok()
}

/// Submits an event, and answers its place if it is entered.
pub fn enter<L: LimitsName, T: TableName, R: Wait>(
    rt: &R,
    shared: &Shared<L, T>,
    pass: &mut Pass<Kept<L>, T>,
    event: Event,
) -> Option<u64>
    requires { IsStepped event }
{
    shared.submit(rt, pass, 0, 0, event).ok()
}

/// Announces a process that no world lists, and answers the place if it is entered.
pub fn announce<L: LimitsName, T: TableName, R: Wait>(
    rt: &R,
    shared: &Shared<L, T>,
    pass: &mut Pass<Kept<L>, T>,
) -> Option<u64> {
    let announce = Event::Call {
        serial: 1,
        quiet: false,
        call: Call::Announce { pid: 5, start: 5 },
    };
    enter(rt, shared, pass, announce)
}

/// Collects what a connection is sent.
pub fn collect<L: LimitsName, T: TableName, R: Wait>(
    rt: &R,
    shared: &Shared<L, T>,
    pass: &mut Pass<Kept<L>, T>,
    of: u32,
) -> Option<Collected> {
    shared.collect(rt, pass, of).ok()
}
