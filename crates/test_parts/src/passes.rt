// Passes that a loader and slots may be served with.
ghost use Rattle.std.specs.Prelude.{◌≡◌, [], None, IfSome};
ghost use Rattle.std.specs.Option.{OnSome};
ghost use Rattle.authority_model.specs.Peers.{uid_of};
ghost use Rattle.history_lock.specs.Calls.{Admitted};
ghost use Rattle.shared_authority.specs.Journals.{IsJournal, caller_of, past_of};

use authority_model::Loaded;
use history_lock::{Pass, TableName};
use shared_authority::{Kept, LimitsName, Shared};
use std::sync::Wait;

/// Enters the first load by the loader's pass, and makes another one. None where one of the two is
/// refused.
pub fn begin<L: LimitsName, T: TableName, R: Wait>(
    rt: &R,
    shared: &Shared<L, T>,
    zero: &mut Pass<Kept<L>, T>,
    loaded: Loaded,
) -> Option<Pass<Kept<L>, T>>
    requires zero { zero.old.number ≡ 0 }
    requires empty { zero.old.history ≡ [] }
    ensures zero { OnSome result (zero.new.number ≡ 0) }
    ensures fresh { OnSome result (uid_of (past_of zero.new.history) 0 ≡ None) }
{
    let Ok(_) = shared.submit_load(rt, zero, 0, loaded) else {
        return None;
    };
    let pass = new_pass(rt, shared, zero)?;
    Some(pass)
}

/// A new pass, made at one that is known. None where it is refused.
pub fn new_pass<L: LimitsName, T: TableName, R: Wait>(
    rt: &R,
    shared: &Shared<L, T>,
    known: &mut Pass<Kept<L>, T>,
) -> Option<Pass<Kept<L>, T>>
    ensures { IfSome result (λ pass. Admitted caller_of IsJournal known.old pass known.new) }
{
    shared.admit(rt, known).ok()
}
