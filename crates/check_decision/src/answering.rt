// Who may answer a challenge.
ghost use Rattle.std.specs.Prelude.{◌≡◌, List, IfOk};
ghost use Rattle.authority_model.specs.declared.journal.Item.{Item};
ghost use Rattle.authority_model.specs.Items.{loaded_of};
ghost use Rattle.authority_model.specs.Admins as admins;
ghost use Rattle.authority_model.specs.Verdicts as verdicts;

use admin_identities::expand;
use authority_model::{Loaded, offers};
use pk_types::{Identity, IdentityList, Implicit, List, NoMemory};
use std::alloc::Global;

/// Who may answer a challenge of this value for this user: itself, or the administrators.
pub fn allowed(
    alloc: Global,
    loaded: &Loaded,
    value: Implicit,
    uid: u32,
) -> Result<IdentityList, NoMemory>
    ensures identities { IfOk result (λ l. l ≡ admins.allowed loaded.now.world loaded.now.policy.admins value uid) }
{
    match value {
        Implicit::AuthSelf | Implicit::AuthSelfKeep => {
            List::try_from_slice(alloc, &[Identity::User(uid)])
        }
        Implicit::AuthAdmin | Implicit::AuthAdminKeep => {
            expand(alloc, &loaded.world, &loaded.policy.admins)
        }
        Implicit::No | Implicit::Yes => Ok(List::new(alloc)),
    }
}

/// Whether an identity may answer a challenge of this value for this user.
pub fn may_answer(
    alloc: Global,
    loaded: &Loaded,
    value: Implicit,
    uid: u32,
    identity: Identity,
) -> Result<bool, NoMemory>
    ensures may { (past : List Item) → loaded.now ≡ loaded_of past
        → IfOk result (λ may. may ≡ verdicts.may_answer past value uid identity) }
{
    let offered = allowed(alloc, loaded, value, uid)?;
    Ok(offers(offered.as_slice(), identity))
}
