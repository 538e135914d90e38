// Identities.
ghost use Rattle.std.specs.Prelude.{◌≡◌};
ghost use Rattle.authority_calls.specs.Arguments.{Takes};
ghost use Rattle.authority_calls.specs.Subjects.{user, group, identity_of, identity};

use crate::arguments::{as_u32, bytes, enter, leave};
use crate::dictionary::one;
use crate::fault::ArgumentFault;
use dbus_values::Parts;
use pk_types::Identity;

/// The dictionary of a `unix-user`.
fn user(parts: &mut Parts) -> Result<Identity, ArgumentFault>
    ensures exact { Takes user parts.old parts.new result }
{
    let uid = one(parts, b"uid")?;
    let uid = as_u32(uid)?;
    Ok(Identity::User(uid))
}

/// The dictionary of a `unix-group`.
fn group(parts: &mut Parts) -> Result<Identity, ArgumentFault>
    ensures exact { Takes group parts.old parts.new result }
{
    let gid = one(parts, b"gid")?;
    let gid = as_u32(gid)?;
    Ok(Identity::Group(gid))
}

/// The dictionary of an identity of this kind.
fn identity_of(kind: &[u8], parts: &mut Parts) -> Result<Identity, ArgumentFault>
    ensures exact { Takes (identity_of kind.now) parts.old parts.new result }
{
    if kind == b"unix-user".as_slice() {
        user(parts)
    } else if kind == b"unix-group".as_slice() {
        group(parts)
    } else {
        Err(ArgumentFault::OutOfForm)
    }
}

/// The structure Identity of the reference manual.
#[tactic(auto, unfolding(crate::specs::Subjects::identity))]
pub fn identity(parts: &mut Parts) -> Result<Identity, ArgumentFault>
    ensures exact { Takes identity parts.old parts.new result }
{
    enter(parts)?;
    let kind = bytes(parts)?;
    let identity = identity_of(kind, parts)?;
    leave(parts)?;
    Ok(identity)
}
