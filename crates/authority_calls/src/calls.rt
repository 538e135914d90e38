// The calls of the methods, by their arguments.
ghost use Rattle.std.specs.Prelude.{◌≡◌};
ghost use Rattle.authority_calls.specs.Arguments.{Takes};
ghost use Rattle.authority_calls.specs.Calls.{check, register, unregister, respond, announce, arguments};

use crate::arguments::{path, text, uint32, uint64};
use crate::fault::ArgumentFault;
use crate::identities::identity;
use crate::methods::Method;
use crate::pairs::pairs;
use crate::subjects::subject;
use authority_model::Call;
use dbus_values::Parts;
use std::alloc::Global;

/// CheckAuthorization.
#[tactic(auto, unfolding(crate::specs::Calls::check))]
fn check(alloc: Global, parts: &mut Parts) -> Result<Call, ArgumentFault>
    ensures exact { Takes check parts.old parts.new result }
{
    let subject = subject(alloc, parts)?;
    let action = text(alloc, parts)?;
    let details = pairs(alloc, parts)?;
    let flags = uint32(parts)?;
    let cancel = text(alloc, parts)?;
    Ok(Call::Check {
        subject,
        action,
        details,
        flags,
        cancel,
    })
}

/// RegisterAuthenticationAgent.
#[tactic(auto, unfolding(crate::specs::Calls::register))]
fn register(alloc: Global, parts: &mut Parts) -> Result<Call, ArgumentFault>
    ensures exact { Takes register parts.old parts.new result }
{
    let subject = subject(alloc, parts)?;
    let locale = text(alloc, parts)?;
    let path = path(alloc, parts)?;
    Ok(Call::Register {
        subject,
        locale,
        path,
    })
}

/// UnregisterAuthenticationAgent.
#[tactic(auto, unfolding(crate::specs::Calls::unregister))]
fn unregister(alloc: Global, parts: &mut Parts) -> Result<Call, ArgumentFault>
    ensures exact { Takes unregister parts.old parts.new result }
{
    let subject = subject(alloc, parts)?;
    let path = path(alloc, parts)?;
    Ok(Call::Unregister { subject, path })
}

/// AuthenticationAgentResponse.
#[tactic(auto, unfolding(crate::specs::Calls::respond))]
fn respond(alloc: Global, parts: &mut Parts) -> Result<Call, ArgumentFault>
    ensures exact { Takes respond parts.old parts.new result }
{
    let cookie = text(alloc, parts)?;
    let identity = identity(parts)?;
    Ok(Call::Respond { cookie, identity })
}

/// Announce.
#[tactic(auto, unfolding(crate::specs::Calls::announce))]
fn announce(parts: &mut Parts) -> Result<Call, ArgumentFault>
    ensures exact { Takes announce parts.old parts.new result }
{
    let pid = uint32(parts)?;
    let start = uint64(parts)?;
    Ok(Call::Announce { pid, start })
}

/// The call of a method.
pub fn arguments(alloc: Global, method: Method, parts: &mut Parts) -> Result<Call, ArgumentFault>
    ensures exact { Takes (arguments method) parts.old parts.new result }
{
    match method {
        Method::CheckAuthorization => check(alloc, parts),
        Method::CancelCheckAuthorization => {
            let cancel = text(alloc, parts)?;
            Ok(Call::Cancel { cancel })
        }
        Method::RegisterAuthenticationAgent => register(alloc, parts),
        Method::UnregisterAuthenticationAgent => unregister(alloc, parts),
        Method::AuthenticationAgentResponse => respond(alloc, parts),
        Method::EnumerateActions => {
            let locale = text(alloc, parts)?;
            Ok(Call::EnumerateActions { locale })
        }
        Method::EnumerateTemporaryAuthorizations => {
            let subject = subject(alloc, parts)?;
            Ok(Call::EnumerateGrants { subject })
        }
        Method::RevokeTemporaryAuthorizations => {
            let subject = subject(alloc, parts)?;
            Ok(Call::RevokeAll { subject })
        }
        Method::RevokeTemporaryAuthorizationById => {
            let id = text(alloc, parts)?;
            Ok(Call::RevokeOne { id })
        }
        Method::Announce => announce(parts),
        Method::Reload => Ok(Call::Reload),
    }
}
