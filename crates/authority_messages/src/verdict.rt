// The answer to a check.
ghost use Rattle.std.specs.Prelude.{◌≡◌, ◌<◌, false, [], ◌∷◌, if◌then◌else◌, is_some, IfOk};
ghost use Rattle.pk_types.specs.Text.{text_fault_of};
ghost use Rattle.authority_model.specs.Reasons.{reason_text};
ghost use Rattle.authority_messages.specs.Values.{struct, boolean, pairs as pairs_tree, authorization_result as result_tree};
ghost use Rattle.authority_messages.specs.Outgoing.{outgoing, return_to as return_of, MayBeSent};
ghost use Rattle.authority_messages.specs.Messages.{too_long as too_long_of};
ghost use Rattle.authority_messages.specs.Built.{Builds};

use crate::containers::structure;
use crate::details::details;
use crate::pairs::pairs;
use crate::replies::{returning, too_long};
use crate::values::{add, add_boolean, no_values};
use authority_model::Verdict;
use dbus_values::{Value, WireOut};
use pk_types::{NoMemory, Pair};
use std::alloc::Global;

/// AuthorizationResult of the reference manual.
fn authorization_result(
    alloc: Global,
    yes: bool,
    challenge: bool,
    details: &[Pair],
) -> Result<Value, NoMemory>
    ensures value { IfOk result (λ v. Builds false 3 v (struct (boolean yes ∷ boolean challenge ∷ pairs_tree details.now ∷ []))) }
{
    let details = pairs(alloc, details)?;
    let mut members = no_values(alloc);
    add_boolean(&mut members, yes)?;
    add_boolean(&mut members, challenge)?;
    add(&mut members, details)?;
    Ok(structure(members))
}

/// The return of CheckAuthorization with these details.
fn told(
    alloc: Global,
    answered: u32,
    verdict: &Verdict,
    details: &[Pair],
) -> Result<WireOut, NoMemory>
    requires { 0 < answered }
    ensures message { IfOk result (λ out. outgoing out ≡ return_of answered (struct (boolean verdict.now.yes ∷ boolean verdict.now.challenge ∷ pairs_tree details.now ∷ []) ∷ [])) }
    ensures form { IfOk result (λ out. MayBeSent (outgoing out)) }
{
    let value = authorization_result(alloc, verdict.yes, verdict.challenge, details)?;
    returning(alloc, answered, value)
}

/// The reply to a check.
pub fn verdict(alloc: Global, answered: u32, verdict: &Verdict) -> Result<WireOut, NoMemory>
    requires { 0 < answered }
    ensures message { IfOk result (λ out. outgoing out ≡ (if is_some (text_fault_of (reason_text verdict.now.reason)) then too_long_of answered else return_of answered (result_tree verdict.now ∷ []))) }
    ensures form { IfOk result (λ out. MayBeSent (outgoing out)) }
{
    let found = details(alloc, verdict)?;
    match found {
        None => too_long(alloc, answered),
        Some(details) => told(alloc, answered, verdict, details.as_slice()),
    }
}
