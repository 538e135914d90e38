// The arguments of a client's calls.
ghost use Rattle.std.specs.Prelude.{false, [], ◌∷◌, codes, IfOk, OnOk};
ghost use Rattle.authority_messages.specs.Values.{string, uint32, uint64, pairs as pairs_tree, identity as identity_tree, keyed, known_by};
ghost use Rattle.authority_messages.specs.Built.{Builds, Rows, Adds};
ghost use Rattle.client_messages.specs.Calls.{subject as subject_tree, arguments_of};

use authority_messages::pairs::pairs;
use authority_messages::subjects::{identity, known_by_one, process, session};
use authority_messages::values::{
    add, add_string, add_uint32, add_uint64, no_values, string as string_value,
};
use authority_model::Call;
use dbus_values::{Value, ValueList};
use pk_types::{Identity, NoMemory, Pair, Subject, Text};
use std::alloc::Global;

/// A connection, by its name.
fn bus_name(alloc: Global, name: &Text) -> Result<Value, NoMemory>
    ensures value { IfOk result (λ v. Builds false 4 v (known_by (codes "system-bus-name") (keyed (codes "name") (string name.now) ∷ []))) }
{
    let name = string_value(alloc, name)?;
    known_by_one(alloc, "system-bus-name", "name", name)
}

/// Subject of the reference manual.
fn subject(alloc: Global, from: &Subject) -> Result<Value, NoMemory>
    ensures value { IfOk result (λ v. Builds false 4 v (subject_tree from.now)) }
{
    match from {
        Subject::Process { pid, start } => process(alloc, *pid, *start),
        Subject::Session { id } => session(alloc, id),
        Subject::BusName { name } => bus_name(alloc, name),
    }
}

/// Puts a subject at the end.
fn add_subject(alloc: Global, values: &mut ValueList, from: &Subject) -> Result<(), NoMemory>
    ensures ok { OnOk result (Adds values.old values.new 4 (subject_tree from.now)) }
{
    let value = subject(alloc, from)?;
    add(values, value)
}

/// CheckAuthorization.
fn check(
    alloc: Global,
    subject: &Subject,
    action: &Text,
    details: &[Pair],
    flags: u32,
    cancel: &Text,
) -> Result<ValueList, NoMemory>
    ensures values { IfOk result (λ values. Rows 4 values (subject_tree subject.now ∷ string action.now ∷ pairs_tree details.now ∷ uint32 flags ∷ string cancel.now ∷ [])) }
{
    let details = pairs(alloc, details)?;
    let mut values = no_values(alloc);
    add_subject(alloc, &mut values, subject)?;
    add_string(alloc, &mut values, action)?;
    add(&mut values, details)?;
    add_uint32(&mut values, flags)?;
    add_string(alloc, &mut values, cancel)?;
    Ok(values)
}

/// RegisterAuthenticationAgent.
fn register(
    alloc: Global,
    subject: &Subject,
    locale: &Text,
    path: &Text,
) -> Result<ValueList, NoMemory>
    ensures values { IfOk result (λ values. Rows 4 values (subject_tree subject.now ∷ string locale.now ∷ string path.now ∷ [])) }
{
    let mut values = no_values(alloc);
    add_subject(alloc, &mut values, subject)?;
    add_string(alloc, &mut values, locale)?;
    add_string(alloc, &mut values, path)?;
    Ok(values)
}

/// UnregisterAuthenticationAgent.
fn unregister(alloc: Global, subject: &Subject, path: &Text) -> Result<ValueList, NoMemory>
    ensures values { IfOk result (λ values. Rows 4 values (subject_tree subject.now ∷ string path.now ∷ [])) }
{
    let mut values = no_values(alloc);
    add_subject(alloc, &mut values, subject)?;
    add_string(alloc, &mut values, path)?;
    Ok(values)
}

/// AuthenticationAgentResponse.
fn respond(alloc: Global, cookie: &Text, who: Identity) -> Result<ValueList, NoMemory>
    ensures values { IfOk result (λ values. Rows 4 values (string cookie.now ∷ identity_tree who ∷ [])) }
{
    let who = identity(alloc, who)?;
    let mut values = no_values(alloc);
    add_string(alloc, &mut values, cookie)?;
    add(&mut values, who)?;
    Ok(values)
}

/// A text.
fn one_text(alloc: Global, text: &Text) -> Result<ValueList, NoMemory>
    ensures values { IfOk result (λ values. Rows 4 values (string text.now ∷ [])) }
{
    let mut values = no_values(alloc);
    add_string(alloc, &mut values, text)?;
    Ok(values)
}

/// A subject.
fn one_subject(alloc: Global, subject: &Subject) -> Result<ValueList, NoMemory>
    ensures values { IfOk result (λ values. Rows 4 values (subject_tree subject.now ∷ [])) }
{
    let mut values = no_values(alloc);
    add_subject(alloc, &mut values, subject)?;
    Ok(values)
}

/// Announce.
fn announce(alloc: Global, pid: u32, start: u64) -> Result<ValueList, NoMemory>
    ensures values { IfOk result (λ values. Rows 4 values (uint32 pid ∷ uint64 start ∷ [])) }
{
    let mut values = no_values(alloc);
    add_uint32(&mut values, pid)?;
    add_uint64(&mut values, start)?;
    Ok(values)
}

/// No arguments.
fn none(alloc: Global) -> ValueList
    ensures values { Rows 4 result [] }
{
    no_values(alloc)
}

/// The arguments of a call.
pub fn arguments(alloc: Global, call: &Call) -> Result<ValueList, NoMemory>
    ensures values { IfOk result (λ values. Rows 4 values (arguments_of call.now)) }
{
    match call {
        Call::Check {
            subject,
            action,
            details,
            flags,
            cancel,
        } => check(alloc, subject, action, details.as_slice(), *flags, cancel),
        Call::Cancel { cancel } => one_text(alloc, cancel),
        Call::Register {
            subject,
            locale,
            path,
        } => register(alloc, subject, locale, path),
        Call::Unregister { subject, path } => unregister(alloc, subject, path),
        Call::Respond { cookie, identity } => respond(alloc, cookie, *identity),
        Call::EnumerateActions { locale } => one_text(alloc, locale),
        Call::EnumerateGrants { subject } => one_subject(alloc, subject),
        Call::RevokeAll { subject } => one_subject(alloc, subject),
        Call::RevokeOne { id } => one_text(alloc, id),
        Call::Announce { pid, start } => announce(alloc, *pid, *start),
        Call::Reload => Ok(none(alloc)),
        Call::Wrong { .. } => Ok(none(alloc)),
    }
}
