// The answer to each call of a live connection.
ghost use Rattle.authority_model.specs.Small.{IsShort};
ghost use Rattle.event_answers.specs.Asked.{AnswersCall, ChangesByCall};

use crate::answered::Answered;
use crate::asking::Asking;
use crate::cancelling::cancel;
use crate::checking::{Check, answer_check};
use crate::granting::{enumerate_grants, revoke_all, revoke_one};
use crate::plain_calls::{announce, enumerate_actions, reload};
use crate::registering::{register, unregister};
use crate::responding::respond;
use authority_model::Call;
use journal_view::JournalView;
use pk_types::NoMemory;
use std::alloc::Global;

/// Answers a call of a live connection.
pub fn answer_call<V: JournalView>(
    alloc: Global,
    view: &V,
    asking: Asking,
    call: &Call,
) -> Result<Answered, NoMemory>
    requires rules { IsShort (V.seen view.now).loaded.policy.entries }
    ensures outputs { AnswersCall (V.seen view.now) asking call.now result }
    ensures change { ChangesByCall (V.seen view.now) asking call.now result }
{
    match call {
        Call::Announce { pid, start } => announce(alloc, view, asking, *pid, *start),
        Call::Check {
            subject,
            action,
            details,
            flags,
            cancel,
        } => {
            let check = Check {
                asking,
                subject,
                action,
                details,
                flags: *flags,
                cancel,
            };
            answer_check(alloc, view, &check)
        }
        Call::Cancel { cancel: id } => cancel(alloc, view, asking, id),
        Call::Register {
            subject,
            locale,
            path,
        } => register(alloc, view, asking, subject, locale, path),
        Call::Unregister { subject, path } => unregister(alloc, view, asking, subject, path),
        Call::Respond { cookie, identity } => respond(alloc, view, asking, cookie, *identity),
        Call::EnumerateActions { locale } => enumerate_actions(alloc, view, asking, locale),
        Call::EnumerateGrants { subject } => enumerate_grants(alloc, view, asking, subject),
        Call::RevokeAll { subject } => revoke_all(alloc, view, asking, subject),
        Call::RevokeOne { id } => revoke_one(alloc, view, asking, id),
        Call::Reload => reload(alloc, asking),
        Call::Wrong { cause } => asking.refuse(alloc, *cause),
    }
}
