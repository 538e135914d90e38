// Responses of agents: the user was authenticated (AuthenticationAgentResponse in the reference manual).
ghost use Rattle.std.specs.Prelude.{◌≡◌, IfOk};
ghost use Rattle.authority_model.specs.declared.event.Call.{Call as TheCall};
ghost use Rattle.authority_model.specs.Answers.{answer_respond};
ghost use Rattle.entry_changes.specs.Changes.{responding};
ghost use Rattle.event_answers.specs.Asked.{AnswersCall, ChangesByCall, of_challenges, reply_of};
ghost use Rattle.event_answers.specs.Told.{first_answer as first_answer_of};

use crate::answered::{Answered, challenges_changed};
use crate::asking::Asking;
use authority_model::{Answer, ErrorCause, Pending, offers};
use entry_changes::ChallengeChange;
use journal_view::JournalView;
use pk_types::{Identity, NoMemory, Text};
use std::alloc::Global;

/// The first identity that answers a challenge stands.
fn first_answer(identity: Identity, challenge: &Pending) -> ChallengeChange
    ensures first { result ≡ first_answer_of identity challenge.now }
{
    match challenge.answered {
        Some(_) => ChallengeChange::Keep,
        None => ChallengeChange::Answer {
            entry: challenge.entry,
            identity,
        },
    }
}

/// Answers a Respond to a pending challenge, which has to be offered to the identity.
fn respond_to(
    alloc: Global,
    asking: Asking,
    identity: Identity,
    challenge: &Pending,
) -> Result<Answered, NoMemory>
    ensures outputs { IfOk result (λ a. a.outputs ≡ answer_respond identity (reply_of asking.to) challenge.now) }
    ensures change { IfOk result (λ a. a.change ≡ of_challenges (responding identity challenge.now)) }
{
    if !offers(challenge.identities.as_slice(), identity) {
        return asking.refuse(alloc, ErrorCause::NotOffered);
    }
    let outputs = asking.to.reply(alloc, Answer::Done)?;
    Ok(Answered {
        outputs,
        change: challenges_changed(first_answer(identity, challenge)),
    })
}

/// Answers Respond, which only uid 0 may call.
pub fn respond<V: JournalView>(
    alloc: Global,
    view: &V,
    asking: Asking,
    cookie: &Text,
    identity: Identity,
) -> Result<Answered, NoMemory>
    ensures outputs { AnswersCall (V.seen view.now) asking (TheCall.Respond cookie.now identity) result }
    ensures change { ChangesByCall (V.seen view.now) asking (TheCall.Respond cookie.now identity) result }
{
    if !asking.is_root() {
        return asking.refuse(alloc, ErrorCause::NotPrivileged);
    }
    match view.of_cookie(cookie) {
        Some(challenge) => respond_to(alloc, asking, identity, challenge),
        None => asking.refuse(alloc, ErrorCause::NoSuchCookie),
    }
}
