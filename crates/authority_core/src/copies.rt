// Copies of outputs, as far as there is memory.
ghost use Rattle.std.specs.Prelude.{◌≡◌, IfOk};

use authority_model::{Answer, Message, Output, Reason, Verdict};
use pk_types::{NoMemory, TryCopy};

/// A copy of a reason.
fn copy_of_reason(reason: &Reason) -> Result<Reason, NoMemory>
    ensures copy { IfOk result (λ copy. copy ≡ reason.now) }
{
    Ok(match reason {
        Reason::Root => Reason::Root,
        Reason::Default(category) => Reason::Default(*category),
        Reason::Entry(place) => Reason::Entry(*place),
        Reason::Grant(id) => Reason::Grant(*id),
        Reason::Imply(id) => Reason::Imply(id.try_copy()?),
        Reason::Challenge => Reason::Challenge,
        Reason::Dismissed => Reason::Dismissed,
        Reason::AgentGone => Reason::AgentGone,
        Reason::SubjectGone => Reason::SubjectGone,
        Reason::ActionGone => Reason::ActionGone,
        Reason::IdentityGone => Reason::IdentityGone,
    })
}

/// A copy of a verdict.
fn copy_of_verdict(verdict: &Verdict) -> Result<Verdict, NoMemory>
    ensures copy { IfOk result (λ copy. copy ≡ verdict.now) }
{
    Ok(Verdict {
        yes: verdict.yes,
        challenge: verdict.challenge,
        reason: copy_of_reason(&verdict.reason)?,
        keep: verdict.keep,
        grant: verdict.grant,
        pairs: verdict.pairs.try_copy()?,
    })
}

/// A copy of an answer.
fn copy_of_answer(answer: &Answer) -> Result<Answer, NoMemory>
    ensures copy { IfOk result (λ copy. copy ≡ answer.now) }
{
    match answer {
        Answer::Verdict(verdict) => Ok(Answer::Verdict(copy_of_verdict(verdict)?)),
        Answer::Done => Ok(Answer::Done),
        Answer::Name(name) => Ok(Answer::Name(name.try_copy()?)),
        Answer::Actions { load, locale } => Ok(Answer::Actions {
            load: *load,
            locale: locale.try_copy()?,
        }),
        Answer::Grants(rows) => Ok(Answer::Grants(rows.try_copy()?)),
        Answer::Refused(cause) => Ok(Answer::Refused(*cause)),
    }
}

/// A copy of a message.
fn copy_of_message(message: &Message) -> Result<Message, NoMemory>
    ensures copy { IfOk result (λ copy. copy ≡ message.now) }
{
    match message {
        Message::Reply { serial, answer } => Ok(Message::Reply {
            serial: *serial,
            answer: copy_of_answer(answer)?,
        }),
        Message::Begin {
            path,
            action,
            text,
            icon,
            details,
            cookie,
            identities,
        } => Ok(Message::Begin {
            path: path.try_copy()?,
            action: action.try_copy()?,
            text: text.try_copy()?,
            icon: icon.try_copy()?,
            details: details.try_copy()?,
            cookie: *cookie,
            identities: identities.try_copy()?,
        }),
        Message::CancelBegin { path, cookie } => Ok(Message::CancelBegin {
            path: path.try_copy()?,
            cookie: *cookie,
        }),
        Message::Changed => Ok(Message::Changed),
        Message::LoadWanted => Ok(Message::LoadWanted),
        Message::StopWanted => Ok(Message::StopWanted),
    }
}

/// A copy of an output.
pub fn copy_of(output: &Output) -> Result<Output, NoMemory>
    ensures copy { IfOk result (λ copy. copy ≡ output.now) }
{
    Ok(Output {
        to: output.to,
        message: copy_of_message(&output.message)?,
    })
}
