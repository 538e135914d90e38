// What follows the reply of an agent to BeginAuthentication.
ghost use Rattle.std.specs.Prelude.{◌≡◌, ◌++◌, List, IfOk, OnOk};
ghost use Rattle.authority_model.specs.declared.event.Event.TheVariants.{Returned, AgentError};
ghost use Rattle.authority_model.specs.declared.journal.Item.{Item};
ghost use Rattle.authority_model.specs.Answers.{answer_error as error_of, answer_return as return_of, tell_return as told_return};
ghost use Rattle.entry_changes.specs.Changes.{close_one};
ghost use Rattle.authority_model.specs.Small.{IsShort};
ghost use Rattle.journal_view.specs.Seen.{IsSeenOf};
ghost use Rattle.event_answers.specs.declared.asking.Occasion.{Occasion as TheOccasion};
ghost use Rattle.event_answers.specs.Asked.{AnswersEvent, Changes, ChangesByEvent, Tells, grant_added, of_challenges, returning, returning_with};
ghost use Rattle.event_answers.specs.Told.{reason_of_error, told_of_grant};

use crate::answered::{Answered, challenges_changed, no_outputs, nothing};
use crate::asking::Occasion;
use crate::cancelling::place_alone;
use crate::presence::is_live;
use crate::replies::{reply_to, tell_changed};
use authority_model::{Answer, GRANT_SECONDS, GrantRow, OutputList, Pending, Reason, Verdict};
use check_decision::no;
use entry_changes::{AgentChange, ChallengeChange, EntryChange, GrantChange};
use journal_view::JournalView;
use pk_types::{NoMemory, Text, TryCopy};
use std::alloc::Global;
use view_decision::return_verdict;

/// Why a challenge ends where the agent answers with an error of this name.
fn reason_of(name: &Text) -> Reason
    ensures reason { result ≡ reason_of_error name.now }
{
    if name.bytes() == b"org.freedesktop.PolicyKit1.Error.Cancelled".as_slice() {
        Reason::Dismissed
    } else {
        Reason::Challenge
    }
}

/// Answers the check whose challenge an error closes: no, whether it was answered or not.
fn fail(alloc: Global, challenge: &Pending, name: &Text) -> Result<Answered, NoMemory>
    ensures outputs { IfOk result (λ a. a.outputs ≡ error_of name.now challenge.now) }
    ensures change { IfOk result (λ a. a.change ≡ of_challenges (close_one challenge.now)) }
{
    let verdict = no(alloc, reason_of(name));
    let mut outputs = no_outputs(alloc)?;
    reply_to(&mut outputs, challenge, Answer::Verdict(verdict))?;
    let places = place_alone(alloc, challenge)?;
    Ok(Answered {
        outputs,
        change: challenges_changed(ChallengeChange::Close(places)),
    })
}

/// Answers the error of an agent.
pub fn answer_error<V: JournalView>(
    alloc: Global,
    view: &V,
    caller: u32,
    serial: u32,
    name: &Text,
) -> Result<Answered, NoMemory>
    ensures outputs { (at : TheOccasion) → AnswersEvent (V.seen view.now) caller at (AgentError serial name.now) result }
    ensures change { (at : TheOccasion) → ChangesByEvent (V.seen view.now) caller at (AgentError serial name.now) result }
{
    if !is_live(view, caller) {
        return Ok(nothing(alloc));
    }
    match view.of_serial(caller, serial) {
        Some(challenge) => fail(alloc, challenge, name),
        None => Ok(nothing(alloc)),
    }
}

/// The temporary authorization with this number that a challenge makes at a moment, if it makes one.
fn grant_change(
    challenge: &Pending,
    moment: u64,
    number: Option<u64>,
) -> Result<GrantChange, NoMemory>
    ensures added { IfOk result (λ change. change ≡ grant_added challenge.now moment number) }
{
    let Some(id) = number else {
        return Ok(GrantChange::Keep);
    };
    let Some(expires) = moment.checked_add(GRANT_SECONDS) else {
        return Err(NoMemory);
    };
    Ok(GrantChange::Add(GrantRow {
        id,
        action: challenge.action.try_copy()?,
        key: challenge.key.try_copy()?,
        obtained: moment,
        expires,
    }))
}

/// Tells each live connection if a temporary authorization was made.
fn tell_grant<V: JournalView>(
    outputs: &mut OutputList,
    view: &V,
    grant: Option<u64>,
) -> Result<(), NoMemory>
    ensures told { (past : List Item) → IsSeenOf past (V.seen view.now)
        → OnOk result (outputs.new ≡ outputs.old ++ told_of_grant grant past) }
{
    match grant {
        Some(_) => tell_changed(outputs, view),
        None => Ok(()),
    }
}

/// Answers the check that opened a challenge, and tells each live connection if a temporary
/// authorization was made.
fn tell_return<V: JournalView>(
    outputs: &mut OutputList,
    view: &V,
    challenge: &Pending,
    verdict: Verdict,
) -> Result<(), NoMemory>
    ensures told { (past : List Item) → IsSeenOf past (V.seen view.now)
        → OnOk result (outputs.new ≡ outputs.old ++ told_return past challenge.now verdict) }
{
    let grant = verdict.grant;
    reply_to(outputs, challenge, Answer::Verdict(verdict))?;
    tell_grant(outputs, view, grant)
}

/// The outputs of a return with this verdict.
fn return_outputs<V: JournalView>(
    alloc: Global,
    view: &V,
    challenge: &Pending,
    verdict: Verdict,
) -> Result<OutputList, NoMemory>
    ensures told { (past : List Item) → IsSeenOf past (V.seen view.now)
        → IfOk result (λ outputs. outputs ≡ told_return past challenge.now verdict) }
{
    let mut outputs = no_outputs(alloc)?;
    tell_return(&mut outputs, view, challenge, verdict)?;
    Ok(outputs)
}

/// A return closes its challenge, and makes the temporary authorization with this number, if any.
fn return_change(
    alloc: Global,
    challenge: &Pending,
    moment: u64,
    number: Option<u64>,
) -> Result<EntryChange, NoMemory>
    ensures change { IfOk result (λ c. c ≡ returning_with number moment challenge.now) }
{
    let places = place_alone(alloc, challenge)?;
    let grant = grant_change(challenge, moment, number)?;
    Ok(EntryChange {
        agent: AgentChange::Keep,
        grant,
        challenge: ChallengeChange::Close(places),
    })
}

/// Answers the check whose challenge a return closes: it is decided again.
fn decide<V: JournalView>(
    alloc: Global,
    view: &V,
    moment: u64,
    challenge: &Pending,
) -> Result<Answered, NoMemory>
    requires rules { IsShort (V.seen view.now).loaded.policy.entries }
    ensures outputs { Tells (V.seen view.now) result (λ past. return_of past moment challenge.now) }
    ensures change { Changes (V.seen view.now) result (λ past. returning past moment challenge.now) }
{
    let verdict = return_verdict(alloc, view, moment, challenge)?;
    let grant = verdict.grant;
    let outputs = return_outputs(alloc, view, challenge, verdict)?;
    let change = return_change(alloc, challenge, moment, grant)?;
    Ok(Answered { outputs, change })
}

/// Answers the empty reply of an agent.
pub fn answer_return<V: JournalView>(
    alloc: Global,
    view: &V,
    caller: u32,
    occasion: Occasion,
    serial: u32,
) -> Result<Answered, NoMemory>
    requires rules { IsShort (V.seen view.now).loaded.policy.entries }
    ensures outputs { AnswersEvent (V.seen view.now) caller occasion (Returned serial) result }
    ensures change { ChangesByEvent (V.seen view.now) caller occasion (Returned serial) result }
{
    if !is_live(view, caller) {
        return Ok(nothing(alloc));
    }
    match view.of_serial(caller, serial) {
        Some(challenge) => decide(alloc, view, occasion.moment, challenge),
        None => Ok(nothing(alloc)),
    }
}
