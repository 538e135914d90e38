// Agents that are registered and unregistered.
ghost use Rattle.std.specs.Prelude.{◌≡◌, IfOk};
ghost use Rattle.entry_changes.specs.declared.change.AgentChange.{AgentChange as TheChange};
ghost use Rattle.authority_model.specs.declared.event.Call.{Call as TheCall};
ghost use Rattle.authority_model.specs.Challenges.{pending_at};
ghost use Rattle.authority_model.specs.Facts.{facts_seen};
ghost use Rattle.event_answers.specs.Asked.{AnswersCall, ChangesAsked, ChangesByCall, TellsAsker};
ghost use Rattle.event_answers.specs.Endings.{EndCloses, EndTells};
ghost use Rattle.event_answers.specs.Told.{register_changes, register_told, registration_by, registration_end_told, unregister_changes, unregister_changes_at, unregister_told, unregister_told_at};

use crate::answered::{Answered, agents_changed};
use crate::asking::Asking;
use crate::ending::{Ended, close_places, end_at};
use crate::permitting::permitted;
use authority_model::{Agent, Answer, ErrorCause, Facts};
use entry_changes::{AgentChange, EntryChange, GrantChange};
use journal_view::JournalView;
use pk_types::{NoMemory, Subject, Text};
use std::alloc::Global;

/// The registration by the caller of a subject of these facts.
fn registration(
    asking: Asking,
    facts: Facts,
    locale: &Text,
    path: &Text,
) -> Result<AgentChange, NoMemory>
    ensures added { IfOk result (λ c. c ≡ TheChange.Add (registration_by asking.to.caller locale.now path.now (facts_seen facts.entry))) }
{
    Ok(AgentChange::Add(Agent {
        caller: asking.to.caller,
        path: path.try_copy()?,
        locale: locale.try_copy()?,
        key: facts.key.try_own()?,
    }))
}

/// Answers Register for a subject of these facts: it may have one agent.
fn register_for<V: JournalView>(
    alloc: Global,
    view: &V,
    asking: Asking,
    facts: Facts,
    locale: &Text,
    path: &Text,
) -> Result<Answered, NoMemory>
    ensures outputs { TellsAsker (V.seen view.now) asking result (register_told asking (facts_seen facts.entry)) }
    ensures change { ChangesAsked (V.seen view.now) asking result (register_changes asking locale.now path.now (facts_seen facts.entry)) }
{
    match view.agent_of(facts.key) {
        Some(_) => asking.refuse(alloc, ErrorCause::AgentExists),
        None => {
            let outputs = asking.to.reply(alloc, Answer::Done)?;
            let added = registration(asking, facts, locale, path)?;
            Ok(Answered {
                outputs,
                change: agents_changed(added),
            })
        }
    }
}

/// Answers Register (RegisterAuthenticationAgent in the reference manual).
pub fn register<V: JournalView>(
    alloc: Global,
    view: &V,
    asking: Asking,
    subject: &Subject,
    locale: &Text,
    path: &Text,
) -> Result<Answered, NoMemory>
    ensures outputs { AnswersCall (V.seen view.now) asking (TheCall.Register subject.now locale.now path.now) result }
    ensures change { ChangesByCall (V.seen view.now) asking (TheCall.Register subject.now locale.now path.now) result }
{
    match permitted(view, asking, subject) {
        Ok(facts) => register_for(alloc, view, asking, facts, locale, path),
        Err(cause) => asking.refuse(alloc, cause),
    }
}

/// Answers the pending checks at the caller's registration of a subject, and then the caller.
fn end_registration<V: JournalView>(
    alloc: Global,
    view: &V,
    asking: Asking,
    facts: Facts,
) -> Result<Ended, NoMemory>
    ensures outputs { EndTells (V.seen view.now) result (registration_end_told asking (facts_seen facts.entry)) }
    ensures closed { EndCloses (V.seen view.now) result (λ past. pending_at past asking.to.caller (facts_seen facts.entry).key) }
{
    let mut ended = end_at(alloc, view, asking.to.caller, facts.key)?;
    asking.to.send(&mut ended.outputs, Answer::Done)?;
    Ok(ended)
}

/// Unregisters this agent of a subject, if it is the caller's with this path.
fn unregister_agent<V: JournalView>(
    alloc: Global,
    view: &V,
    asking: Asking,
    facts: Facts,
    path: &Text,
    agent: &Agent,
) -> Result<Answered, NoMemory>
    ensures outputs { TellsAsker (V.seen view.now) asking result (unregister_told_at asking path.now (facts_seen facts.entry) agent.now) }
    ensures change { ChangesAsked (V.seen view.now) asking result (unregister_changes_at asking path.now (facts_seen facts.entry) agent.now) }
{
    let caller = asking.to.caller;
    if agent.caller != caller || !agent.path.is_same(path) {
        return asking.refuse(alloc, ErrorCause::NoSuchAgent);
    }
    let key = facts.key.try_own()?;
    let Ended { outputs, places } = end_registration(alloc, view, asking, facts)?;
    Ok(Answered {
        outputs,
        change: EntryChange {
            agent: AgentChange::Drop(key),
            grant: GrantChange::Keep,
            challenge: close_places(places),
        },
    })
}

/// Answers Unregister for a subject of these facts.
fn unregister_for<V: JournalView>(
    alloc: Global,
    view: &V,
    asking: Asking,
    facts: Facts,
    path: &Text,
) -> Result<Answered, NoMemory>
    ensures outputs { TellsAsker (V.seen view.now) asking result (unregister_told asking path.now (facts_seen facts.entry)) }
    ensures change { ChangesAsked (V.seen view.now) asking result (unregister_changes asking path.now (facts_seen facts.entry)) }
{
    match view.agent_of(facts.key) {
        Some(agent) => unregister_agent(alloc, view, asking, facts, path, agent),
        None => asking.refuse(alloc, ErrorCause::NoSuchAgent),
    }
}

/// Answers Unregister (UnregisterAuthenticationAgent in the reference manual).
pub fn unregister<V: JournalView>(
    alloc: Global,
    view: &V,
    asking: Asking,
    subject: &Subject,
    path: &Text,
) -> Result<Answered, NoMemory>
    ensures outputs { AnswersCall (V.seen view.now) asking (TheCall.Unregister subject.now path.now) result }
    ensures change { ChangesByCall (V.seen view.now) asking (TheCall.Unregister subject.now path.now) result }
{
    match permitted(view, asking, subject) {
        Ok(facts) => unregister_for(alloc, view, asking, facts, path),
        Err(cause) => asking.refuse(alloc, cause),
    }
}
