// Checks: the answer, or the agent that is asked (CheckAuthorization in the reference manual).
ghost use Rattle.std.specs.Prelude.{◌≡◌, ◌+◌, ◌∷◌, [], List, Some, IfOk, is_some, nat_le};
ghost use Rattle.std.specs.Option.{option_copied};
ghost use Rattle.authority_model.specs.declared.journal.Item.{Item};
ghost use Rattle.authority_model.specs.declared.message.Answer.{Answer as TheAnswer};
ghost use Rattle.authority_model.specs.Challenges.{pending_beside, with_id};
ghost use Rattle.entry_changes.specs.Changes.{begun_next};
ghost use Rattle.authority_model.specs.Facts.{facts_seen};
ghost use Rattle.authority_model.specs.Items.{policy_of, sent};
ghost use Rattle.authority_model.specs.Rules.{action_of};
ghost use Rattle.authority_model.specs.Small.{IsShort};
ghost use Rattle.authority_model.specs.Trust.{owner as owner_of};
ghost use Rattle.authority_model.specs.Verdicts.{verdict_of};
ghost use Rattle.check_decision.specs.DecisionRef.{decision_seen};
ghost use Rattle.journal_view.specs.Seen.{IsSeenOf};
ghost use Rattle.event_answers.specs.Asked.{AnswersCall, ChangesByCall, IsAsked, IsOfAsked, TellsAsker, reply_of, unchanged};
ghost use Rattle.event_answers.specs.Checks.{IsActionOf, OpensCheck, OpensKnown, TellsCheck, TellsKnown};
ghost use Rattle.event_answers.specs.Checks.{agent_asked as asked_of, begin_of, begun_seen, challenge_by, check_call, copied_of, is_trusted, shown_of, text_shown};
ghost use Rattle.event_answers.specs.Checks.{opened_at, opened_checked, opened_for, opened_if_free, opened_known, opened_of, opened_told};
ghost use Rattle.event_answers.specs.Checks.{told_by_agent, told_by_challenge, told_by_decision, told_for_action, told_for_facts, told_if_free};

use crate::answered::{Answered, challenges_changed, nothing, one_output};
use crate::asking::Asking;
use authority_model::{
    Action, Agent, Answer, Cookie, ErrorCause, Facts, Key, MAX_PENDING, Message, Output,
    OutputList, Pending, RuleSource, allows_interaction, localized,
};
use check_decision::{DecisionRef, allowed, owns, verdict};
use entry_changes::ChallengeChange;
use journal_view::{JournalView, agent_for, facts};
use pk_types::{IdentityList, Implicit, NoMemory, PairList, Subject, Text, TryCopy};
use std::alloc::Global;
use view_decision::decision;

/// What a check asks.
#[derive(Clone, Copy)]
pub struct Check<'a> {
    pub asking: Asking,
    pub subject: &'a Subject,
    pub action: &'a Text,
    pub details: &'a PairList,
    /// Whether the flags allow that a user is asked: `authority_model::allows_interaction`.
    pub flags: u32,
    /// The cancellation id; empty for none.
    pub cancel: &'a Text,
}

/// What a challenge keeps of its check: the cancellation id, the action and the key of the subject.
#[derive(Drop)]
struct Copied {
    cancel: Text,
    action: Text,
    key: Key,
}

/// What an agent shows of an action: its id, the text and the icon.
#[derive(Drop)]
struct Shown {
    id: Text,
    text: Text,
    icon: Text,
}

/// What an agent is told beside the check: its cookie and who may answer.
#[derive(Drop)]
struct Begun {
    cookie: Cookie,
    identities: IdentityList,
}

/// The message that an agent shows: the one of its locale, or an empty one.
fn message(alloc: Global, action: &Action, agent: &Agent) -> Result<Text, NoMemory>
    ensures message { IfOk result (λ text. text ≡ text_shown action.now agent.now) }
{
    match localized(&action.messages, &agent.locale) {
        Some(text) => text.try_copy(),
        None => Ok(Text::new(alloc)),
    }
}

/// Whether the owners of an action cover the caller.
fn owner<V: JournalView>(view: &V, asking: Asking, id: &Text, action: &Action) -> bool
    ensures owner { (past : List Item) → IsAsked past (V.seen view.now) asking → action_of (policy_of past) id.now ≡ Some action.now
        → result ≡ owner_of past asking.to.caller id.now }
{
    owns(&view.loaded().world, asking.peer.uid, action)
}

/// Whether the caller of a check may ask about a subject of these facts, and hand in its details.
fn trusts<V: JournalView>(view: &V, check: &Check, action: &Action, facts: Facts) -> bool
    ensures trusts { (past : List Item) → IsAsked past (V.seen view.now) check.now.asking → IsActionOf past check.now action.now
        → result ≡ is_trusted past check.now (facts_seen facts.entry) }
{
    let own = match check.details.as_slice() {
        [] => check.asking.may_for(facts.uid),
        _ => check.asking.is_root(),
    };
    own || owner(view, check.asking, check.action, action)
}

/// Whether the user of the caller has as many pending checks as are allowed.
fn is_full<V: JournalView>(view: &V, asking: Asking) -> bool
    ensures full { IsOfAsked (V.seen view.now) asking result (λ past. nat_le MAX_PENDING (pending_beside past asking.to.caller)) }
{
    view.count_of_uid(asking.peer.uid) as usize >= MAX_PENDING
}

/// What an agent is told to be asked for this value.
fn next_begun<V: JournalView>(
    alloc: Global,
    view: &V,
    salt: u128,
    facts: Facts,
    value: Implicit,
) -> Result<Begun, NoMemory>
    ensures begun { (past : List Item) → IsSeenOf past (V.seen view.now)
        → IfOk result (λ b. begun_seen b ≡ begun_next past salt (facts_seen facts.entry) value) }
{
    let Some(serial) = view.counts().opened.checked_add(1) else {
        return Err(NoMemory);
    };
    let identities = allowed(alloc, view.loaded(), value, facts.uid)?;
    Ok(Begun {
        cookie: Cookie { serial, salt },
        identities,
    })
}

/// What an agent shows of an action.
fn show(alloc: Global, action: &Action, agent: &Agent) -> Result<Shown, NoMemory>
    ensures shown { IfOk result (λ s. s ≡ shown_of action.now agent.now) }
{
    Ok(Shown {
        id: action.id.text().try_copy()?,
        text: message(alloc, action, agent)?,
        icon: action.icon.try_copy()?,
    })
}

/// What is sent to an agent to ask it.
fn begin(
    alloc: Global,
    check: &Check,
    action: &Action,
    agent: &Agent,
    begun: &Begun,
) -> Result<Output, NoMemory>
    ensures begin { IfOk result (λ o. o ≡ begin_of check.now action.now agent.now begun.now) }
{
    let path = agent.path.try_copy()?;
    let identities = begun.identities.try_copy()?;
    let details = check.details.try_copy()?;
    let Shown { id, text, icon } = show(alloc, action, agent)?;
    Ok(Output {
        to: agent.caller,
        message: Message::Begin {
            path,
            action: id,
            text,
            icon,
            details,
            cookie: begun.cookie,
            identities,
        },
    })
}

/// The only output of a check that asks an agent.
fn begin_alone(
    alloc: Global,
    check: &Check,
    action: &Action,
    agent: &Agent,
    begun: &Begun,
) -> Result<OutputList, NoMemory>
    ensures begin { IfOk result (λ outputs. outputs ≡ begin_of check.now action.now agent.now begun.now ∷ []) }
{
    let output = begin(alloc, check, action, agent, begun)?;
    one_output(alloc, output)
}

/// The serial of the next message to a connection.
fn next_serial<V: JournalView>(view: &V, caller: u32) -> Result<u32, NoMemory>
    ensures serial { (past : List Item) → IsSeenOf past (V.seen view.now)
        → IfOk result (λ serial. serial ≡ sent past caller + 1) }
{
    match view.sent_count(caller).checked_add(1) {
        Some(serial) => Ok(serial),
        None => Err(NoMemory),
    }
}

/// Copies what a challenge keeps of its check.
fn copy_asked(check: &Check, facts: Facts) -> Result<Copied, NoMemory>
    ensures copied { IfOk result (λ c. c ≡ copied_of check.now (facts_seen facts.entry)) }
{
    Ok(Copied {
        cancel: check.cancel.try_copy()?,
        action: check.action.try_copy()?,
        key: facts.key.try_own()?,
    })
}

/// The challenge that a check opens, by what its agent is told.
fn challenge<V: JournalView>(
    view: &V,
    check: &Check,
    facts: Facts,
    agent: &Agent,
    value: (Implicit, RuleSource),
    begun: Begun,
) -> Result<Pending, NoMemory>
    ensures row { (past : List Item) → IsSeenOf past (V.seen view.now)
        → IfOk result (λ row. row ≡ challenge_by (facts_seen facts.entry) value agent.now begun past check.now) }
{
    let (value, source) = value;
    let Asking { to, peer, .. } = check.asking;
    let Begun { cookie, identities } = begun;
    let agent_serial = next_serial(view, agent.caller)?;
    let Copied {
        cancel,
        action,
        key,
    } = copy_asked(check, facts)?;
    let agent_path = agent.path.try_copy()?;
    let agent_key = agent.key.try_copy()?;
    Ok(Pending {
        entry: view.counts().entries,
        asker: to.caller,
        asker_uid: peer.uid,
        serial: to.serial,
        quiet: to.quiet,
        cancel,
        key,
        action,
        value,
        source,
        cookie,
        identities,
        agent: agent.caller,
        agent_serial,
        agent_key,
        agent_path,
        answered: None,
    })
}

/// Asks an agent.
fn ask<V: JournalView>(
    alloc: Global,
    view: &V,
    check: &Check,
    action: &Action,
    facts: Facts,
    agent: &Agent,
    value: (Implicit, RuleSource),
) -> Result<Answered, NoMemory>
    ensures outputs { TellsCheck (V.seen view.now) check.now result (told_by_agent (facts_seen facts.entry) action.now value agent.now) }
    ensures change { OpensCheck (V.seen view.now) check.now result (opened_at (facts_seen facts.entry) value agent.now) }
{
    let begun = next_begun(alloc, view, check.asking.occasion.salt, facts, value.0)?;
    let outputs = begin_alone(alloc, check, action, agent, &begun)?;
    let row = challenge(view, check, facts, agent, value, begun)?;
    Ok(Answered {
        outputs,
        change: challenges_changed(ChallengeChange::Begun(row)),
    })
}

/// Asks an agent, unless the caller's user has too many pending checks.
fn ask_if_free<V: JournalView>(
    alloc: Global,
    view: &V,
    check: &Check,
    action: &Action,
    facts: Facts,
    agent: &Agent,
    value: (Implicit, RuleSource),
) -> Result<Answered, NoMemory>
    ensures outputs { TellsCheck (V.seen view.now) check.now result (told_if_free (facts_seen facts.entry) action.now value agent.now) }
    ensures change { OpensCheck (V.seen view.now) check.now result (opened_if_free (facts_seen facts.entry) value agent.now) }
{
    if is_full(view, check.asking) {
        return check.asking.refuse(alloc, ErrorCause::TooManyPending);
    }
    ask(alloc, view, check, action, facts, agent, value)
}

/// Answers a check by the verdict of its decision. Nothing is changed.
fn tell_verdict<V: JournalView>(
    alloc: Global,
    view: &V,
    asking: Asking,
    decision: &DecisionRef,
) -> Result<Answered, NoMemory>
    ensures outputs { TellsAsker (V.seen view.now) asking result (λ past.
        reply_of asking.to (TheAnswer.Verdict (verdict_of past (decision_seen decision.now)))) }
    ensures change { IfOk result (λ a. a.change ≡ unchanged) }
{
    let verdict = verdict(alloc, &view.loaded().policy, decision)?;
    asking.answer(alloc, Answer::Verdict(verdict))
}

/// The agent that a check may ask: with these flags, and where there is one for its subject.
fn agent_asked<'a, V: JournalView>(view: &'a V, flags: u32, facts: Facts) -> Option<&'a Agent>
    ensures agent { (past : List Item) → IsSeenOf past (V.seen view.now)
        → option_copied result ≡ asked_of past flags (facts_seen facts.entry) }
{
    if allows_interaction(flags) {
        agent_for(view, facts)
    } else {
        None
    }
}

/// Asks the agent of a check whose decision is a challenge, or answers the challenge.
fn tell_challenge<V: JournalView>(
    alloc: Global,
    view: &V,
    check: &Check,
    action: &Action,
    facts: Facts,
    value: (Implicit, RuleSource),
) -> Result<Answered, NoMemory>
    ensures outputs { TellsCheck (V.seen view.now) check.now result (told_by_challenge (facts_seen facts.entry) action.now value) }
    ensures change { OpensCheck (V.seen view.now) check.now result (opened_for (facts_seen facts.entry) value) }
{
    match agent_asked(view, check.flags, facts) {
        Some(agent) => ask_if_free(alloc, view, check, action, facts, agent, value),
        None => {
            let decision = DecisionRef::Challenge(value.0, value.1);
            tell_verdict(alloc, view, check.asking, &decision)
        }
    }
}

/// Answers a check by its decision, or asks an agent.
fn tell<V: JournalView>(
    alloc: Global,
    view: &V,
    check: &Check,
    action: &Action,
    facts: Facts,
    decision: &DecisionRef,
) -> Result<Answered, NoMemory>
    ensures outputs { TellsCheck (V.seen view.now) check.now result
        (told_by_decision (facts_seen facts.entry) action.now (decision_seen decision.now)) }
    ensures change { OpensCheck (V.seen view.now) check.now result (opened_told (facts_seen facts.entry) (decision_seen decision.now)) }
{
    match decision {
        DecisionRef::Challenge(value, source) => {
            tell_challenge(alloc, view, check, action, facts, (*value, *source))
        }
        DecisionRef::Root
        | DecisionRef::Yes(_)
        | DecisionRef::Grant(_)
        | DecisionRef::Imply(_)
        | DecisionRef::No(_) => tell_verdict(alloc, view, check.asking, decision),
    }
}

/// Answers a check of a known action by a subject of these facts.
fn check_for<V: JournalView>(
    alloc: Global,
    view: &V,
    check: &Check,
    action: &Action,
    facts: Facts,
) -> Result<Answered, NoMemory>
    requires rules { IsShort (V.seen view.now).loaded.policy.entries }
    ensures outputs { TellsKnown (V.seen view.now) check.now action.now result (told_for_facts action.now (facts_seen facts.entry)) }
    ensures change { OpensKnown (V.seen view.now) check.now action.now result (opened_known (facts_seen facts.entry)) }
{
    if !trusts(view, check, action, facts) {
        return check.asking.refuse(alloc, ErrorCause::NotTrusted);
    }
    match decision(view, &facts, check.asking.occasion.moment, check.action) {
        Some(decision) => tell(alloc, view, check, action, facts, &decision),
        None => Ok(nothing(alloc)),
    }
}

/// Answers a check of a known action.
fn check_known<V: JournalView>(
    alloc: Global,
    view: &V,
    check: &Check,
    action: &Action,
) -> Result<Answered, NoMemory>
    requires rules { IsShort (V.seen view.now).loaded.policy.entries }
    ensures outputs { TellsKnown (V.seen view.now) check.now action.now result (told_for_action action.now) }
    ensures change { OpensKnown (V.seen view.now) check.now action.now result opened_of }
{
    match facts(view, check.subject) {
        Some(facts) => check_for(alloc, view, check, action, facts),
        None => check.asking.refuse(alloc, ErrorCause::UnknownSubject),
    }
}

/// Whether the caller has a pending check with this cancellation id, which is not empty.
fn is_in_use<V: JournalView>(view: &V, asking: Asking, id: &Text) -> bool
    ensures used { IsOfAsked (V.seen view.now) asking result (λ past. is_some (with_id past asking.to.caller id.now)) }
{
    view.of_cancel(asking.to.caller, id).is_some()
}

/// Answers a check, or asks an agent.
fn answer_new<V: JournalView>(alloc: Global, view: &V, check: &Check) -> Result<Answered, NoMemory>
    requires rules { IsShort (V.seen view.now).loaded.policy.entries }
    ensures outputs { AnswersCall (V.seen view.now) check.now.asking (check_call check.now) result }
    ensures change { OpensCheck (V.seen view.now) check.now result opened_checked }
{
    if is_in_use(view, check.asking, check.cancel) {
        return check.asking.refuse(alloc, ErrorCause::IdInUse);
    }
    match view.action(check.action) {
        Some(action) => check_known(alloc, view, check, action),
        None => check.asking.refuse(alloc, ErrorCause::UnknownAction),
    }
}

/// Answers Check: the answer, or the agent that is asked.
pub fn answer_check<V: JournalView>(
    alloc: Global,
    view: &V,
    check: &Check,
) -> Result<Answered, NoMemory>
    requires rules { IsShort (V.seen view.now).loaded.policy.entries }
    ensures outputs { AnswersCall (V.seen view.now) check.now.asking (check_call check.now) result }
    ensures change { ChangesByCall (V.seen view.now) check.now.asking (check_call check.now) result }
{
    answer_new(alloc, view, check)
}
