// The verdict on the return of a challenge, by the decision that is taken then.
ghost use Rattle.std.specs.Prelude.{◌≡◌, if◌then◌else◌, IfOk};
ghost use Rattle.std.specs.Option.{option_map};
ghost use Rattle.authority_model.specs.Grants.{kept, made};
ghost use Rattle.authority_model.specs.Keys.{uid_of_key};
ghost use Rattle.authority_model.specs.Lists as lists;
ghost use Rattle.authority_model.specs.Values as values;
ghost use Rattle.authority_model.specs.Small.{IsShort};
ghost use Rattle.authority_model.specs.Deciding.{decision_of};
ghost use Rattle.authority_model.specs.Verdicts as verdicts;
ghost use Rattle.check_decision.specs.DecisionRef.{decision_seen};
ghost use Rattle.journal_view.specs.Seen.{ForHistory};

use crate::decide::decision;
use authority_model::{Key, Pending, Reason, Verdict};
use check_decision::{DecisionRef, granted, is_keep, may_answer, no, verdict};
use journal_view::{JournalView, facts_of_key};
use pk_types::{Identity, Implicit, NoMemory, Text};
use std::alloc::Global;

/// The decision for a key at a moment, and `None` for an unknown action or subject.
fn decision_for_key<'a, V: JournalView>(
    view: &'a V,
    moment: u64,
    key: &Key,
    action: &Text,
) -> Option<DecisionRef<'a>>
    requires rules { IsShort (V.seen view.now).loaded.policy.entries }
    ensures decision { ForHistory (V.seen view.now) (λ past.
        option_map decision_seen result ≡ decision_of past (kept past) moment key.now action.now) }
{
    match facts_of_key(&view.loaded().world, key.borrowed()) {
        Some(facts) => decision(view, &facts, moment, action),
        None => None,
    }
}

/// The verdict where an identity answered a challenge that is still due: yes if it may answer now.
fn answered<V: JournalView>(
    alloc: Global,
    view: &V,
    key: &Key,
    identity: Identity,
    value: Implicit,
) -> Result<Verdict, NoMemory>
    ensures verdict { ForHistory (V.seen view.now) (λ past. IfOk result (λ v. v ≡ (
        if verdicts.may_answer past value (uid_of_key key.now) identity
        then verdicts.granted_by (lists.when (values.is_keep value) (made past))
        else verdicts.no_by Reason.IdentityGone))) }
{
    if !may_answer(alloc, view.loaded(), value, key.uid(), identity)? {
        return Ok(no(alloc, Reason::IdentityGone));
    }
    let made = view.counts().made;
    let grant = if is_keep(value) { Some(made) } else { None };
    Ok(granted(alloc, grant))
}

/// The verdict for a key that an identity answered for, by the decision that is given now.
fn redecided<V: JournalView>(
    alloc: Global,
    view: &V,
    key: &Key,
    identity: Identity,
    decision: &DecisionRef<'_>,
) -> Result<Verdict, NoMemory>
    ensures verdict { ForHistory (V.seen view.now) (λ past.
        IfOk result (λ v. v ≡ verdicts.redecided past (made past) key.now identity (decision_seen decision.now))) }
{
    match decision {
        DecisionRef::Challenge(value, _) => answered(alloc, view, key, identity, *value),
        DecisionRef::Root
        | DecisionRef::Yes(_)
        | DecisionRef::Grant(_)
        | DecisionRef::Imply(_)
        | DecisionRef::No(_) => verdict(alloc, &view.loaded().policy, decision),
    }
}

/// The verdict on the return of a challenge that an identity answered.
fn answered_verdict<V: JournalView>(
    alloc: Global,
    view: &V,
    moment: u64,
    challenge: &Pending,
    identity: Identity,
) -> Result<Verdict, NoMemory>
    requires rules { IsShort (V.seen view.now).loaded.policy.entries }
    ensures verdict { ForHistory (V.seen view.now) (λ past.
        IfOk result (λ v. v ≡ verdicts.answered_verdict past (kept past) (made past) moment challenge.now identity)) }
{
    match decision_for_key(view, moment, &challenge.key, &challenge.action) {
        Some(decision) => redecided(alloc, view, &challenge.key, identity, &decision),
        None => Ok(no(alloc, Reason::ActionGone)),
    }
}

/// The verdict on the return of a challenge at a moment, in seconds. A temporary authorization that
/// is made for it gets the number of those that were made before.
///
/// Without an answer it is a no. With one the check is decided again, and a challenge that is still
/// due is yes where the identity may answer it now. It fails only for want of memory.
pub fn return_verdict<V: JournalView>(
    alloc: Global,
    view: &V,
    moment: u64,
    challenge: &Pending,
) -> Result<Verdict, NoMemory>
    requires rules { IsShort (V.seen view.now).loaded.policy.entries }
    ensures verdict { ForHistory (V.seen view.now) (λ past.
        IfOk result (λ v. v ≡ verdicts.return_verdict past (kept past) (made past) moment challenge.now)) }
{
    match challenge.answered {
        Some(identity) => answered_verdict(alloc, view, moment, challenge, identity),
        None => Ok(no(alloc, Reason::Challenge)),
    }
}
