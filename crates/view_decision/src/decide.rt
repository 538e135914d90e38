// The decision on a subject of known facts.
ghost use Rattle.std.specs.Prelude.{◌≡◌};
ghost use Rattle.std.specs.Option.{option_map};
ghost use Rattle.authority_model.specs.Facts.{facts_seen};
ghost use Rattle.authority_model.specs.Grants.{kept};
ghost use Rattle.authority_model.specs.Small.{IsShort};
ghost use Rattle.authority_model.specs.Deciding.{decision_for};
ghost use Rattle.authority_model.specs.Deciding as deciding;
ghost use Rattle.check_decision.specs.DecisionRef.{decision_seen};
ghost use Rattle.journal_view.specs.Seen.{ForHistory};

use crate::implying::least_implying;
use authority_model::{Facts, RuleSource};
use check_decision::{DecisionRef, is_auth, is_yes};
use journal_view::JournalView;
use pk_types::{Implicit, Text};

/// The decision by a value alone that is not yes.
fn by_value<'a>(value: Implicit, source: RuleSource) -> DecisionRef<'a>
    ensures value { decision_seen result ≡ deciding.by_value value source }
{
    if is_auth(value) {
        DecisionRef::Challenge(value, source)
    } else {
        DecisionRef::No(source)
    }
}

/// The decision where the action has this value: uid 0, a yes of the value, the least live
/// temporary authorization, the least action that implies this one, and then the value, in this
/// order.
fn decided<'a, V: JournalView>(
    view: &'a V,
    facts: &Facts<'_>,
    moment: u64,
    action: &Text,
    value: (Implicit, RuleSource),
) -> DecisionRef<'a>
    requires rules { IsShort (V.seen view.now).loaded.policy.entries }
    ensures decided { ForHistory (V.seen view.now) (λ past.
        decision_seen result ≡ deciding.decided past (kept past) (facts_seen facts.now) moment action.now value) }
{
    if facts.uid == 0 {
        return DecisionRef::Root;
    }
    let (value, source) = value;
    if is_yes(value) {
        return DecisionRef::Yes(source);
    }
    if let Some(grant) = view.grant(facts.key, action, moment) {
        return DecisionRef::Grant(grant.id);
    }
    match least_implying(view, facts, moment, action) {
        Some(id) => DecisionRef::Imply(id),
        None => by_value(value, source),
    }
}

/// The decision on a subject of these facts at a moment, in seconds. The answer is `None` exactly
/// for an action that is not in the policy in force.
pub fn decision<'a, V: JournalView>(
    view: &'a V,
    facts: &Facts<'_>,
    moment: u64,
    action: &Text,
) -> Option<DecisionRef<'a>>
    requires rules { IsShort (V.seen view.now).loaded.policy.entries }
    ensures decision { ForHistory (V.seen view.now) (λ past.
        option_map decision_seen result ≡ decision_for past (kept past) (facts_seen facts.now) moment action.now) }
{
    match view.implicit(facts.uid, facts.category, action) {
        Some(value) => Some(decided(view, facts, moment, action, value)),
        None => None,
    }
}
