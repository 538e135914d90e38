// A decision, with borrowed ids.
ghost use Rattle.std.specs.Prelude.{◌≡◌, ◌<◌, IfSome, position, bytes_eq, length};
ghost use Rattle.authority_model.specs.Small.{IsShort};
ghost use Rattle.authority_model.specs.Deciding.{told_decision, place_of};
ghost use Rattle.check_decision.specs.DecisionRef.{decision_seen};

use authority_model::{Action, Decision, Policy, RuleSource};
use pk_types::{Implicit, Text};

/// The decision on a check, in which an action that implies another is named by its id.
#[derive(Clone, Copy)]
pub enum DecisionRef<'a> {
    /// Yes, since the subject's user is uid 0.
    Root,
    /// Yes, by a default or a rule.
    Yes(RuleSource),
    /// Yes, by the temporary authorization with this number.
    Grant(u64),
    /// Yes, by the action of this id, which implies the action and is allowed.
    Imply(&'a Text),
    /// A challenge of this value, by a default or a rule.
    Challenge(Implicit, RuleSource),
    /// No, by a default or a rule.
    No(RuleSource),
}

/// The first place of an action with this id.
fn first_place(actions: &[Action], id: &Text) -> Option<usize>
    ensures first { result ≡ position (λ a. bytes_eq a.id id.now) actions.now }
    ensures within { IfSome result (λ at. at < length actions.now) }
{
    actions
        .iter()
        .position(|action| action.id.text().is_same(id))
}

/// The place of the action of an id.
fn place(policy: &Policy, id: &Text) -> u32
    requires actions { IsShort policy.now.actions }
    ensures place { result ≡ place_of policy.now id.now }
{
    match first_place(policy.actions.as_slice(), id) {
        Some(at) => at as u32,
        None => 0,
    }
}

impl DecisionRef<'_> {
    /// The decision as callers are told it: an action that implies another is named by its place.
    pub fn told(&self, policy: &Policy) -> Decision
        requires actions { IsShort policy.now.actions }
        ensures told { result ≡ told_decision policy.now (decision_seen self.now) }
    {
        match self {
            DecisionRef::Root => Decision::Root,
            DecisionRef::Yes(source) => Decision::Yes(*source),
            DecisionRef::Grant(id) => Decision::Grant(*id),
            DecisionRef::Imply(id) => Decision::Imply(place(policy, id)),
            DecisionRef::Challenge(value, source) => Decision::Challenge(*value, *source),
            DecisionRef::No(source) => Decision::No(*source),
        }
    }
}
