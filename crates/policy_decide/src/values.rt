// The implicit value of an action, and what gave it.
ghost use Rattle.std.specs.Prelude.{◌≡◌};
ghost use Rattle.std.specs.Option.{option_map};
ghost use Rattle.authority_model.specs.Rules.{value_by, implicit};
ghost use Rattle.authority_model.specs.Small.{IsShort};
ghost use Rattle.policy_decide.specs.Walks.{rule_seen};

use crate::places::deciding;
use crate::rules::Rule;
use authority_model::{Action, Policy, RuleSource, World};
use pk_types::{Category, Implicit, Text};

/// The value of an action, and what gave it: the rule, or else the action's default.
pub fn value_by(category: Category, action: &Action, rule: Option<Rule>) -> (Implicit, RuleSource)
    ensures value { result ≡ value_by category action.now (option_map rule_seen rule.entry) }
{
    match rule {
        None => (action.default_for(category), RuleSource::Default(category)),
        Some(rule) => (
            rule.entry
                .value_for(category)
                .unwrap_or(action.default_for(category)),
            RuleSource::Entry(rule.place),
        ),
    }
}

/// The implicit value of an action for a user in a category, and what gave it. The answer is `None`
/// exactly where the policy has no action of this id.
pub fn implicit(
    policy: &Policy,
    world: &World,
    uid: u32,
    category: Category,
    id: &Text,
) -> Option<(Implicit, RuleSource)>
    requires entries { IsShort policy.now.entries }
    ensures implicit { result ≡ implicit policy.now world.now uid category id.now }
{
    match policy.action(id) {
        Some(found) => {
            let rule = deciding(policy, world, uid, category, id);
            Some(value_by(category, found, rule))
        }
        None => None,
    }
}
