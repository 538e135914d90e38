// The implicit value of an action for a user, and what gave it.
ghost use Rattle.std.specs.Prelude.{◌≡◌, flat_map, Some};
ghost use Rattle.std.specs.Option.{option_map};
ghost use Rattle.authority_model.specs.Rules.{deciding, greatest, implicit, places_of_row};
ghost use Rattle.authority_model.specs.Small.{IsShort};
ghost use Rattle.policy_decide.specs.Walks.{group_places, rule_seen};
ghost use Rattle.rulebook.specs.Indexes.{IsIndexOf};

use crate::index::RuleIndex;
use crate::rows::WorldRows;
use crate::search::{Search, last_at};
use authority_model::{Policy, RuleSource, User};
use pk_types::{Category, Implicit, Text};
use policy_decide::value_by;

/// The last rule that matches at the place of a group.
fn last_of_group<'a, R: WorldRows>(
    index: &RuleIndex,
    policy: &'a Policy,
    world: &R,
    gid: u32,
    category: Category,
    action: &Text,
) -> Search<'a>
    requires index { IsIndexOf policy.now index.now }
    ensures last { option_map rule_seen result.rule ≡ greatest policy.now action.now category (group_places (R.world world.now) gid) }
{
    match world.group(gid) {
        Some(row) => last_at(index, policy, action, category, &row.label),
        None => Search {
            rule: None,
            visited: 0,
        },
    }
}

/// The rule that decides at the places of these groups.
fn greatest_of_groups<'a, R: WorldRows>(
    index: &RuleIndex,
    policy: &'a Policy,
    world: &R,
    gids: &[u32],
    category: Category,
    action: &Text,
) -> Search<'a>
    requires index { IsIndexOf policy.now index.now }
    ensures greatest { option_map rule_seen result.rule
        ≡ greatest policy.now action.now category (flat_map (group_places (R.world world.now)) gids.now) }
{
    let mut visited = 0u32;
    for i in (0..gids.len()).rev() {
        let found = last_of_group(index, policy, world, gids[i], category, action);
        visited = visited.saturating_add(found.visited);
        if found.rule.is_some() {
            return Search {
                rule: found.rule,
                visited,
            };
        }
    }
    Search {
        rule: None,
        visited,
    }
}

/// The rule that decides at the places of a user: its own comes last, and before it those of its
/// groups.
fn greatest_of_user<'a, R: WorldRows>(
    index: &RuleIndex,
    policy: &'a Policy,
    world: &R,
    user: &User,
    category: Category,
    action: &Text,
) -> Search<'a>
    requires index { IsIndexOf policy.now index.now }
    ensures greatest { option_map rule_seen result.rule
        ≡ greatest policy.now action.now category (places_of_row (R.world world.now) user.now) }
{
    let own = last_at(index, policy, action, category, &user.label);
    if own.rule.is_some() {
        return own;
    }
    let others = greatest_of_groups(index, policy, world, user.gids.as_slice(), category, action);
    Search {
        rule: others.rule,
        visited: own.visited.saturating_add(others.visited),
    }
}

/// The rule that decides for a user. A user without a row has no place.
fn deciding<'a, R: WorldRows>(
    index: &RuleIndex,
    policy: &'a Policy,
    world: &R,
    uid: u32,
    category: Category,
    action: &Text,
) -> Search<'a>
    requires index { IsIndexOf policy.now index.now }
    ensures deciding { option_map rule_seen result.rule ≡ deciding policy.now (R.world world.now) uid category action.now }
{
    match world.user(uid) {
        Some(row) => greatest_of_user(index, policy, world, row, category, action),
        None => Search {
            rule: None,
            visited: 0,
        },
    }
}

/// The implicit value of an action.
#[derive(Clone, Copy)]
pub struct Found {
    pub value: Implicit,
    /// What gave the value: a rule, or the default of the action.
    pub source: RuleSource,
    /// How many rules were looked at, at most 2^32 - 1.
    pub visited: u32,
}

/// The implicit value of an action for a user in a category, and what gave it.
pub fn implicit<R: WorldRows>(
    index: &RuleIndex,
    policy: &Policy,
    world: &R,
    uid: u32,
    category: Category,
    action: &Text,
) -> Option<Found>
    requires index { IsIndexOf policy.now index.now }
    requires entries { IsShort policy.now.entries }
    ensures implicit { option_map (λ f. (f.value, f.source)) result
        ≡ implicit policy.now (R.world world.now) uid category action.now }
{
    match index.action(policy, action) {
        Some(found) => {
            let rule = deciding(index, policy, world, uid, category, action);
            let (value, source) = value_by(category, found, rule.rule);
            Some(Found {
                value,
                source,
                visited: rule.visited,
            })
        }
        None => None,
    }
}
