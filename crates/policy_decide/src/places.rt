// The identity places of a user, and the rule that decides there.
ghost use Rattle.std.specs.Prelude.{◌≡◌, flat_map};
ghost use Rattle.std.specs.Option.{option_map};
ghost use Rattle.authority_model.specs.Rules.{deciding, greatest, places_of_row};
ghost use Rattle.authority_model.specs.Small.{IsShort};
ghost use Rattle.policy_decide.specs.Walks.{rule_seen, group_places};

use crate::rules::{Rule, last_of};
use authority_model::{Policy, User, World};
use pk_types::{Category, Text};

/// The last rule that matches at the place of a group.
fn last_of_group<'a>(
    policy: &'a Policy,
    world: &World,
    gid: u32,
    category: Category,
    action: &Text,
) -> Option<Rule<'a>>
    requires entries { IsShort policy.now.entries }
    ensures last { option_map rule_seen result ≡ greatest policy.now action.now category (group_places world.now gid) }
{
    match world.group(gid) {
        Some(row) => last_of(policy.entries.as_slice(), action, category, &row.label),
        None => None,
    }
}

/// The rule that decides at the places of these groups: the last one that matches at the last place
/// at which one matches.
fn greatest_of_groups<'a>(
    policy: &'a Policy,
    world: &World,
    gids: &[u32],
    category: Category,
    action: &Text,
) -> Option<Rule<'a>>
    requires entries { IsShort policy.now.entries }
    ensures greatest { option_map rule_seen result ≡ greatest policy.now action.now category (flat_map (group_places world.now) gids.now) }
{
    for i in (0..gids.len()).rev() {
        let found = last_of_group(policy, world, gids[i], category, action);
        if found.is_some() {
            return found;
        }
    }
    None
}

/// The rule that decides at the places of a user: its own comes last, and before it those of its
/// groups.
fn greatest_of_user<'a>(
    policy: &'a Policy,
    world: &World,
    user: &User,
    category: Category,
    action: &Text,
) -> Option<Rule<'a>>
    requires entries { IsShort policy.now.entries }
    ensures greatest { option_map rule_seen result ≡ greatest policy.now action.now category (places_of_row world.now user.now) }
{
    match last_of(policy.entries.as_slice(), action, category, &user.label) {
        Some(rule) => Some(rule),
        None => greatest_of_groups(policy, world, user.gids.as_slice(), category, action),
    }
}

/// The rule that decides for a user. A user without a row has no place.
pub fn deciding<'a>(
    policy: &'a Policy,
    world: &World,
    uid: u32,
    category: Category,
    action: &Text,
) -> Option<Rule<'a>>
    requires entries { IsShort policy.now.entries }
    ensures deciding { option_map rule_seen result ≡ deciding policy.now world.now uid category action.now }
{
    match world.user(uid) {
        Some(row) => greatest_of_user(policy, world, row, category, action),
        None => None,
    }
}
