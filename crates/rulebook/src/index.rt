// The index of a policy.
ghost use Rattle.std.specs.Prelude.{◌≡◌, IfOk};
ghost use Rattle.std.specs.Option.{option_copied, option_map};
ghost use Rattle.authority_model.specs.Items.{empty_loaded};
ghost use Rattle.authority_model.specs.Rules.{action_of, implicit};
ghost use Rattle.authority_model.specs.Small.{IsShort};
ghost use Rattle.rulebook.specs.Indexes.{IsIndexOf};

use crate::build::{first_actions, put_rules};
use crate::globs::{GlobPlaces, Places};
use crate::implicit::{Found, implicit};
use crate::texts::{TextPlaces, text_place};
use authority_model::{Action, Policy, World};
use indexmap::IndexMap;
use pk_types::{Category, List, NoMemory, Text};
use std::alloc::Global;

/// An index of a policy, which is made once for each load.
///
/// Its size grows with the number and the lengths of the action ids and of the identity globs.
#[derive(Drop)]
pub struct RuleIndex {
    /// The first place of each action id.
    pub(crate) actions: TextPlaces,
    /// The places of the rules with each identity glob that has neither `*` nor `?`.
    pub(crate) exact: GlobPlaces,
    /// The places of the rules with an identity glob that has one of them.
    pub(crate) patterns: Places,
}

impl RuleIndex {
    /// The index of a policy.
    ///
    /// # Errors
    /// `NoMemory` alone.
    pub fn build(alloc: Global, policy: &Policy) -> Result<RuleIndex, NoMemory>
        ensures index { IfOk result (IsIndexOf policy.now) }
    {
        let actions = first_actions(alloc, policy.actions.as_slice())?;
        let mut exact: GlobPlaces = IndexMap::new(alloc);
        let mut patterns: Places = List::new(alloc);
        put_rules(alloc, &mut exact, &mut patterns, policy.entries.as_slice())?;
        Ok(RuleIndex {
            actions,
            exact,
            patterns,
        })
    }

    /// The index of a policy without actions and rules. It takes no memory.
    pub fn empty(alloc: Global) -> RuleIndex
        ensures index { IsIndexOf empty_loaded.policy result }
    {
        RuleIndex {
            actions: IndexMap::new(alloc),
            exact: IndexMap::new(alloc),
            patterns: List::new(alloc),
        }
    }

    /// The action of an id: the first that has it. It takes no memory.
    pub fn action<'a>(&self, policy: &'a Policy, id: &Text) -> Option<&'a Action>
        requires index { IsIndexOf policy.now self.now }
        ensures first { option_copied result ≡ action_of policy.now id.now }
    {
        match text_place(&self.actions, id) {
            Some(place) => policy.actions.get(place as usize),
            None => None,
        }
    }

    /// The implicit value of an action for a user in a category, and what gave it
    /// (pklocalauthority(8), "Evaluation Order"). The answer is `None` exactly where the policy has
    /// no action of this id. It takes no memory.
    pub fn implicit(
        &self,
        policy: &Policy,
        world: &World,
        uid: u32,
        category: Category,
        action: &Text,
    ) -> Option<Found>
        requires index { IsIndexOf policy.now self.now }
        requires entries { IsShort policy.now.entries }
        ensures implicit { option_map (λ f. (f.value, f.source)) result
            ≡ implicit policy.now world.now uid category action.now }
    {
        implicit(self, policy, world, uid, category, action)
    }
}
