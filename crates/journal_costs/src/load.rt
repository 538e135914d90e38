// What a load costs: its policy, its world, and what was skipped.
ghost use Rattle.std.specs.Prelude.{◌≡◌, ◌^◌, ◌≤◌};
ghost use Rattle.authority_model.specs.Costs.{cost_of_action, cost_of_fault, cost_of_group, cost_of_load, cost_of_localized, cost_of_policy, cost_of_process, cost_of_rule, cost_of_session, cost_of_user, cost_of_world};

use crate::cost::Cost;
use crate::counted::Counted;
use authority_model::{
    Action, FileFault, Group, Loaded, Localized, Policy, Process, RuleEntry, Session, User, World,
};

/// What a load costs beside its entry, in counted bytes: 64 for each action, localized text,
/// annotation, rule entry, pair, user, group, membership, session and process, and the bytes of all
/// its texts. A cost above `MAX_COST` counts as `MAX_COST`.
///
/// It takes no memory.
pub fn cost_of_load(loaded: &Loaded) -> u64
    ensures cost { result ≡ cost_of_load loaded.now }
    ensures capped { result ≤ 2 ^ 62 }
{
    loaded
        .policy
        .cost()
        .plus(loaded.world.cost())
        .plus(loaded.faults.cost())
        .bytes()
}

impl Counted for Policy {
    ghost cost = { cost_of_policy };

    fn cost(&self) -> Cost {
        self.actions
            .cost()
            .plus(self.entries.cost())
            .plus(self.admins.cost())
    }
}

impl Counted for Action {
    ghost cost = { cost_of_action };

    fn cost(&self) -> Cost {
        Cost::of_rows(1)
            .plus(self.id.cost())
            .plus(self.descriptions.cost())
            .plus(self.messages.cost())
            .plus(self.vendor.cost())
            .plus(self.vendor_url.cost())
            .plus(self.icon.cost())
            .plus(self.annotations.cost())
    }
}

impl Counted for Localized {
    ghost cost = { cost_of_localized };

    fn cost(&self) -> Cost {
        Cost::of_rows(1)
            .plus(self.lang.cost())
            .plus(self.text.cost())
    }
}

impl Counted for RuleEntry {
    ghost cost = { cost_of_rule };

    fn cost(&self) -> Cost {
        Cost::of_rows(1)
            .plus(self.identities.cost())
            .plus(self.actions.cost())
            .plus(self.pairs.cost())
    }
}

impl Counted for World {
    ghost cost = { cost_of_world };

    fn cost(&self) -> Cost {
        self.users
            .cost()
            .plus(self.groups.cost())
            .plus(self.sessions.cost())
            .plus(self.processes.cost())
    }
}

impl Counted for User {
    ghost cost = { cost_of_user };

    fn cost(&self) -> Cost {
        Cost::of_rows(1)
            .plus(self.name.cost())
            .plus(self.label.cost())
            .plus(Cost::of_rows(self.gids.len()))
    }
}

impl Counted for Group {
    ghost cost = { cost_of_group };

    fn cost(&self) -> Cost {
        Cost::of_rows(1)
            .plus(self.name.cost())
            .plus(self.label.cost())
    }
}

impl Counted for Session {
    ghost cost = { cost_of_session };

    fn cost(&self) -> Cost {
        Cost::of_rows(1).plus(self.id.cost())
    }
}

impl Counted for Process {
    ghost cost = { cost_of_process };

    fn cost(&self) -> Cost {
        Cost::of_rows(1).plus(self.session.cost())
    }
}

impl Counted for FileFault {
    ghost cost = { cost_of_fault };

    fn cost(&self) -> Cost {
        self.file.cost().plus(self.kind.cost())
    }
}
