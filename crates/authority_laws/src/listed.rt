// What the world in force lists.
ghost use Rattle.std.specs.Prelude.{◌≡◌, true, List};
ghost use Rattle.authority_model.specs.declared.journal.Item.{Item};
ghost use Rattle.authority_model.specs.declared.pending.Agent.{Agent};
ghost use Rattle.authority_model.specs.declared.pending.Pending.{Pending};
ghost use Rattle.authority_model.specs.declared.verdict.GrantRow.{GrantRow};
ghost use Rattle.authority_model.specs.Lists.{Has};
ghost use Rattle.authority_model.specs.Worlds.{lists_key};
ghost use Rattle.authority_model.specs.Items.{world_of};
ghost use Rattle.authority_model.specs.Agents.{in_force};
ghost use Rattle.authority_model.specs.Challenges.{pending};
ghost use Rattle.authority_model.specs.Grants.{kept};
ghost use Rattle.authority_model.specs.Legal.{Legal};

/// The process or session of each agent in force, of each pending challenge and of each temporary
/// authorization is listed in the world in force, with its user.
pub fn keys_are_listed()
    ensures agents { (past : List Item) → Legal past → (a : Agent) → Has (in_force past) a → lists_key (world_of past) a.key ≡ true }
    ensures challenges { (past : List Item) → Legal past → (ch : Pending) → Has (pending past) ch → lists_key (world_of past) ch.key ≡ true }
    ensures challenge_agents { (past : List Item) → Legal past → (ch : Pending) → Has (pending past) ch → lists_key (world_of past) ch.agent_key ≡ true }
    ensures grants { (past : List Item) → Legal past → (row : GrantRow) → Has (kept past) row → lists_key (world_of past) row.key ≡ true }
{}
