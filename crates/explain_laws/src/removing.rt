// What it changes to take a rule out of a policy.
ghost use Rattle.std.specs.Prelude.{ℕ, ◌≡◌, ◌≢◌, ◌↔◌, Some};
ghost use Rattle.authority_model.specs.declared.load.Loaded.{Loaded};
ghost use Rattle.authority_model.specs.declared.policy.Policy.{Policy};
ghost use Rattle.authority_model.specs.declared.world.World.{World};
ghost use Rattle.authority_model.specs.Rules.{implicit};
ghost use Rattle.explain_laws.specs.Without.{MattersNot, implicit_without};
ghost use Rattle.pkexplain_tool.specs.Cases.{cases_of, first_decided};
ghost use Rattle.pkexplain_tool.specs.Dead.{IsDead};
ghost use Rattle.pkexplain_tool.specs.declared.case.Case.{Case};

/// A rule is dead exactly where no user of the world but root is decided otherwise without it.
pub fn dead_rules_matter_not()
    ensures exactly { (policy : Policy) (world : World) (place : ℕ) → IsDead policy world place ↔ MattersNot policy world place }
{}

/// Without a live rule the first case that it decides is decided by something else.
pub fn live_rules_matter()
    ensures other { (loaded : Loaded) (place : ℕ) (first : Case) → first_decided loaded (cases_of loaded) place ≡ Some first
        → implicit_without place loaded.policy loaded.world first.uid first.category first.action
        ≢ implicit loaded.policy loaded.world first.uid first.category first.action }
{}
