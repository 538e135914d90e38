// What a pass knows.
ghost use Rattle.history_lock.specs.Known.{Known};
ghost use Rattle.history_lock.specs.Calls.{Learned};
ghost use Rattle.authority_model.specs.declared.event.Event.{Event};
ghost use Rattle.authority_model.specs.declared.journal.Item.{Item};
ghost use Rattle.authority_model.specs.declared.journal.Limits.{Limits};
ghost use Rattle.authority_model.specs.declared.load.Loaded.{Loaded};
ghost use Rattle.authority_model.specs.Given.{Given};
ghost use Rattle.shared_authority.specs.declared.collecting.CollectRefused.{CollectRefused};
ghost use Rattle.shared_authority.specs.declared.refused.SubmitLoadRefused.{SubmitLoadRefused};
ghost use Rattle.shared_authority.specs.declared.refused.SubmitRefused.{SubmitRefused};
ghost use Rattle.shared_authority.specs.Journals.{IsJournal, caller_of};
ghost use Rattle.shared_authority.specs.Passes.{CollectIsRefused, Entered, SubmitIsRefused, SubmitLoadIsRefused};
ghost use Rattle.connection_laws.specs.Knowing.{KnowsMore};

/// A pass that goes on knows no less: whether others' items came, or its own behind them.
pub fn passes_learn()
    ensures alone { (v : Known Item) → IsJournal v.history → KnowsMore v v }
    ensures others { (v w : Known Item) → Learned caller_of IsJournal v w → KnowsMore v w }
    ensures own { (v : Known Item) (g : Given) (w : Known Item) → Entered v g w → KnowsMore v w }
    ensures further { (u v w : Known Item) → KnowsMore u v → KnowsMore v w → KnowsMore u w }
{}

/// Where nothing was entered, only others' items came.
pub fn refusals_tell_of_others()
    ensures event { (limits : Limits) (v : Known Item) (event : Event) (refused : SubmitRefused) (w : Known Item) → SubmitIsRefused limits v event refused w → Learned caller_of IsJournal v w }
    ensures load { (limits : Limits) (v : Known Item) (loaded : Loaded) (refused : SubmitLoadRefused) (w : Known Item) → SubmitLoadIsRefused limits v loaded refused w → Learned caller_of IsJournal v w }
    ensures collect { (limits : Limits) (v : Known Item) (refused : CollectRefused) (w : Known Item) → CollectIsRefused limits v refused w → Learned caller_of IsJournal v w }
{}
