// What an orderly journal says of Connects, loads and Stops.
ghost use Rattle.std.specs.Prelude.{◌≡◌, ◌⊎◌, ℕ, List, None, Some, true};
ghost use Rattle.authority_model.specs.declared.event.Event.{Event};
ghost use Rattle.authority_model.specs.declared.event.Event.TheVariants.{Connect};
ghost use Rattle.authority_model.specs.declared.journal.Item.{Item};
ghost use Rattle.journal_scan.specs.declared.lines.ConnectionLine.{ConnectionLine};
ghost use Rattle.journal_scan.specs.Callers.{Belongs};
ghost use Rattle.journal_scan.specs.Lines.{is_sighter, uid_on};
ghost use Rattle.journal_scan.specs.Loading.{ends_load, is_stop};
ghost use Rattle.journal_scan.specs.Sightings.{IsSighting};

/// What follows of an item that belongs to a connection with a line, to the sighter of one, or to the
/// server: a Connect has a line with its caller and its uid, a Load and a LoadFailed are by caller 0 or
/// a sighting of a line's sighter, and a Stop is by a caller without a line.
pub fn items_belong()
    ensures connects { (lines : List ConnectionLine) (past : List Item) (i : Item) (uid : ℕ) → Belongs lines past i → i.entry.event ≡ Connect uid → uid_on lines i.entry.caller ≡ Some uid }
    ensures loads { (lines : List ConnectionLine) (past : List Item) (i : Item) → Belongs lines past i → ends_load i.entry.event ≡ true → (i.entry.caller ≡ 0) ⊎ ((is_sighter lines i.entry.caller ≡ true) × IsSighting past i) }
    ensures stops { (lines : List ConnectionLine) (past : List Item) (i : Item) → Belongs lines past i → is_stop i.entry.event ≡ true → uid_on lines i.entry.caller ≡ None }
{}
