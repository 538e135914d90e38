// One entry: whether it is as it must be, and the lists after it.
ghost use Rattle.std.specs.Prelude.{◌≡◌, ℕ, List, None, IfOk};
ghost use Rattle.std.specs.Option.{option_copied};
ghost use Rattle.authority_model.specs.declared.journal.Item.{Item};
ghost use Rattle.authority_model.specs.Legal.{IsNumbered};
ghost use Rattle.journal_audit.specs.Steps.{Answers, Compared, IsDue, IsDueInOne, Judged, Turns, in_force_by};

use crate::answering::answer_entry;
use crate::clause::Clause;
use crate::judging::judge;
use authority_model::{Entry, Loaded};
use entry_changes::EntryChange;
use event_answers::Answered;
use pk_types::NoMemory;
use plain_lists::PlainLists;
use same_outputs::Same;
use std::alloc::Global;

/// What was to be changed, where the outputs are those of the entry.
fn compared(answered: Answered, entry: &Entry) -> Option<EntryChange>
    ensures same { Compared answered entry.now result }
{
    if answered.outputs.is_same(&entry.outputs) {
        Some(answered.change)
    } else {
        None
    }
}

/// What an entry changes, where it is answered as it must be; `None` where it is not.
fn changed(
    alloc: Global,
    lists: &PlainLists,
    in_force: &Loaded,
    entry: &Entry,
    loaded: Option<&Loaded>,
) -> Result<Option<EntryChange>, NoMemory>
    requires numbered { (n : ℕ) × IsNumbered n entry.now.event (option_copied loaded) }
    ensures changed { (past : List Item) (i : Item) → IsDue past i lists.now in_force.now entry.now (option_copied loaded.entry)
        → IfOk result (Answers past i) }
{
    if u32::try_from(in_force.policy.entries.len()).is_err() {
        return Err(NoMemory);
    }
    let view = lists.view(in_force)?;
    let answered = answer_entry(alloc, &view, entry, loaded)?;
    Ok(compared(answered, entry))
}

/// The load in force after an entry with this load, or with none.
pub fn in_force_after<'a>(loaded: Option<&'a Loaded>, before: &'a Loaded) -> &'a Loaded
    ensures load { result.now ≡ in_force_by (option_copied loaded.entry) before.now }
{
    match loaded {
        Some(loaded) => loaded,
        None => before,
    }
}

/// Carries the lists on by an entry that breaks no clause but maybe that it is answered.
fn turn_kept(
    alloc: Global,
    lists: &mut PlainLists,
    in_force: &Loaded,
    entry: &Entry,
    loaded: Option<&Loaded>,
) -> Result<Option<Clause>, NoMemory>
    requires one { IsDueInOne lists.old in_force.now entry.now (option_copied loaded) }
    requires kept { Judged lists.old.counts.loads lists.old.counts.last_moment entry.now (option_copied loaded) None }
    ensures turn { (past : List Item) (i : Item) → IsDue past i lists.old in_force.now entry.now (option_copied loaded.entry)
        → IfOk result (Turns past i lists.new) }
{
    let found = changed(alloc, lists, in_force, entry, loaded)?;
    match found {
        Some(change) => {
            let world = &in_force_after(loaded, in_force).world;
            lists.carry(entry, world, change)?;
            Ok(None)
        }
        None => Ok(Some(Clause::Outputs)),
    }
}

/// Judges an entry after the history of these lists, of which this load is in force, and carries the
/// lists on by it. The answer is the first clause that it breaks.
///
/// # Errors
/// `NoMemory`: the lists are of no history then.
pub fn turn(
    alloc: Global,
    lists: &mut PlainLists,
    in_force: &Loaded,
    entry: &Entry,
    loaded: Option<&Loaded>,
) -> Result<Option<Clause>, NoMemory>
    requires one { IsDueInOne lists.old in_force.now entry.now (option_copied loaded) }
    ensures turn { (past : List Item) (i : Item) → IsDue past i lists.old in_force.now entry.now (option_copied loaded.entry)
        → IfOk result (Turns past i lists.new) }
{
    match judge(lists.counts(), entry, loaded) {
        Some(clause) => Ok(Some(clause)),
        None => turn_kept(alloc, lists, in_force, entry, loaded),
    }
}
