// Puts the desk's entry at the end of the journal.
ghost use Rattle.std.specs.Prelude.{◌≡◌, ◌<◌, ◌≤◌, ◌^◌, ◌++◌, ◌∷◌, [], List, length, IfErr, IfOk, OnOk, OnErr};
ghost use Rattle.authority_model.specs.declared.journal.Entry.{Entry as TheEntry};
ghost use Rattle.authority_model.specs.Costs as costs;
ghost use Rattle.authority_model.specs.Given.{IsStepped, event_given, load_given};
ghost use Rattle.authority_laws.specs.Batches.{collect_given};
ghost use Rattle.authority_desk.specs.Seen.{CarriesOn};
ghost use Rattle.authority_core.specs.Entered.{EntersNext, IsEntered};
ghost use Rattle.authority_core.specs.Entered as entered;

use authority_desk::{Desk, DeskLoadRefused, DeskRefused};
use authority_model::{Entry, EntryList, Event, History, Loaded, LoadedList};
use journal_costs::cost_of_entry;
use pk_types::{List, NoMemory, TryCopy};
use std::alloc::Global;

/// Holds a place at the end for an entry to come, so that nothing can be refused once the desk has
/// moved on. A refusal leaves the entries as they were.
fn hold(alloc: Global, entries: &mut EntryList) -> Result<(), NoMemory>
    ensures ok { OnOk result (entries.new ≡ entries.old ++ entered.held ∷ []) }
    ensures err { OnErr result (entries.new ≡ entries.old) }
{
    entries.try_push(Entry {
        caller: 0,
        moment: 0,
        salt: 0,
        event: Event::Passed,
        outputs: List::new(alloc),
    })
}

/// Puts an entry into the place that was held for it, and answers what it costs. It takes no memory.
fn fill(entries: &mut EntryList, entry: Entry) -> u64
    requires held { 0 < length entries.old }
    ensures entered { (before : List TheEntry) (e : TheEntry) → entries.old ≡ before ++ e ∷ [] → IsEntered entry before entries.new result }
{
    let cost = cost_of_entry(&entry);
    entries.set(entries.len() - 1, entry);
    cost
}

/// Gives up the place that was held. It takes no memory.
fn give_up(entries: &mut EntryList)
    requires held { 0 < length entries.old }
    ensures given_up { (before : List TheEntry) (e : TheEntry) → entries.old ≡ before ++ e ∷ [] → entries.new ≡ before }
{
    entries.truncate(entries.len() - 1);
}

/// Puts the entry of an event at the end, carries the desk on by it, and answers what it costs. A
/// refusal gives the event back, and leaves entries and desk as they were.
pub fn enter(
    alloc: Global,
    entries: &mut EntryList,
    desk: &mut Desk,
    caller: u32,
    moment: u64,
    salt: u128,
    event: Event,
) -> Result<u64, Event>
    requires event { IsStepped event }
    requires moment { moment ≤ 2 ^ 62 }
    ensures entered { EntersNext (event_given caller moment salt event) desk.old entries.old entries.new result }
    ensures stands { CarriesOn (event_given caller moment salt event) desk.old desk.new result }
    ensures err { OnErr result (entries.new ≡ entries.old) }
    ensures same { OnErr result (desk.new ≡ desk.old) }
    ensures back { IfErr result (λ back. back ≡ event) }
{
    let Ok(()) = hold(alloc, entries) else {
        return Err(event);
    };
    match desk.step(caller, moment, salt, event) {
        Ok(entry) => Ok(fill(entries, entry)),
        Err(DeskRefused::NoMemory { event }) => {
            give_up(entries);
            Err(event)
        }
    }
}

/// Puts the entry of a Collect at the end, carries the desk on by it, and answers what it costs. A
/// refusal leaves entries and desk as they were.
pub fn enter_collect(
    alloc: Global,
    entries: &mut EntryList,
    desk: &mut Desk,
    caller: u32,
    of: u32,
) -> Result<u64, NoMemory>
    ensures entered { EntersNext (collect_given caller of) desk.old entries.old entries.new result }
    ensures stands { CarriesOn (collect_given caller of) desk.old desk.new result }
    ensures err { OnErr result (entries.new ≡ entries.old) }
    ensures same { OnErr result (desk.new ≡ desk.old) }
{
    hold(alloc, entries)?;
    match desk.collect(caller, of) {
        Ok(entry) => Ok(fill(entries, entry)),
        Err(NoMemory) => {
            give_up(entries);
            Err(NoMemory)
        }
    }
}

/// Puts a copy of a load at the end. A refusal leaves the loads as they were.
fn push_copy(loads: &mut LoadedList, loaded: &Loaded) -> Result<(), NoMemory>
    ensures ok { OnOk result (loads.new ≡ loads.old ++ loaded.now ∷ []) }
    ensures err { OnErr result (loads.new ≡ loads.old) }
{
    let copy = loaded.try_copy()?;
    loads.try_push(copy)
}

/// Holds a place for the entry of a load, and puts a copy of the load behind the others. A refusal
/// leaves the journal as it was.
fn hold_load(alloc: Global, history: &mut History, loaded: &Loaded) -> Result<(), NoMemory>
    ensures entries { OnOk result (history.new.entries ≡ history.old.entries ++ entered.held ∷ []) }
    ensures loads { OnOk result (history.new.loads ≡ history.old.loads ++ loaded.now ∷ []) }
    ensures err { OnErr result (history.new ≡ history.old) }
{
    push_copy(&mut history.loads, loaded)?;
    match hold(alloc, &mut history.entries) {
        Ok(()) => Ok(()),
        Err(NoMemory) => {
            history.loads.truncate(history.loads.len() - 1);
            Err(NoMemory)
        }
    }
}

/// Puts the entry of a load and the load at the end, carries the desk on by them, and answers what
/// the entry costs. A refusal gives the load back, and leaves journal and desk as they were.
pub fn enter_load(
    alloc: Global,
    history: &mut History,
    desk: &mut Desk,
    caller: u32,
    moment: u64,
    loaded: Loaded,
) -> Result<u64, Loaded>
    requires moment { moment ≤ 2 ^ 62 }
    ensures entered { EntersNext (load_given caller moment loaded) desk.old history.old.entries history.new.entries result }
    ensures loads { OnOk result (history.new.loads ≡ history.old.loads ++ loaded ∷ []) }
    ensures stands { CarriesOn (load_given caller moment loaded) desk.old desk.new result }
    ensures err { OnErr result (history.new ≡ history.old) }
    ensures same { OnErr result (desk.new ≡ desk.old) }
    ensures back { IfErr result (λ back. back ≡ loaded) }
{
    let Ok(()) = hold_load(alloc, history, &loaded) else {
        return Err(loaded);
    };
    match desk.load(caller, moment, loaded) {
        Ok(entry) => Ok(fill(&mut history.entries, entry)),
        Err(DeskLoadRefused::NoMemory { loaded }) => {
            give_up(&mut history.entries);
            history.loads.truncate(history.loads.len() - 1);
            Err(loaded)
        }
    }
}
