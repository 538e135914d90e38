// Decisions without an entry.
ghost use Rattle.std.specs.Prelude.{◌<◌};

use crate::calls::{decide, load};
use authority_core::{Authority, Limits};
use authority_model::{Action, ActionList, Decision, Loaded, Process, ProcessList, RuleSource};
use pk_types::{Category, Implicit, List, NoMemory, Subject, Text};
use std::alloc::Global;
use std::test::Fail;
use test_values::{action_id, text};

const LIMITS: Limits = Limits {
    entries: 1_048_576,
    bytes: 536_870_912,
};

const ANY: RuleSource = RuleSource::Default(Category::Any);

/// Pid, start and action, and what is decided.
type Case = (u32, u64, &'static str, Option<Decision>);

const DECISIONS: [Case; 6] = [
    (1, 1, "a.no", Some(Decision::Root)),
    (51, 8, "a.yes", Some(Decision::Yes(ANY))),
    (51, 8, "a.no", Some(Decision::No(ANY))),
    (
        51,
        8,
        "a.admin",
        Some(Decision::Challenge(Implicit::AuthAdmin, ANY)),
    ),
    (51, 8, "a.none", None),
    (51, 9, "a.yes", None),
];

fn action(alloc: Global, id: &str, any: Implicit) -> Result<Action, NoMemory> {
    let id = action_id(alloc, id)?;
    Ok(Action::plain(alloc, id, any, any, any))
}

fn process(pid: u32, start: u64, uid: u32) -> Process {
    Process {
        pid,
        start,
        uid,
        session: None,
    }
}

/// Id and value of an action.
const ACTIONS: [(&str, Implicit); 3] = [
    ("a.yes", Implicit::Yes),
    ("a.no", Implicit::No),
    ("a.admin", Implicit::AuthAdmin),
];

fn some_actions(alloc: Global) -> Result<ActionList, NoMemory> {
    let mut actions = List::new(alloc);
    for (id, value) in ACTIONS {
        actions.try_push(action(alloc, id, value)?)?;
    }
    Ok(actions)
}

/// Pid, start and uid of a process.
const PROCESSES: [(u32, u64, u32); 3] = [(1, 1, 0), (51, 8, 1000), (60, 9, 1001)];

fn some_processes(alloc: Global) -> Result<ProcessList, NoMemory> {
    let mut processes = List::new(alloc);
    for (pid, start, uid) in PROCESSES {
        processes.try_push(process(pid, start, uid))?;
    }
    Ok(processes)
}

fn some_load(alloc: Global) -> Result<Loaded, NoMemory> {
    let actions = some_actions(alloc)?;
    let processes = some_processes(alloc)?;
    let mut loaded = Loaded::empty(alloc);
    loaded.policy.actions = actions;
    loaded.world.processes = processes;
    Ok(loaded)
}

/// Whether the first entry is a load, at moment 5.
fn is_started(authority: &mut Authority, alloc: Global) -> Result<bool, NoMemory> {
    let loaded = some_load(alloc)?;
    Ok(load(authority, 5, loaded).ok() == Some(0))
}

/// Whether a decision is what its row says.
fn is_decided(authority: &Authority, alloc: Global, row: &Case) -> Result<bool, NoMemory> {
    let (pid, start, id, want) = *row;
    let id = text(alloc, id)?;
    Ok(decide(authority, &Subject::Process { pid, start }, &id) == want)
}

/// The case at a place.
fn case_at(place: usize) -> Case
    requires { place < 6 }
{
    DECISIONS[place]
}

/// The first case that is not decided as its row says.
fn first_undecided(
    authority: &Authority,
    alloc: Global,
) -> Result<Option<(u32, &'static str)>, NoMemory> {
    for place in 0..6 {
        let case = case_at(place);
        if !is_decided(authority, alloc, &case)? {
            return Ok(Some((case.0, case.2)));
        }
    }
    Ok(None)
}

/// Whether the authority starts, and the first case that is decided wrongly.
fn decided(
    authority: &mut Authority,
    alloc: Global,
) -> Result<(bool, Option<(u32, &'static str)>), NoMemory> {
    let started = is_started(authority, alloc)?;
    Ok((started, first_undecided(authority, alloc)?))
}

/// The same of a new authority.
fn decided_from_start(alloc: Global) -> Result<(bool, Option<(u32, &'static str)>), NoMemory> {
    let mut authority = Authority::start(alloc, LIMITS)?;
    decided(&mut authority, alloc)
}

#[test]
fn decisions_are_told(rt: HostRuntime) -> Result<(), Fail> {
    assert_eq!(rt; decided_from_start(rt.alloc())?, (true, None));
    Ok(())
}
