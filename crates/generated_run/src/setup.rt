// The setup: root, eight users with a process each, and an action for each implicit value.
ghost use Rattle.std.specs.Prelude.{◌≡◌, ◌<◌, ◌∷◌, IfOk};
ghost use Rattle.generated_run.specs.Setup.{user_named, root, user, process, action, policy, world, setup, each_below};

use crate::texts::{action_id, text};
use authority_model::{
    Action, ActionList, GidList, Loaded, Policy, Process, ProcessList, User, UserList, World,
};
use pk_types::{Implicit, List, NoMemory};
use std::alloc::Global;

/// A user of this name, with its label, in these groups.
fn user_named(alloc: Global, uid: u32, name: &str, gids: GidList) -> Result<User, NoMemory>
    ensures user { IfOk result (λ made. made ≡ user_named uid name.now gids) }
{
    let label = format!(in alloc; "unix-user:{name}")?;
    let label = text(alloc, label.as_bytes())?;
    let name = text(alloc, name.as_bytes())?;
    Ok(User {
        uid,
        name,
        label,
        gids,
    })
}

/// The user root, in the group 0.
fn root(alloc: Global) -> Result<User, NoMemory>
    ensures user { IfOk result (λ made. made ≡ root) }
{
    let gids = List::try_from_slice(alloc, &[0])?;
    user_named(alloc, 0, "root", gids)
}

/// The i-th user, whose name is `u` and i.
fn user(alloc: Global, i: u32) -> Result<User, NoMemory>
    requires { i < 8 }
    ensures user { IfOk result (λ made. made ≡ user i) }
{
    let name = format!(in alloc; "u{i}")?;
    user_named(alloc, 1000 + i, name.as_str(), List::new(alloc))
}

#[tactic(auto, using(crate::proofs::Steps::each_below_none, crate::proofs::Steps::each_below_more))]
fn users(alloc: Global) -> Result<UserList, NoMemory>
    ensures users { IfOk result (λ users. users ≡ root ∷ each_below user 8) }
{
    let mut users = List::new(alloc);
    users.try_push(root(alloc)?)?;
    for i in 0..8 {
        users.try_push(user(alloc, i)?)?;
    }
    Ok(users)
}

/// The process of the i-th user.
fn process(i: u32) -> Process
    requires { i < 8 }
    ensures process { result ≡ process i }
{
    Process {
        pid: 100 + i,
        start: 1,
        uid: 1000 + i,
        session: None,
    }
}

#[tactic(auto, using(crate::proofs::Steps::each_below_none, crate::proofs::Steps::each_below_more))]
fn processes(alloc: Global) -> Result<ProcessList, NoMemory>
    ensures processes { IfOk result (λ processes. processes ≡ each_below process 8) }
{
    let mut processes = List::new(alloc);
    for i in 0..8 {
        processes.try_push(process(i))?;
    }
    Ok(processes)
}

/// The i-th action, whose value has the code i.
fn action(alloc: Global, i: u32) -> Result<Action, NoMemory>
    requires { i < 6 }
    ensures action { IfOk result (λ made. made ≡ action i) }
{
    let id = format!(in alloc; "l.{i}")?;
    let id = action_id(alloc, id.as_bytes())?;
    let value = Implicit::of_code(i).unwrap_or(Implicit::No);
    Ok(Action::plain(alloc, id, value, value, value))
}

#[tactic(auto, using(crate::proofs::Steps::each_below_none, crate::proofs::Steps::each_below_more))]
fn actions(alloc: Global) -> Result<ActionList, NoMemory>
    ensures actions { IfOk result (λ actions. actions ≡ each_below action 6) }
{
    let mut actions = List::new(alloc);
    for i in 0..6 {
        actions.try_push(action(alloc, i)?)?;
    }
    Ok(actions)
}

/// The policy: six actions, and no rule.
fn policy(alloc: Global) -> Result<Policy, NoMemory>
    ensures policy { IfOk result (λ p. p ≡ policy) }
{
    let actions = actions(alloc)?;
    Ok(Policy {
        actions,
        entries: List::new(alloc),
        admins: List::new(alloc),
    })
}

/// The world: root and eight users, and a process of each of the eight.
fn world(alloc: Global) -> Result<World, NoMemory>
    ensures world { IfOk result (λ w. w ≡ world) }
{
    let users = users(alloc)?;
    let processes = processes(alloc)?;
    Ok(World {
        users,
        groups: List::new(alloc),
        sessions: List::new(alloc),
        processes,
    })
}

/// The setup of a run.
pub fn setup(alloc: Global) -> Result<Loaded, NoMemory>
    ensures setup { IfOk result (λ loaded. loaded ≡ setup) }
{
    let policy = policy(alloc)?;
    let world = world(alloc)?;
    Ok(Loaded {
        policy,
        world,
        faults: List::new(alloc),
    })
}
