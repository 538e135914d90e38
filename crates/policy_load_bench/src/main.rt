//! Loads the tree below a root, by `load` or by `load_beside` as its first word says, and tells what
//! is loaded and how long that took. `bench/load_root` runs it.
#![tactic(auto)]

use authority_model::Loaded;
use pk_outside::Tree;
use pk_types::Text;
use policy_load::{LoadRefused, load, load_beside};
use real_outside::DirTree;
use std::rt::{Clock, Env};
use std::thread::Threads;
use std::time::Instant;
use std::{env, io};

/// The load of the root, by several threads or on one.
fn loaded<R, T>(rt: &R, tree: &mut T, word: &str, root: &Text) -> Result<Loaded, LoadRefused>
where
    R: Threads + Sync + AllocGlobal,
    T: Tree,
{
    if word == "beside" {
        load_beside(rt, rt.alloc(), tree, root)
    } else {
        load(rt.alloc(), tree, root)
    }
}

/// Loads the root, and tells of it.
fn tell<R, T>(rt: &R, tree: &mut T, word: &str, root: &Text) -> io::Result<()>
where
    R: Threads + Sync + Clock + Print + AllocGlobal,
    T: Tree,
{
    let start = Instant::now(rt)?;
    let answer = loaded(rt, tree, word, root);
    let micros = start.elapsed(rt)?.as_micros();
    match answer {
        Ok(loaded) => println!(rt;
            "{micros} {} actions, {} entries, {} users, {} skipped",
            loaded.policy.actions.len(),
            loaded.policy.entries.len(),
            loaded.world.users.len(),
            loaded.faults.len()
        ),
        Err(refused) => println!(rt; "{micros} {refused}"),
    }
}

/// Does what the two words ask for.
fn run<R, T>(rt: &R, tree: &mut T) -> io::Result<()>
where
    R: Threads + Sync + Env + Clock + Print + AllocGlobal,
    T: Tree,
{
    let mut words = env::args(rt)?.skip(1);
    let (Some(word), Some(path)) = (words.next(), words.next()) else {
        return Ok(());
    };
    match Text::try_from_bytes(rt.alloc(), path.as_bytes()) {
        Ok(root) => tell(rt, tree, word.as_str(), &root),
        Err(_) => Ok(()),
    }
}

fn main(rt: HostRuntime) -> io::Result<()> {
    let mut tree = DirTree::new(&rt);
    run(&rt, &mut tree)
}
