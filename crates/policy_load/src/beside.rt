// The load of a tree by several threads.
ghost use Rattle.std.specs.Prelude.{◌≡◌, ◌≤◌, map, IfErr, IfOk, IfSome};
ghost use Rattle.policy_load.specs.Kept.{found_with};
ghost use Rattle.policy_load.specs.Causes.{LoadsAs, FaultCause};
ghost use Rattle.policy_load.specs.Loads.{load_of};
ghost use denote.Param.Send.{IsSync};

use crate::files::{Finding, TurnFile, find_each};
use crate::loading::{finish, gather};
use crate::refused::LoadRefused;
use authority_model::Loaded;
use pk_outside::Tree;
use pk_types::{NoMemory, Text};
use std::alloc::Global;
use std::thread::{Threads, available_parallelism, join};

/// The greatest number of threads that parse files.
const MAX_WORKERS: usize = 16;

/// What each of these files comes to, parsed by at most so many threads. It stands in the order of the
/// files, and is the same for every number.
fn find_beside<R: Threads + Sync>(
    rt: &R,
    alloc: Global,
    workers: usize,
    files: &[TurnFile],
) -> Result<Vec<Finding>, NoMemory>
    ensures found { IfOk result (λ findings. findings.items ≡ map found_with files.now) }
{
    if workers < 2 || files.len() < 2 {
        return find_each(alloc, files);
    }
    let (front, back) = files.split_at(files.len() / 2);
    let some = workers / 2;
    let others = workers - some;
    let (first, second) = join(
        rt,
        || -> Result<Vec<Finding>, NoMemory>
            requires { IsSync R.row }
            ensures { IfOk result (λ findings. findings.items ≡ map found_with front.entry.now) }
        { find_beside(rt, alloc, some, front) },
        || -> Result<Vec<Finding>, NoMemory>
            requires { IsSync R.row }
            ensures { IfOk result (λ findings. findings.items ≡ map found_with back.entry.now) }
        { find_beside(rt, alloc, others, back) },
    );
    let mut findings = first?;
    let mut rest = second?;
    findings.append(&mut rest)?;
    Ok(findings)
}

/// How many threads parse files.
fn workers<R: Threads + Sync>(rt: &R) -> usize {
    match available_parallelism(rt) {
        Ok(processors) => processors.get().min(MAX_WORKERS),
        Err(_) => 1,
    }
}

/// The same as `load`. The files are read one after another and parsed beside each other.
///
/// # Errors
/// Those of `load`, for the same causes.
pub fn load_beside<R: Threads + Sync, T: Tree>(
    rt: &R,
    alloc: Global,
    tree: &mut T,
    root: &Text,
) -> Result<Loaded, LoadRefused>
    ensures load { IfSome (T.told tree.old) (λ told. LoadsAs (load_of told root.now) result) }
    ensures same { T.told tree.new ≡ T.told tree.old }
    ensures later { T.faults tree.old ≤ T.faults tree.new }
    ensures fault { IfErr result (FaultCause (T.faults tree.old) (T.faults tree.new)) }
{
    let read = gather(alloc, tree, root)?;
    let findings = find_beside(rt, alloc, workers(rt), read.files.as_slice())?;
    finish(alloc, tree, root, findings)
}
