// The load of a tree.
ghost use Rattle.std.specs.Prelude.{◌≡◌, ◌≤◌, Some, None, IfErr, IfOk, IfSome};
ghost use Rattle.pk_outside.specs.Trees.{TreeTold};
ghost use Rattle.admin_identities.specs.Configured.{first_fault, admins_of};
ghost use Rattle.policy_load.specs.Causes.{LoadsAs, FaultCause, LoadCause, Gathers};
ghost use Rattle.policy_load.specs.Loads.{load_of, load_joined, loaded_from, joined};

use crate::files::{
    Finding, Joined, MAX_FILES, MAX_POLICY_BYTES, ReadFiles, file_count, find_each, join,
    read_files,
};
use crate::limits::{MAX_ACTIONS, MAX_RULES};
use crate::order::turns;
use crate::refused::{LoadLimit, LoadRefused};
use crate::tables::{refused_by, world};
use admin_identities::{AdminFault, admins};
use authority_model::{Loaded, Policy, World};
use keyfile_text::GroupsList;
use pk_outside::Tree;
use pk_types::{NoMemory, Text, TextList};
use std::alloc::Global;

/// The turns of a load with their files, unless there are too many files or bytes.
pub fn gather<T: Tree>(alloc: Global, tree: &mut T, root: &Text) -> Result<ReadFiles, LoadRefused>
    ensures gathers { (told : TreeTold) → T.told tree.old ≡ Some told → Gathers told root.now result }
    ensures same { T.told tree.new ≡ T.told tree.old }
    ensures cause { LoadCause (T.faults tree.old) (T.faults tree.new) result }
{
    let turns = match turns(alloc, tree, root) {
        Ok(turns) => turns,
        Err(why) => return Err(refused_by(tree, why)),
    };
    let count = file_count(turns.as_slice()) as u64;
    if count > MAX_FILES {
        let which = LoadLimit::Files;
        return Err(LoadRefused::Limit { which, count });
    }
    let read = match read_files(alloc, tree, turns) {
        Ok(read) => read,
        Err(why) => return Err(refused_by(tree, why)),
    };
    if read.bytes > MAX_POLICY_BYTES {
        let which = LoadLimit::PolicyBytes;
        let count = read.bytes;
        return Err(LoadRefused::Limit { which, count });
    }
    Ok(read)
}

/// The administrators of files that have no faulty item.
fn administrators(alloc: Global, confs: &GroupsList) -> Result<TextList, NoMemory>
    requires { first_fault confs.now ≡ None }
    ensures admins { IfOk result (λ admins. admins ≡ admins_of confs.now) }
{
    match admins(alloc, confs) {
        Ok(admins) => Ok(admins),
        Err(AdminFault::NoMemory) => Err(NoMemory),
        Err(AdminFault::BadIdentity { .. }) => unreachable!(),
    }
}

/// The value of a load.
fn loaded(alloc: Global, joined: Joined, world: World) -> Result<Loaded, NoMemory>
    requires { first_fault joined.admins ≡ None }
    ensures loaded { IfOk result (λ loaded. loaded ≡ loaded_from joined world) }
{
    let admins = administrators(alloc, &joined.admins)?;
    Ok(Loaded {
        policy: Policy {
            actions: joined.actions,
            entries: joined.entries,
            admins,
        },
        world,
        faults: joined.faults,
    })
}

/// The load of joined policy files: unless these give too many actions or entries, the world is read
/// too.
fn load_joined<T: Tree>(
    alloc: Global,
    tree: &mut T,
    root: &Text,
    joined: Joined,
) -> Result<Loaded, LoadRefused>
    requires { first_fault joined.admins ≡ None }
    ensures load { (told : TreeTold) → T.told tree.old ≡ Some told → LoadsAs (load_joined told root.now joined) result }
    ensures same { T.told tree.new ≡ T.told tree.old }
    ensures cause { LoadCause (T.faults tree.old) (T.faults tree.new) result }
{
    let count = joined.actions.len();
    if count > MAX_ACTIONS {
        let which = LoadLimit::Actions;
        let count = count as u64;
        return Err(LoadRefused::Limit { which, count });
    }
    let count = joined.entries.len();
    if count > MAX_RULES {
        let which = LoadLimit::Entries;
        let count = count as u64;
        return Err(LoadRefused::Limit { which, count });
    }
    let world = world(alloc, tree, root)?;
    let loaded = loaded(alloc, joined, world)?;
    Ok(loaded)
}

/// The load of what was found.
pub fn finish<T: Tree>(
    alloc: Global,
    tree: &mut T,
    root: &Text,
    findings: Vec<Finding>,
) -> Result<Loaded, LoadRefused>
    requires { first_fault (joined findings.items).admins ≡ None }
    ensures load { (told : TreeTold) → T.told tree.old ≡ Some told → LoadsAs (load_joined told root.now (joined findings.items)) result }
    ensures same { T.told tree.new ≡ T.told tree.old }
    ensures cause { LoadCause (T.faults tree.old) (T.faults tree.new) result }
{
    let joined = join(alloc, findings)?;
    load_joined(alloc, tree, root, joined)
}

/// The policy and the world of the tree below a root, with what was skipped.
///
/// Policy files are action files, administrators' files and entry files. One that is absent is passed over.
/// One that its reader refuses is skipped and reported, and the rest is loaded. Where the tree tells
/// its files, the answer is that of the definition.
///
/// # Errors
/// 1 `TreeFault` only where the tree counted a fault in this call, with its count after it; 2 `Limit` for the
/// first of files (4,096), their bytes (8 MiB), actions (4,096) and entries (16,384) that is over its
/// limit, with the whole count; 3 `BadTable` for the first of the tables `etc/passwd`, `etc/group`,
/// `tables/sessions` and `tables/processes` that has a fault; 4 `NoMemory`.
pub fn load<T: Tree>(alloc: Global, tree: &mut T, root: &Text) -> Result<Loaded, LoadRefused>
    ensures load { IfSome (T.told tree.old) (λ told. LoadsAs (load_of told root.now) result) }
    ensures same { T.told tree.new ≡ T.told tree.old }
    ensures later { T.faults tree.old ≤ T.faults tree.new }
    ensures fault { IfErr result (FaultCause (T.faults tree.old) (T.faults tree.new)) }
{
    let read = gather(alloc, tree, root)?;
    let findings = find_each(alloc, read.files.as_slice())?;
    finish(alloc, tree, root, findings)
}
