// Loads of a tree in memory, by one thread and by several, and one whose calls fail.
use authority_model::Loaded;
use memory_outside::ListTree;
use pk_outside::{TreeDirectory, TreeFile};
use pk_types::{ByteList, List, NoMemory, TextList};
use policy_load::{LoadRefused, load, load_beside};
use std::alloc::Global;
use std::test::Fail;
use std::thread::Threads;
use test_values::{one, text};

/// The files of the tree with what they hold. The last of the rules has a fault.
const FILES: [(&str, &str); 7] = [
    (
        "/r/usr/share/polkit-1/actions/a.policy",
        "<policyconfig><action id=\"x\"/><action id=\"y\"/></policyconfig>",
    ),
    (
        "/r/var/lib/polkit-1/localauthority/10-v.d/a.pkla",
        "[g]\nIdentity=*\nAction=x\nResultAny=no\n",
    ),
    (
        "/r/etc/polkit-1/localauthority/50-l.d/b.pkla",
        "[g]\nIdentity=*\n",
    ),
    ("/r/etc/passwd", "alice::1000:1000:::\n"),
    ("/r/etc/group", "wheel::10:alice\n"),
    ("/r/tables/sessions", "s1 1000 local active\n"),
    ("/r/tables/processes", "50 7 1000 s1\n"),
];

/// The directories of the tree, each with its one name.
const DIRECTORIES: [(&str, &str); 5] = [
    ("/r/usr/share/polkit-1/actions", "a.policy"),
    ("/r/var/lib/polkit-1/localauthority", "10-v.d"),
    ("/r/var/lib/polkit-1/localauthority/10-v.d", "a.pkla"),
    ("/r/etc/polkit-1/localauthority", "50-l.d"),
    ("/r/etc/polkit-1/localauthority/50-l.d", "b.pkla"),
];

/// A file with these bytes.
fn file(alloc: Global, path: &str, bytes: &str) -> Result<TreeFile, NoMemory> {
    let path = text(alloc, path)?;
    let bytes = ByteList::try_from_slice(alloc, bytes.as_bytes())?;
    Ok(TreeFile { path, bytes })
}

/// The files of the tree.
fn files(alloc: Global) -> Result<List<TreeFile>, NoMemory> {
    let mut files = List::new(alloc);
    for (path, bytes) in FILES {
        files.try_push(file(alloc, path, bytes)?)?;
    }
    Ok(files)
}

/// A directory with one name.
fn directory(alloc: Global, path: &str, name: &str) -> Result<TreeDirectory, NoMemory> {
    let path = text(alloc, path)?;
    let names: TextList = one(alloc, text(alloc, name)?)?;
    Ok(TreeDirectory {
        path,
        names,
        unnamed: 0,
    })
}

/// The directories of the tree.
fn directories(alloc: Global) -> Result<List<TreeDirectory>, NoMemory> {
    let mut directories = List::new(alloc);
    for (path, name) in DIRECTORIES {
        directories.try_push(directory(alloc, path, name)?)?;
    }
    Ok(directories)
}

/// The tree, of which the calls with these numbers fail.
fn tree(alloc: Global, failing: Vec<u64>) -> Result<ListTree, NoMemory> {
    let files = files(alloc)?;
    let directories = directories(alloc)?;
    Ok(ListTree::new(alloc, files, directories, failing))
}

/// How many actions, entries, users, groups, sessions, processes and skipped files a load has.
fn counts(loaded: &Loaded) -> [usize; 7] {
    let (policy, world) = (&loaded.policy, &loaded.world);
    [
        policy.actions.len(),
        policy.entries.len(),
        world.users.len(),
        world.groups.len(),
        world.sessions.len(),
        world.processes.len(),
        loaded.faults.len(),
    ]
}

/// What a load is: its counts, or the faults of the tree, or another refusal.
#[derive(Clone, Copy, Debug, PartialEq, Eq)]
enum LoadTold {
    Counts([usize; 7]),
    TreeFault(u64),
    Refused,
}

/// What this load is.
fn told(loaded: &Result<Loaded, LoadRefused>) -> LoadTold {
    match loaded {
        Ok(loaded) => LoadTold::Counts(counts(loaded)),
        Err(LoadRefused::TreeFault { count }) => LoadTold::TreeFault(*count),
        Err(_) => LoadTold::Refused,
    }
}

/// What one thread and several load of the tree.
fn loads_told<R: Threads + Sync>(rt: &R, alloc: Global) -> Result<[LoadTold; 2], NoMemory> {
    let root = text(alloc, "/r")?;
    let mut tree = tree(alloc, Vec::new(alloc))?;
    let by_one = told(&load(alloc, &mut tree, &root));
    let by_many = told(&load_beside(rt, alloc, &mut tree, &root));
    Ok([by_one, by_many])
}

/// What a load of the tree is, of which the call with this number fails.
fn failing_told(alloc: Global, call: u64) -> Result<LoadTold, NoMemory> {
    let root = text(alloc, "/r")?;
    let failing = vec![in alloc; call]?;
    let mut tree = tree(alloc, failing)?;
    Ok(told(&load(alloc, &mut tree, &root)))
}

#[test]
fn one_thread_and_several_load_the_same(rt: HostRuntime) -> Result<(), Fail> {
    let wanted = LoadTold::Counts([2, 1, 1, 1, 1, 1, 1]);
    assert_eq!(rt; loads_told(&rt, rt.alloc())?, [wanted; 2]);
    Ok(())
}

#[test]
fn each_failing_call_is_told(rt: HostRuntime) -> Result<(), Fail> {
    // The tree is asked for six directories, three files of rules and actions, and four tables.
    for call in 1..14u64 {
        assert_eq!(rt;
            failing_told(rt.alloc(), call)?,
            LoadTold::TreeFault(1),
            "at call {call}"
        );
    }
    Ok(())
}
