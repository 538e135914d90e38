// Runs from a root whose tree fails at each call.
use crate::runs::{NO_FAULTS, Wanted, difference_over, files};
use memory_outside::ListTree;
use pk_types::{List, NoMemory};
use std::alloc::Global;
use std::sync::Wait;
use std::test::Fail;
use std::thread::Threads;

/// A world, and a process of it that is asked about.
const WORLD: [(&str, &str); 3] = [
    ("/r/etc/passwd", "alice:x:1000:1000:::\n"),
    ("/r/tables/sessions", "s1 1000 local active\n"),
    ("/r/tables/processes", "50 7 1000 s1\n"),
];

const CHECK: &[u8] = b"action a no no yes\npeer 1 1000\ncheck 1 1 process:50:7 a\n";

/// In what a replay over these tables of `/r`, without directories, differs first from what is wanted,
/// if in anything. The calls with these numbers fail.
fn root_difference<R: Threads + Wait + Sync>(
    rt: &R,
    alloc: Global,
    tables: &[(&str, &str)],
    failing: Vec<u64>,
    wanted: Wanted<'_>,
) -> Result<&'static str, NoMemory> {
    let files = files(alloc, tables)?;
    let mut tree = ListTree::new(alloc, files, List::new(alloc), failing);
    let words = ["replay", "--root", "/r"];
    difference_over(rt, alloc, &mut tree, &words, CHECK, NO_FAULTS, wanted)
}

// The load lists four directories and reads four tables.
#[test]
fn each_failing_call_ends_the_run(rt: HostRuntime) -> Result<(), Fail> {
    let alloc = rt.alloc();
    for call in 1..9u64 {
        let wanted = Wanted::silent("TreeFault 1", 2);
        let failing = vec![in alloc; call]?;
        let differs = root_difference(&rt, alloc, &WORLD, failing, wanted)?;
        assert_eq!(rt; differs, "", "at call {call}");
    }
    Ok(())
}
