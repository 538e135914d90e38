//! The program `polkitd` once more, so that a run of generated checks is stored beside that of a
//! scenario.
#![tactic(auto)]

use memory_outside::EmptyStation;
use real_outside::DirTree;
use std::process::ExitCode;

fn main(rt: HostRuntime) -> ExitCode {
    let mut tree = DirTree::new(&rt);
    let mut station = EmptyStation::new();
    daemon_program::run(&rt, &mut tree, &mut station)
}
