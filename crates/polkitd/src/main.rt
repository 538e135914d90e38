//! The program `polkitd`, over the files and the sockets of the system.
#![tactic(auto)]

use rand::make_rng;
use rand::rngs::StdRng;
use real_outside::{DirTree, SocketStation};
use std::process::ExitCode;

/// The exit code where the system gives no random words. No status has it.
const NO_RANDOM_WORDS: u8 = 71;

/// What the system refused is told by a line behind that of the status.
fn main(rt: HostRuntime) -> ExitCode {
    let words: StdRng = match make_rng(&rt) {
        Ok(words) => words,
        Err(cause) => {
            let _ = eprintln!(rt; "no random words: {cause}");
            return ExitCode::from(NO_RANDOM_WORDS);
        }
    };
    let mut tree = DirTree::new(&rt);
    let mut station = SocketStation::new(&rt, rt.alloc(), words);
    let code = daemon_program::run(&rt, &mut tree, &mut station);
    if let Some(refusal) = station.refusal() {
        let _ = eprintln!(rt; "{refusal}");
    }
    code
}
