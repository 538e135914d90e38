// The command line of the agent program as `clap` knows it.
ghost use Rattle.std.specs.Prelude.{◌≡◌, IfOk};
ghost use Rattle.clap.specs.Words.{app_of};
ghost use Rattle.client_commands.specs.AgentCommand.{agent_command};

use crate::options::{bare, option};
use clap::Command;
use std::alloc::{AllocError, Global};

/// The option `--door UID:PATH`.
pub const DOOR: &str = "door";

/// The option `--helper PATH`.
pub const HELPER: &str = "helper";

/// The option `--session ID`.
pub const SESSION: &str = "session";

/// The option `--rules FILE`.
pub const RULES: &str = "rules";

/// The option `--count K`.
pub const COUNT: &str = "count";

/// The command line of the agent program, without the program's name. `--help` and `--version` are
/// off.
pub fn command<'a>(alloc: Global) -> Result<Command<'a>, AllocError>
    ensures app { IfOk result (λ command. app_of command ≡ agent_command) }
{
    bare(alloc, "polkit_agent")
        .arg(option(alloc, DOOR))?
        .arg(option(alloc, HELPER))?
        .arg(option(alloc, SESSION))?
        .arg(option(alloc, RULES))?
        .arg(option(alloc, COUNT))
}
