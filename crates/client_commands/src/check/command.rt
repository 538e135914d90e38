// The command line of `pkcheck` as `clap` knows it.
ghost use Rattle.std.specs.Prelude.{◌≡◌, IfOk};
ghost use Rattle.clap.specs.Words.{app_of};
ghost use Rattle.client_commands.specs.CheckCommand.{check_command};

use crate::options::{bare, flag, option};
use clap::Command;
use std::alloc::{AllocError, Global};

/// The option `--door UID:PATH`.
pub const DOOR: &str = "door";

/// The option `--action-id ID`.
pub const ACTION_ID: &str = "action-id";

/// The option `--process PID,START`.
pub const PROCESS: &str = "process";

/// The flag `--allow-user-interaction`.
pub const ALLOW_USER_INTERACTION: &str = "allow-user-interaction";

/// The command line of `pkcheck`, without the program's name. `--help` and `--version` are off.
pub fn command<'a>(alloc: Global) -> Result<Command<'a>, AllocError>
    ensures app { IfOk result (λ command. app_of command ≡ check_command) }
{
    bare(alloc, "pkcheck")
        .arg(option(alloc, DOOR))?
        .arg(option(alloc, ACTION_ID))?
        .arg(option(alloc, PROCESS))?
        .arg(flag(alloc, ALLOW_USER_INTERACTION))
}
