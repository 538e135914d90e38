// The parts of a command line as `clap` knows it.
ghost use Rattle.std.specs.Prelude.{◌≡◌, false};
ghost use Rattle.clap.specs.Words.{app_of, rule_of};
ghost use Rattle.client_commands.specs.Options.{bare_command, flag_rule, option_rule};

use clap::{Arg, ArgAction, Command};
use std::alloc::Global;

/// An option that is required and takes one value.
pub fn option<'a>(alloc: Global, name: &'a str) -> Arg<'a>
    ensures rule { rule_of result ≡ option_rule name.entry.now }
    ensures local { result.global ≡ false }
{
    Arg::new(alloc, name)
        .long(name)
        .required(true)
        .action(ArgAction::Set)
}

/// A flag.
pub fn flag<'a>(alloc: Global, name: &'a str) -> Arg<'a>
    ensures rule { rule_of result ≡ flag_rule name.entry.now }
    ensures local { result.global ≡ false }
{
    Arg::new(alloc, name).long(name).action(ArgAction::SetTrue)
}

/// The command line of a program without an option, without the program's name. `--help` and
/// `--version` are off.
pub fn bare<'a>(alloc: Global, program: &'a str) -> Command<'a>
    ensures app { app_of result ≡ bare_command program.entry.now }
{
    Command::new(alloc, program)
        .no_binary_name(true)
        .disable_help_flag(true)
        .disable_version_flag(true)
}
