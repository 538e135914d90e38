// What the words of `pkcheck` ask.
ghost use Rattle.std.specs.Prelude.{◌≡◌};
ghost use Rattle.std.specs.Option.{option_map};
ghost use Rattle.clap.specs.Words.{found_of, rows_of};
ghost use Rattle.client_commands.specs.Options.{Gives};
ghost use Rattle.client_commands.specs.CheckPlans.{is_asked, plan_from, plan_given, plan_in, plan_of, process_in};

use crate::check::command::{ACTION_ID, ALLOW_USER_INTERACTION, DOOR, PROCESS, command};
use crate::words::{A_DOOR, GIVEN, WordsFault, matches, strings, text_in, value_of};
use clap::ArgMatches;
use command_line::{halves, read_door};
use pk_types::{Text, number, number_up_to};
use std::alloc::Global;

/// The greatest start time of a process.
const MAX_START: u64 = 18_446_744_073_709_551_615;

/// What the value of `--process` is to be.
const A_PROCESS: &str = "PID,START";

/// What is to be checked, and at which door.
#[derive(Drop)]
pub struct CheckPlan {
    /// The user of the door.
    pub uid: u32,
    /// The path of the door's socket.
    pub path: Text,
    /// The action.
    pub action: Text,
    /// The process whose authorization is checked.
    pub pid: u32,
    /// Its start time.
    pub start: u64,
    /// The user may be asked.
    pub ask: bool,
}

/// The process id and the start time of `PID,START`.
fn process_in(word: &[u8]) -> Option<(u32, u64)>
    ensures process { result ≡ process_in word.now }
{
    let (pid, start) = halves(word, b',')?;
    let pid = number(pid)?;
    let start = number_up_to(start, MAX_START)?;
    Some((pid, start))
}

/// Whether the flag was given, by its value.
fn is_asked(value: Option<&str>) -> bool
    ensures exact { result ≡ is_asked (option_map (λ text. text.now) value.entry) }
{
    match value {
        Some(text) => text == "true",
        None => false,
    }
}

/// What the values of the three options ask.
#[tactic(auto, unfolding(crate::specs::CheckPlans::plan_in))]
fn plan_in(
    alloc: Global,
    door: &str,
    action: &str,
    process: &str,
    ask: bool,
) -> Result<CheckPlan, WordsFault>
    ensures plan { Gives (plan_in door.now action.now process.now ask) result }
{
    let Some(door) = read_door(alloc, door.as_bytes())? else {
        return Err(WordsFault::Value {
            option: DOOR,
            form: A_DOOR,
        });
    };
    let Some((pid, start)) = process_in(process.as_bytes()) else {
        return Err(WordsFault::Value {
            option: PROCESS,
            form: A_PROCESS,
        });
    };
    let action = text_in(alloc, action, ACTION_ID)?;
    Ok(CheckPlan {
        uid: door.uid,
        path: door.path,
        action,
        pid,
        start,
        ask,
    })
}

/// What the values of the three options ask, each of which is optional.
fn plan_given(
    alloc: Global,
    door: Option<&str>,
    action: Option<&str>,
    process: Option<&str>,
    ask: bool,
) -> Result<CheckPlan, WordsFault>
    ensures plan { Gives (plan_given (option_map (λ s. s.now) door.entry) (option_map (λ s. s.now) action.entry) (option_map (λ s. s.now) process.entry) ask) result }
{
    let Some(door) = door else {
        return Err(WordsFault::Value {
            option: DOOR,
            form: GIVEN,
        });
    };
    let Some(action) = action else {
        return Err(WordsFault::Value {
            option: ACTION_ID,
            form: GIVEN,
        });
    };
    let Some(process) = process else {
        return Err(WordsFault::Value {
            option: PROCESS,
            form: GIVEN,
        });
    };
    plan_in(alloc, door, action, process, ask)
}

/// What the options ask.
fn plan_from(alloc: Global, matches: &ArgMatches) -> Result<CheckPlan, WordsFault>
    ensures plan { Gives (plan_from (rows_of (found_of matches.now))) result }
{
    plan_given(
        alloc,
        value_of(matches, DOOR),
        value_of(matches, ACTION_ID),
        value_of(matches, PROCESS),
        is_asked(value_of(matches, ALLOW_USER_INTERACTION)),
    )
}

/// What the words of `pkcheck` ask, without the program's name. It takes no word for `--help` or
/// `--version`.
///
/// # Errors
/// `NoMemory`, which may come in place of any other answer; each other fault exactly where the words
/// are not in the grammar: `clap` refuses them, or a value does not have its form.
pub fn read_check(alloc: Global, words: &[Text]) -> Result<CheckPlan, WordsFault>
    ensures plan { Gives (plan_of words.now) result }
{
    let strings = strings(alloc, words)?;
    let matches = matches(command(alloc)?, strings.as_slice())?;
    plan_from(alloc, &matches)
}
