// What the words of the agent program ask.
ghost use Rattle.std.specs.Prelude.{◌≡◌, ◌≤◌, IfOk};
ghost use Rattle.std.specs.Option.{option_map};
ghost use Rattle.clap.specs.Words.{found_of, rows_of};
ghost use Rattle.client_commands.specs.Options.{Gives};
ghost use Rattle.client_commands.specs.AgentPlans.{count_in, path_in, plan_from, plan_given, plan_in, plan_of};

use crate::agent::command::{COUNT, DOOR, HELPER, RULES, SESSION, command};
use crate::words::{A_DOOR, GIVEN, WordsFault, matches, strings, text_in, value_of};
use clap::ArgMatches;
use command_line::read_door;
use pk_types::{Text, number_up_to};
use std::alloc::Global;

/// The greatest number of challenges.
pub const MAX_COUNT: u32 = 1_000_000;

/// What the value of `--count` is to be.
const A_COUNT: &str = "a number from 1 to 1000000";

/// What the value of `--helper` is not where it is empty.
const A_PATH: &str = "a path";

/// What an agent is to do.
#[derive(Drop)]
pub struct AgentPlan {
    /// The user of the authority's door.
    pub uid: u32,
    /// The path of the authority's door.
    pub path: Text,
    /// The path of the helper's door.
    pub helper: Text,
    /// The session that the agent registers for.
    pub session: Text,
    /// The path of the rule file.
    pub rules: Text,
    /// How many challenges it meets, from 1 to 1,000,000.
    pub count: u32,
}

/// The path that a value is, which is not empty.
fn path_in(alloc: Global, value: &str, option: &'static str) -> Result<Text, WordsFault>
    ensures path { Gives (path_in value.now) result }
{
    if value.is_empty() {
        return Err(WordsFault::Value {
            option,
            form: A_PATH,
        });
    }
    text_in(alloc, value, option)
}

/// How many challenges a value says.
fn count_in(value: &str) -> Result<u32, WordsFault>
    ensures count { Gives (count_in value.now) result }
    ensures few { IfOk result (λ n. n ≤ MAX_COUNT) }
{
    match number_up_to(value.as_bytes(), u64::from(MAX_COUNT)) {
        Some(0) => Err(WordsFault::Value {
            option: COUNT,
            form: A_COUNT,
        }),
        Some(count) => Ok(count as u32),
        None => Err(WordsFault::Value {
            option: COUNT,
            form: A_COUNT,
        }),
    }
}

/// What the values of the options ask.
#[tactic(auto, unfolding(crate::specs::AgentPlans::plan_in))]
fn plan_in(
    alloc: Global,
    door: &str,
    helper: &str,
    session: &str,
    rules: &str,
    count: &str,
) -> Result<AgentPlan, WordsFault>
    ensures plan { Gives (plan_in door.now helper.now session.now rules.now count.now) result }
    ensures few { IfOk result (λ plan. plan.count ≤ MAX_COUNT) }
{
    let Some(door) = read_door(alloc, door.as_bytes())? else {
        return Err(WordsFault::Value {
            option: DOOR,
            form: A_DOOR,
        });
    };
    let helper = path_in(alloc, helper, HELPER)?;
    let session = text_in(alloc, session, SESSION)?;
    let rules = text_in(alloc, rules, RULES)?;
    let count = count_in(count)?;
    Ok(AgentPlan {
        uid: door.uid,
        path: door.path,
        helper,
        session,
        rules,
        count,
    })
}

/// What the values of the five options ask, each of which is optional.
fn plan_given(
    alloc: Global,
    door: Option<&str>,
    helper: Option<&str>,
    session: Option<&str>,
    rules: Option<&str>,
    count: Option<&str>,
) -> Result<AgentPlan, WordsFault>
    ensures plan { Gives (plan_given (option_map (λ s. s.now) door.entry) (option_map (λ s. s.now) helper.entry) (option_map (λ s. s.now) session.entry) (option_map (λ s. s.now) rules.entry) (option_map (λ s. s.now) count.entry)) result }
    ensures few { IfOk result (λ plan. plan.count ≤ MAX_COUNT) }
{
    let Some(door) = door else {
        return Err(WordsFault::Value {
            option: DOOR,
            form: GIVEN,
        });
    };
    let Some(helper) = helper else {
        return Err(WordsFault::Value {
            option: HELPER,
            form: GIVEN,
        });
    };
    let Some(session) = session else {
        return Err(WordsFault::Value {
            option: SESSION,
            form: GIVEN,
        });
    };
    let Some(rules) = rules else {
        return Err(WordsFault::Value {
            option: RULES,
            form: GIVEN,
        });
    };
    let Some(count) = count else {
        return Err(WordsFault::Value {
            option: COUNT,
            form: GIVEN,
        });
    };
    plan_in(alloc, door, helper, session, rules, count)
}

/// What the options ask.
fn plan_from(alloc: Global, matches: &ArgMatches) -> Result<AgentPlan, WordsFault>
    ensures plan { Gives (plan_from (rows_of (found_of matches.now))) result }
    ensures few { IfOk result (λ plan. plan.count ≤ MAX_COUNT) }
{
    plan_given(
        alloc,
        value_of(matches, DOOR),
        value_of(matches, HELPER),
        value_of(matches, SESSION),
        value_of(matches, RULES),
        value_of(matches, COUNT),
    )
}

/// What the words of the agent program ask, without the program's name: `--door UID:PATH`,
/// `--helper PATH`, `--session ID`, `--rules FILE` and `--count K`, in any order and each once. There
/// is no `--help` and no `--version` among them.
///
/// # Errors
/// `NoMemory`, which may come in place of any other answer; each other fault exactly where the words
/// are not in the grammar: `clap` refuses them, or a value does not have its form.
pub fn read_agent(alloc: Global, words: &[Text]) -> Result<AgentPlan, WordsFault>
    ensures plan { Gives (plan_of words.now) result }
    ensures few { IfOk result (λ plan. plan.count ≤ MAX_COUNT) }
{
    let strings = strings(alloc, words)?;
    let matches = matches(command(alloc)?, strings.as_slice())?;
    plan_from(alloc, &matches)
}
