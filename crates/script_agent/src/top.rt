// The top call.
ghost use Rattle.std.specs.Prelude.{◌≤◌, IfOk};
ghost use Rattle.pk_outside.specs.Allowing.{IsFree};
ghost use Rattle.script_agent.specs.TopCalls.{Plans, ReadsRules, Runs, TreeCauses, TreeRose};
ghost use Rattle.script_agent.specs.Steps.{outside};

use crate::attending::attend;
use crate::status::AgentStatus;
use crate::task::{MAX_COUNT, Task};
use agent_rules::{MAX_RULE_FILE, RuleFault, Rules};
use client_commands::{AgentPlan, WordsFault, read_agent};
use pk_outside::{FileBytes, Sink, Station, Tree, TreeRefused};
use pk_types::Text;
use std::alloc::Global;

/// What the words ask.
fn plan_of(alloc: Global, words: &[Text]) -> Result<AgentPlan, AgentStatus>
    ensures plan { Plans words.now result }
    ensures few { IfOk result (λ plan. plan.count ≤ MAX_COUNT) }
{
    match read_agent(alloc, words) {
        Ok(plan) => Ok(plan),
        Err(WordsFault::NoMemory) => Err(AgentStatus::NoMemory),
        Err(WordsFault::Command(_)) => Err(AgentStatus::Usage),
        Err(WordsFault::Value { .. }) => Err(AgentStatus::Usage),
    }
}

/// The rules of a file of the tree.
#[tactic(auto, using(crate::proofs::Tops::rules_told))]
fn rules_of<T: Tree>(alloc: Global, path: &Text, tree: &mut T) -> Result<Rules, AgentStatus>
    ensures rules { ReadsRules (T.told tree.old) path.now result }
    ensures cause { TreeCauses (T.faults tree.old) (T.faults tree.new) result }
{
    match tree.read(path, MAX_RULE_FILE as u64) {
        Ok(FileBytes::Bytes(bytes)) => match Rules::read(alloc, bytes.as_slice()) {
            Ok(rules) => Ok(rules),
            Err(RuleFault::OutOfForm) => Err(AgentStatus::RuleFile),
            Err(RuleFault::NoMemory) => Err(AgentStatus::NoMemory),
        },
        Ok(FileBytes::Absent) => Err(AgentStatus::RuleFile),
        Ok(FileBytes::TooLong) => Err(AgentStatus::RuleFile),
        Err(TreeRefused::Failed) => Err(AgentStatus::TreeFault),
        Err(TreeRefused::NoMemory) => Err(AgentStatus::NoMemory),
    }
}

/// An agent that answers its challenges by a rule file, as its words say: `--door UID:PATH`,
/// `--helper PATH`, `--session ID`, `--rules FILE`, `--count K`.
///
/// It registers at the door for the session, with the locale `C` and the path `/agent` (the reference
/// manual, "RegisterAuthenticationAgent"), and meets the next K challenges. Where the first rule whose
/// glob has the action names a user, it tells the authority over a second link, dialled at its first
/// use at the helper's path as uid 0, that this user was authenticated
/// ("AuthenticationAgentResponse"), and answers the challenge by an empty return, or by the error
/// Failed where that was refused. It dismisses or fails the challenge as a rule says, and fails it
/// where there is no rule. It prints a line for each challenge. At the end, also after a fault, its
/// links are hung up in the order in which they were dialled.
///
/// # Errors
/// By its status. `Usage` exactly where the words are not in the grammar; `RuleFile` exactly where the
/// rule file is absent, too long or not of the form; `TreeFault`, `StationFault` and `WriteFault` only
/// where the count of the tree, of the station and of the output rose; `BadShake`, `BadBytes` and `Cut`
/// exactly where the bytes read of a link show that; `Refused` exactly where the registration is
/// answered by an error; `NoMemory`, which may come in place of any other.
#[tactic(none)]
pub fn script_agent<T: Tree, N: Station, O: Sink>(
    alloc: Global,
    words: &[Text],
    tree: &mut T,
    station: &mut N,
    output: &mut O,
) -> AgentStatus
    requires free { IsFree O.allowed }
    requires free_link { IsFree N.Link.Out.allowed }
    ensures run { Runs words.now (T.told tree.old) (outside (N.told station.old) (N.faults station.old) (O.held output.old) (O.faults output.old)) (outside (N.told station.new) (N.faults station.new) (O.held output.new) (O.faults output.new)) result }
    ensures tree_cause { TreeRose (T.faults tree.old) (T.faults tree.new) result }
{
    let plan = match plan_of(alloc, words) {
        Ok(plan) => plan,
        Err(status) => return status,
    };
    let rules = match rules_of(alloc, &plan.rules, tree) {
        Ok(rules) => rules,
        Err(status) => return status,
    };
    let task = Task {
        uid: plan.uid,
        path: plan.path,
        helper: plan.helper,
        session: plan.session,
        rules,
        count: plan.count,
    };
    attend(alloc, &task, station, output)
}
