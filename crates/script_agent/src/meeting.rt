// The agent: it registers, and meets one challenge after another.
ghost use Rattle.std.specs.Prelude.{◌≡◌, ◌+◌, ◌<◌, ◌≤◌, ◌^◌, [], false, None, IfOk, OnOk};
ghost use Rattle.pk_outside.specs.Allowing.{IsFree};
ghost use Rattle.pk_outside.specs.Causes.{HasCause};
ghost use Rattle.authority_messages.specs.Messages.{is_over};
ghost use Rattle.client_messages.specs.Calls.{call_for};
ghost use Rattle.script_agent.specs.Challenges.{registration, word_of};
ghost use Rattle.script_agent.specs.Steps.{Answers, DialsHelper, Meets, Opens, Prints, Serves, outside, sent_to};

use crate::asking::ask;
use crate::line::Line;
use crate::status::AgentStatus;
use crate::task::{MAX_COUNT, Task};
use agent_rules::Handling;
use authority_messages::texts::plain;
use authority_model::Call;
use client_messages::laws::a_call_without_details_is_short;
use client_messages::{AgentBegin, AgentReply};
use pk_outside::{Failed, Link, Sink, Station, write_all};
use pk_types::{NoMemory, Subject, Text};
use std::alloc::Global;

/// The locale that the agent registers with.
const LOCALE: &str = "C";

/// The path of the agent's object.
const AGENT_PATH: &str = "/agent";

/// What is printed behind an action.
fn ending(reply: AgentReply) -> &'static str
    ensures word { result.now ≡ word_of reply }
{
    match reply {
        AgentReply::Return => " return\n",
        AgentReply::Cancelled => " dismiss\n",
        AgentReply::Failed => " fail\n",
    }
}

/// Prints the line of a challenge: its action, and what was answered.
#[tactic(none)]
fn print<O: Sink>(output: &mut O, action: &Text, reply: AgentReply) -> Result<(), Failed>
    requires free { IsFree O.allowed }
    ensures prints { Prints action.now reply (O.held output.old) (O.held output.new) result }
    ensures cause { HasCause (O.faults output.old) (O.faults output.new) result }
{
    write_all(output, action.bytes())?;
    write_all(output, ending(reply).as_bytes())
}

/// RegisterAuthenticationAgent for a session.
fn registration(alloc: Global, session: &Text) -> Result<Call, NoMemory>
    ensures call { IfOk result (λ call. call ≡ registration session.now) }
    ensures short { IfOk result (λ call. is_over (call_for call) ≡ false) }
{
    a_call_without_details_is_short();
    let id = Text::of_known(alloc, session.bytes())?;
    let locale = plain(alloc, LOCALE)?;
    let path = plain(alloc, AGENT_PATH)?;
    Ok(Call::Register {
        subject: Subject::Session { id },
        locale,
        path,
    })
}

impl<L: Link> Line<L> {
    /// Shakes hands with the authority, and registers the agent.
    #[tactic(none)]
    fn open(&mut self, alloc: Global, task: &Task) -> Result<(), AgentStatus>
        requires rest { self.old.rest ≡ [] }
        requires sent { self.old.sent ≡ 0 }
        requires free { IsFree L.Out.allowed }
        ensures opens { Opens task.now self.old self.new result }
        ensures sent { OnOk result (self.new.sent ≡ 1) }
    {
        self.shake(task.uid)?;
        let message = registration(alloc, &task.session)?;
        self.call(&message)?;
        let refused = self.await_refusal(1)?;
        if refused {
            return Err(AgentStatus::Refused);
        }
        Ok(())
    }
}

/// What is answered to a challenge, by its rule and by the helper's reply.
#[tactic(none)]
fn answer<N: Station>(
    alloc: Global,
    task: &Task,
    begin: &AgentBegin,
    helper: &mut Option<Line<N::Link>>,
    station: &mut N,
) -> Result<AgentReply, AgentStatus>
    requires room { sent_to helper.old + 1 < 2 ^ 32 }
    requires free_link { IsFree N.Link.Out.allowed }
    ensures answers { Answers task.now begin.now (N.faults station.old) (N.faults station.new) helper.old helper.new result }
    ensures dials { DialsHelper task.now.helper (N.told station.old) (N.told station.new) helper.old helper.new }
    ensures later { N.faults station.old ≤ N.faults station.new }
    ensures sent { OnOk result (sent_to helper.new ≤ sent_to helper.old + 1) }
{
    match task.rules.decide(&begin.action) {
        Handling::Authenticate { uid } => {
            let refused = ask(alloc, &task.helper, &begin.cookie, uid, helper, station)?;
            if refused {
                Ok(AgentReply::Failed)
            } else {
                Ok(AgentReply::Return)
            }
        }
        Handling::Dismiss => Ok(AgentReply::Cancelled),
        Handling::Fail => Ok(AgentReply::Failed),
    }
}

/// Meets the next challenge: awaits it, answers it, and prints its line.
#[tactic(none)]
fn meet<N: Station, O: Sink>(
    alloc: Global,
    task: &Task,
    desk: &mut Line<N::Link>,
    helper: &mut Option<Line<N::Link>>,
    station: &mut N,
    output: &mut O,
) -> Result<(), AgentStatus>
    requires few { desk.old.sent ≤ task.now.count }
    requires count { task.now.count ≤ MAX_COUNT }
    requires room { sent_to helper.old + 1 < 2 ^ 32 }
    requires free { IsFree O.allowed }
    requires free_link { IsFree N.Link.Out.allowed }
    ensures meets { Meets task.now (outside (N.told station.old) (N.faults station.old) (O.held output.old) (O.faults output.old)) desk.old helper.old (outside (N.told station.new) (N.faults station.new) (O.held output.new) (O.faults output.new)) desk.new helper.new result }
    ensures sent { OnOk result (desk.new.sent ≡ desk.old.sent + 1) }
    ensures asked { OnOk result (sent_to helper.new ≤ sent_to helper.old + 1) }
{
    let begin = desk.await_begin()?;
    let reply = answer(alloc, task, &begin, helper, station)?;
    desk.reply(reply, begin.serial)?;
    print(output, &begin.action, reply)?;
    Ok(())
}

/// Registers the agent, and meets its challenges one after another.
#[tactic(none)]
pub fn serve<N: Station, O: Sink>(
    alloc: Global,
    task: &Task,
    desk: &mut Line<N::Link>,
    helper: &mut Option<Line<N::Link>>,
    station: &mut N,
    output: &mut O,
) -> Result<(), AgentStatus>
    requires count { task.now.count ≤ MAX_COUNT }
    requires rest { desk.old.rest ≡ [] }
    requires sent { desk.old.sent ≡ 0 }
    requires alone { helper.old ≡ None }
    requires free { IsFree O.allowed }
    requires free_link { IsFree N.Link.Out.allowed }
    ensures serves { Serves task.now (outside (N.told station.old) (N.faults station.old) (O.held output.old) (O.faults output.old)) desk.old helper.old (outside (N.told station.new) (N.faults station.new) (O.held output.new) (O.faults output.new)) desk.new helper.new result }
{
    desk.open(alloc, task)?;
    'challenges: for _met in 0..task.count {
        meet(alloc, task, desk, helper, station, output)?;
    }
    Ok(())
}
