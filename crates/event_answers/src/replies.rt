// Single outputs: replies to checks, and messages to agents and connections.
ghost use Rattle.std.specs.Prelude.{◌≡◌, ◌++◌, List, OnOk};
ghost use Rattle.authority_model.specs.declared.journal.Item.{Item};
ghost use Rattle.authority_model.specs.Answers.{reply_to as reply_to_check, cancel_begin as cancel_begin_of, reply_agent_gone as agent_gone_of, changed as changed_of};
ghost use Rattle.journal_view.specs.Seen.{IsSeenOf};

use crate::asking::ReplyTo;
use authority_model::{Answer, Message, Output, OutputList, Pending, Reason};
use check_decision::no;
use journal_view::JournalView;
use pk_types::NoMemory;
use std::alloc::Global;

/// Answers the check that opened a challenge.
pub fn reply_to(
    outputs: &mut OutputList,
    challenge: &Pending,
    answer: Answer,
) -> Result<(), NoMemory>
    ensures replied { OnOk result (outputs.new ≡ outputs.old ++ reply_to_check challenge.now answer) }
{
    let to = ReplyTo {
        caller: challenge.asker,
        serial: challenge.serial,
        quiet: challenge.quiet,
    };
    to.send(outputs, answer)
}

/// Sends the agent CancelAuthentication.
pub fn cancel_begin(outputs: &mut OutputList, challenge: &Pending) -> Result<(), NoMemory>
    ensures told { OnOk result (outputs.new ≡ outputs.old ++ cancel_begin_of challenge.now) }
{
    let path = challenge.agent_path.try_copy()?;
    outputs.try_push(Output {
        to: challenge.agent,
        message: Message::CancelBegin {
            path,
            cookie: challenge.cookie,
        },
    })
}

/// Answers the check that opened a challenge, whose agent is gone.
pub fn reply_agent_gone(
    alloc: Global,
    outputs: &mut OutputList,
    challenge: &Pending,
) -> Result<(), NoMemory>
    ensures told { OnOk result (outputs.new ≡ outputs.old ++ agent_gone_of challenge.now) }
{
    let verdict = no(alloc, Reason::AgentGone);
    reply_to(outputs, challenge, Answer::Verdict(verdict))
}

/// Tells each live connection that something changed.
///
/// Each of them has an entry of its own, its Connect: so there are no more of them than entries.
#[tactic(auto, using(crate::proofs::Living::all_of, crate::proofs::Living::few))]
pub fn tell_changed<V: JournalView>(outputs: &mut OutputList, view: &V) -> Result<(), NoMemory>
    ensures told { (past : List Item) → IsSeenOf past (V.seen view.now)
        → OnOk result (outputs.new ≡ outputs.old ++ changed_of past) }
{
    for i in 0..view.counts().entries {
        let Some(caller) = view.live(i as usize) else {
            return Ok(());
        };
        outputs.try_push(Output {
            to: caller,
            message: Message::Changed,
        })?;
    }
    Ok(())
}
