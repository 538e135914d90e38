// Who asks, and what it is answered.
ghost use Rattle.std.specs.Prelude.{◌≡◌, ◌++◌, IfOk, OnOk};
ghost use Rattle.authority_model.specs.Answers.{refuse as refusal_of};
ghost use Rattle.authority_model.specs.Peers.{is_root, may_for};
ghost use Rattle.event_answers.specs.Asked.{IsOfCaller, reply_of, unchanged};

use crate::answered::{Answered, no_outputs, nothing_changed};
use authority_model::{Answer, ErrorCause, Message, Output, OutputList};
use entry_changes::Peer;
use pk_types::NoMemory;
use std::alloc::Global;

/// When an event is handed in.
#[derive(Clone, Copy, Debug, PartialEq, Eq)]
pub struct Occasion {
    /// The moment, in seconds.
    pub moment: u64,
    /// The salt of a challenge that the event opens.
    pub salt: u128,
}

/// Where the answer to a call goes.
#[derive(Clone, Copy)]
pub struct ReplyTo {
    pub caller: u32,
    pub serial: u32,
    /// The caller wants no reply.
    pub quiet: bool,
}

/// A call of a live connection: where its answer goes, what is known of the caller, and when it is
/// handed in.
#[derive(Clone, Copy)]
pub struct Asking {
    pub to: ReplyTo,
    /// The row of the caller, which is live.
    pub peer: Peer,
    pub occasion: Occasion,
}

impl ReplyTo {
    /// Sends the reply to a call, unless it is quiet or has the serial 0.
    pub fn send(self, outputs: &mut OutputList, answer: Answer) -> Result<(), NoMemory>
        ensures sent { OnOk result (outputs.new ≡ outputs.old ++ reply_of self answer) }
    {
        if self.quiet || self.serial == 0 {
            return Ok(());
        }
        outputs.try_push(Output {
            to: self.caller,
            message: Message::Reply {
                serial: self.serial,
                answer,
            },
        })
    }

    /// The reply to a call as its only output: none where it is quiet or has the serial 0.
    pub fn reply(self, alloc: Global, answer: Answer) -> Result<OutputList, NoMemory>
        ensures replied { IfOk result (λ outputs. outputs ≡ reply_of self answer) }
    {
        let mut outputs = no_outputs(alloc)?;
        self.send(&mut outputs, answer)?;
        Ok(outputs)
    }
}

impl Asking {
    /// Answers the call. Nothing is changed.
    pub fn answer(self, alloc: Global, answer: Answer) -> Result<Answered, NoMemory>
        ensures outputs { IfOk result (λ a. a.outputs ≡ reply_of self.to answer) }
        ensures change { IfOk result (λ a. a.change ≡ unchanged) }
    {
        let outputs = self.to.reply(alloc, answer)?;
        Ok(Answered {
            outputs,
            change: nothing_changed(),
        })
    }

    /// Refuses the call for this cause. Nothing is changed.
    pub fn refuse(self, alloc: Global, cause: ErrorCause) -> Result<Answered, NoMemory>
        ensures outputs { IfOk result (λ a. a.outputs ≡ refusal_of (reply_of self.to) cause) }
        ensures change { IfOk result (λ a. a.change ≡ unchanged) }
    {
        self.answer(alloc, Answer::Refused(cause))
    }

    /// Whether the caller's uid is 0.
    pub fn is_root(self) -> bool
        ensures root { IsOfCaller self result (λ past. is_root past self.to.caller) }
    {
        self.peer.is_root()
    }

    /// Whether the caller may speak for a user: its uid is this one, or 0.
    pub fn may_for(self, uid: u32) -> bool
        ensures may { IsOfCaller self result (λ past. may_for past self.to.caller uid) }
    {
        self.peer.may_for(uid)
    }
}
