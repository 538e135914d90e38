// A connection of the agent.
ghost use Rattle.std.specs.Prelude.{◌≡◌, ◌<◌, ◌+◌, ◌^◌, [], false, IsSome, IsTrue, IfOk, OnOk};
ghost use Rattle.pk_outside.specs.Allowing.{IsFree};
ghost use Rattle.pk_outside.specs.Streams.{IsUsedUp};
ghost use Rattle.dbus_values.specs.Form.{message_bytes};
ghost use Rattle.authority_messages.specs.Messages.{is_over};
ghost use Rattle.authority_messages.specs.Outgoing.{under};
ghost use Rattle.client_messages.specs.Agents.{begin_of, reply_for};
ghost use Rattle.client_messages.specs.Calls.{call_for, method_of};
ghost use Rattle.client_link.specs.Faults.{LinkFaults};
ghost use Rattle.client_link.specs.Shakings.{ShakesHands};
ghost use Rattle.script_agent.specs.Lines.{IsNew, IsGivenBack};
ghost use Rattle.script_agent.specs.Waits.{Sends, Waits, refusal_of};

use crate::waiting;
use authority_model::Call;
use client_link::{LinkStop, send_call, send_reply, shake_hands};
use client_messages::{AgentBegin, AgentReply};
use pk_outside::{Ends, Link};
use source_buffer::MessageBuffer;
use std::alloc::Global;
use std::marker::Model;

/// A connection of the agent: its two ends, what was read and not taken, and how many messages were
/// sent on it.
#[derive(Drop)]
pub struct Line<L: Link> {
    alloc: Global,
    ends: Ends<L>,
    buffer: MessageBuffer,
    sent: u32,
}

impl<L: Link> Model for Line<L> {
    ghost use Rattle.script_agent.specs.Lines.{LineNow};

    ghost Value = { LineNow };

    ghost view = { λ l. record {
      origin = L.In.origin l.ends.input;
      left = L.In.left l.ends.input;
      ended = L.In.ended l.ends.input;
      held = L.Out.held l.ends.output;
      rest = l.buffer;
      read_faults = L.In.faults l.ends.input;
      write_faults = L.Out.faults l.ends.output;
      sent = l.sent;
    } };
}

impl<L: Link> Line<L> {
    /// The connection over a link, on which nothing was read or sent.
    pub fn new(alloc: Global, link: L, buffer: MessageBuffer) -> Line<L>
        requires { buffer ≡ [] }
        ensures new { IsNew (L.origin link) result }
    {
        Line {
            alloc,
            ends: link.split(),
            buffer,
            sent: 0,
        }
    }

    /// Shakes hands as a client of this user.
    #[tactic(none)]
    pub fn shake(&mut self, uid: u32) -> Result<(), LinkStop>
        requires rest { self.old.rest ≡ [] }
        requires free { IsFree L.Out.allowed }
        ensures shakes { ShakesHands uid self.old.left self.new.left self.new.ended self.old.held self.new.held self.new.rest result }
        ensures faults { LinkFaults self.old.read_faults self.new.read_faults self.old.write_faults self.new.write_faults result }
        ensures origin { self.new.origin ≡ self.old.origin }
        ensures sent { self.new.sent ≡ self.old.sent }
    {
        shake_hands(
            self.alloc,
            uid,
            &mut self.ends.input,
            &mut self.ends.output,
            &mut self.buffer,
        )
    }

    /// Reads messages up to the reply to the call with this serial, and answers whether it is an error.
    #[tactic(none)]
    pub fn await_refusal(&mut self, serial: u32) -> Result<bool, LinkStop>
        ensures waits { Waits (refusal_of serial) self.old self.new result }
    {
        waiting::await_refusal(self.alloc, serial, &mut self.ends.input, &mut self.buffer)
    }

    /// Reads messages up to the next that asks to begin a challenge.
    #[tactic(none)]
    pub fn await_begin(&mut self) -> Result<AgentBegin, LinkStop>
        ensures waits { Waits begin_of self.old self.new result }
        ensures serial { IfOk result (λ begin. 0 < begin.serial) }
    {
        waiting::await_begin(self.alloc, &mut self.ends.input, &mut self.buffer)
    }

    /// Sends a call under the next serial.
    #[tactic(none)]
    pub fn call(&mut self, call: &Call) -> Result<(), LinkStop>
        requires method { IsSome (method_of call.now) }
        requires short { is_over (call_for call.now) ≡ false }
        requires room { self.old.sent + 1 < 2 ^ 32 }
        requires free { IsFree L.Out.allowed }
        ensures sends { Sends (message_bytes false (under (self.old.sent + 1) (call_for call.now))) self.old self.new result }
        ensures sent { OnOk result (self.new.sent ≡ self.old.sent + 1) }
    {
        send_call(self.alloc, call, self.sent + 1, &mut self.ends.output)?;
        self.sent += 1;
        Ok(())
    }

    /// Replies under the next serial to the message with the serial `to`.
    #[tactic(none)]
    pub fn reply(&mut self, reply: AgentReply, to: u32) -> Result<(), LinkStop>
        requires to { 0 < to }
        requires room { self.old.sent + 1 < 2 ^ 32 }
        requires free { IsFree L.Out.allowed }
        ensures sends { Sends (message_bytes false (under (self.old.sent + 1) (reply_for reply to))) self.old self.new result }
        ensures sent { OnOk result (self.new.sent ≡ self.old.sent + 1) }
    {
        send_reply(self.alloc, reply, to, self.sent + 1, &mut self.ends.output)?;
        self.sent += 1;
        Ok(())
    }

    /// The allocator that it keeps.
    pub fn alloc(&self) -> Global {
        self.alloc
    }

    /// How many messages were sent.
    pub fn sent(&self) -> u32
        ensures sent { result ≡ self.now.sent }
    {
        self.sent
    }

    /// The two ends, to be hung up.
    pub fn into_ends(self) -> Ends<L>
        ensures ends { IsGivenBack self (L.In.origin result.input) (L.In.left result.input) (L.Out.held result.output) (L.In.faults result.input) (L.Out.faults result.output) }
        ensures used_up { IsTrue self.ended → IsUsedUp self.left }
    {
        self.ends
    }
}
