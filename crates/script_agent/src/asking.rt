// The helper, over the second link.
ghost use Rattle.std.specs.Prelude.{◌≡◌, ◌+◌, ◌<◌, ◌≤◌, ◌^◌, [], false, IfOk, OnOk};
ghost use Rattle.pk_outside.specs.Allowing.{IsFree};
ghost use Rattle.authority_messages.specs.Messages.{is_over};
ghost use Rattle.client_messages.specs.Calls.{call_for};
ghost use Rattle.script_agent.specs.Challenges.{response};
ghost use Rattle.script_agent.specs.Steps.{Asks, Consults, DialsHelper, DialsNew, Introduces, sent_to};

use crate::line::Line;
use crate::status::AgentStatus;
use authority_model::Call;
use client_messages::laws::a_call_without_details_is_short;
use pk_outside::{Link, Station};
use pk_types::{Identity, NoMemory, Text};
use source_buffer::MessageBuffer;
use std::alloc::Global;

/// The user of the helper's door.
const HELPER_UID: u32 = 0;

/// AuthenticationAgentResponse for a challenge.
fn response(alloc: Global, cookie: &Text, uid: u32) -> Result<Call, NoMemory>
    ensures call { IfOk result (λ call. call ≡ response cookie.now uid) }
    ensures short { IfOk result (λ call. is_over (call_for call) ≡ false) }
{
    a_call_without_details_is_short();
    let cookie = Text::of_known(alloc, cookie.bytes())?;
    Ok(Call::Respond {
        cookie,
        identity: Identity::User(uid),
    })
}

/// Dials a link.
pub fn dial<N: Station>(
    alloc: Global,
    path: &Text,
    station: &mut N,
) -> Result<Line<N::Link>, AgentStatus>
    ensures dials { DialsNew path.now (N.told station.old) (N.told station.new) (N.faults station.old) (N.faults station.new) result }
    ensures later { N.faults station.old ≤ N.faults station.new }
{
    let buffer = MessageBuffer::new(alloc)?;
    let link = station.dial(path)?;
    Ok(Line::new(alloc, link, buffer))
}

impl<L: Link> Line<L> {
    /// Tells the authority over a helper's link that a user was authenticated, and answers whether it
    /// refused that.
    #[tactic(none)]
    fn consult(&mut self, cookie: &Text, uid: u32) -> Result<bool, AgentStatus>
        requires room { self.old.sent + 1 < 2 ^ 32 }
        requires free { IsFree L.Out.allowed }
        ensures consults { Consults cookie.now uid self.old self.new result }
        ensures sent { OnOk result (self.new.sent ≡ self.old.sent + 1) }
    {
        let message = response(self.alloc(), cookie, uid)?;
        self.call(&message)?;
        let serial = self.sent();
        let refused = self.await_refusal(serial)?;
        Ok(refused)
    }

    /// Shakes hands with the helper first.
    #[tactic(none)]
    fn introduce(&mut self, cookie: &Text, uid: u32) -> Result<bool, AgentStatus>
        requires rest { self.old.rest ≡ [] }
        requires sent { self.old.sent ≡ 0 }
        requires free { IsFree L.Out.allowed }
        ensures introduces { Introduces cookie.now uid self.old self.new result }
        ensures sent { OnOk result (self.new.sent ≡ 1) }
    {
        self.shake(HELPER_UID)?;
        self.consult(cookie, uid)
    }
}

/// Tells the authority that a user was authenticated for a challenge, and answers whether it refused
/// that. The helper's link is dialled where it was not before.
#[tactic(none)]
pub fn ask<N: Station>(
    alloc: Global,
    path: &Text,
    cookie: &Text,
    uid: u32,
    helper: &mut Option<Line<N::Link>>,
    station: &mut N,
) -> Result<bool, AgentStatus>
    requires room { sent_to helper.old + 1 < 2 ^ 32 }
    requires free_link { IsFree N.Link.Out.allowed }
    ensures asks { Asks path.now cookie.now uid (N.faults station.old) (N.faults station.new) helper.old helper.new result }
    ensures dials { DialsHelper path.now (N.told station.old) (N.told station.new) helper.old helper.new }
    ensures later { N.faults station.old ≤ N.faults station.new }
    ensures sent { OnOk result (sent_to helper.new ≤ sent_to helper.old + 1) }
{
    match helper.take() {
        Some(mut line) => {
            let result = line.consult(cookie, uid);
            *helper = Some(line);
            result
        }
        None => {
            let mut line = dial(alloc, path, station)?;
            let result = line.introduce(cookie, uid);
            *helper = Some(line);
            result
        }
    }
}
