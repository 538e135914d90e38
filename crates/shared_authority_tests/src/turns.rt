// What each of several threads hands in, turn by turn, and what it is told.
ghost use Rattle.std.specs.Prelude.{IfOk};
ghost use Rattle.authority_model.specs.Given.{IsStepped};

use authority_model::{
    Action, ActionList, Answer, Call, Cookie, ErrorCause, Event, Loaded, Message, Output, Process,
    ProcessList,
};
use pk_types::{Implicit, List, NoMemory, Subject, Text};
use std::alloc::Global;
use test_values::{action_id, one, text};

/// How many turns a thread has.
pub const TURNS: u32 = 200;

/// What a connection does in a turn.
#[derive(Clone, Copy, PartialEq, Eq)]
pub enum Turn {
    Connect,
    Call(Called),
    /// Replies to what was sent with this serial.
    Return(u32),
    Pass,
    Depart,
}

/// What a connection calls in a turn.
#[derive(Clone, Copy, PartialEq, Eq)]
pub enum Called {
    Announce,
    /// A check of the one action, for which an agent may be asked.
    Ask,
    /// A check of an action that no policy has.
    CheckUnknown,
    /// Ends the pending check of this connection.
    Cancel,
    /// Registers as the agent of the one process.
    Register,
    Unregister,
    Enumerate,
}

/// What is told by an output.
#[derive(Clone, Copy, PartialEq, Eq)]
pub enum Told {
    Refused(ErrorCause),
    Done,
    Name,
    Actions(u32),
    Verdict { yes: bool, challenge: bool },
    Grants,
    Begin(Cookie),
    CancelBegin(Cookie),
    Changed,
    ToLoader,
}

/// A number that a connection and the number of its turn make, in no order that one could guess.
fn mixed(caller: u32, number: u32) -> u32 {
    let seed = caller.wrapping_mul(65_537).wrapping_add(number);
    let once = seed.wrapping_mul(1_664_525).wrapping_add(1_013_904_223);
    (once ^ (once >> 15)).wrapping_mul(747_796_405) >> 16
}

/// The turn of a connection with this number, counted from 0: it connects first, and departs last.
pub fn turn_at(caller: u32, number: u32) -> Turn {
    if number == 0 {
        return Turn::Connect;
    }
    if number == TURNS - 1 {
        return Turn::Depart;
    }
    let mixed = mixed(caller, number);
    match mixed % 10 {
        0 => Turn::Call(Called::Announce),
        1 | 2 => Turn::Call(Called::Ask),
        3 => Turn::Call(Called::CheckUnknown),
        4 => Turn::Call(Called::Cancel),
        5 => Turn::Call(Called::Register),
        6 => Turn::Call(Called::Unregister),
        7 => Turn::Call(Called::Enumerate),
        8 => Turn::Return(mixed / 10 % 64),
        _ => Turn::Pass,
    }
}

/// The one process.
const SUBJECT: Subject = Subject::Process { pid: 5, start: 5 };

/// A check that may be cancelled.
fn check(alloc: Global, id: &str) -> Result<Call, NoMemory> {
    let action = text(alloc, id)?;
    let cancel = text(alloc, "c")?;
    Ok(Call::Check {
        subject: SUBJECT,
        action,
        details: List::new(alloc),
        flags: 1,
        cancel,
    })
}

/// A cancelling of what may be cancelled.
fn cancelling(alloc: Global) -> Result<Call, NoMemory> {
    let cancel = text(alloc, "c")?;
    Ok(Call::Cancel { cancel })
}

/// A registration at the one path.
fn registration(alloc: Global) -> Result<Call, NoMemory> {
    let path = text(alloc, "/a")?;
    Ok(Call::Register {
        subject: SUBJECT,
        locale: Text::new(alloc),
        path,
    })
}

/// The end of that registration.
fn unregistration(alloc: Global) -> Result<Call, NoMemory> {
    let path = text(alloc, "/a")?;
    Ok(Call::Unregister {
        subject: SUBJECT,
        path,
    })
}

/// The call of a turn.
fn call_of(alloc: Global, called: Called) -> Result<Call, NoMemory> {
    match called {
        Called::Announce => Ok(Call::Announce { pid: 5, start: 5 }),
        Called::Ask => check(alloc, "a.ask"),
        Called::CheckUnknown => check(alloc, "a.none"),
        Called::Cancel => cancelling(alloc),
        Called::Register => registration(alloc),
        Called::Unregister => unregistration(alloc),
        Called::Enumerate => Ok(Call::EnumerateActions {
            locale: Text::new(alloc),
        }),
    }
}

/// The event of a call.
fn call_event(alloc: Global, serial: u32, called: Called) -> Result<Event, NoMemory>
    ensures stepped { IfOk result IsStepped }
{
    let call = call_of(alloc, called)?;
    Ok(Event::Call {
        serial,
        quiet: false,
        call,
    })
}

/// The event of a connection's turn with this number.
pub fn event_at(alloc: Global, caller: u32, number: u32) -> Result<Event, NoMemory>
    ensures stepped { IfOk result IsStepped }
{
    match turn_at(caller, number) {
        Turn::Connect => Ok(Event::Connect { uid: 1000 }),
        Turn::Call(called) => call_event(alloc, number, called),
        Turn::Return(serial) => Ok(Event::Returned { serial }),
        Turn::Pass => Ok(Event::Passed),
        Turn::Depart => Ok(Event::Depart),
    }
}

/// What is called by a call.
fn called_by(call: &Call) -> Option<Called> {
    match call {
        Call::Announce { .. } => Some(Called::Announce),
        Call::Check { action, .. } => Some(if action.bytes() == b"a.ask".as_slice() {
            Called::Ask
        } else {
            Called::CheckUnknown
        }),
        Call::Cancel { .. } => Some(Called::Cancel),
        Call::Register { .. } => Some(Called::Register),
        Call::Unregister { .. } => Some(Called::Unregister),
        Call::EnumerateActions { .. } => Some(Called::Enumerate),
        _ => None,
    }
}

/// The turn that an event is.
pub fn turn_of(event: &Event) -> Option<Turn> {
    match event {
        Event::Call { call, .. } => Some(Turn::Call(called_by(call)?)),
        Event::Connect { .. } => Some(Turn::Connect),
        Event::Returned { serial } => Some(Turn::Return(*serial)),
        Event::Passed => Some(Turn::Pass),
        Event::Depart => Some(Turn::Depart),
        _ => None,
    }
}

/// What an answer tells.
fn told_by_answer(answer: &Answer) -> Told {
    match answer {
        Answer::Verdict(verdict) => Told::Verdict {
            yes: verdict.yes,
            challenge: verdict.challenge,
        },
        Answer::Done => Told::Done,
        Answer::Name(_) => Told::Name,
        Answer::Actions { load, .. } => Told::Actions(*load),
        Answer::Grants(_) => Told::Grants,
        Answer::Refused(cause) => Told::Refused(*cause),
    }
}

/// What an output tells, with the serial that it replies to, or 0.
fn told_by(output: &Output) -> (u32, Told) {
    match &output.message {
        Message::Reply { serial, answer } => (*serial, told_by_answer(answer)),
        Message::Begin { cookie, .. } => (0, Told::Begin(*cookie)),
        Message::CancelBegin { cookie, .. } => (0, Told::CancelBegin(*cookie)),
        Message::Changed => (0, Told::Changed),
        Message::LoadWanted | Message::StopWanted => (0, Told::ToLoader),
    }
}

/// Whether two outputs tell the same connection the same.
pub fn is_same_output(one: &Output, other: &Output) -> bool {
    one.to == other.to && told_by(one) == told_by(other)
}

/// The action for which users authenticate.
fn asked(alloc: Global) -> Result<Action, NoMemory> {
    let id = action_id(alloc, "a.ask")?;
    let ask = Implicit::AuthSelf;
    Ok(Action::plain(alloc, id, ask, ask, ask))
}

fn actions(alloc: Global) -> Result<ActionList, NoMemory> {
    one(alloc, asked(alloc)?)
}

fn processes(alloc: Global) -> Result<ProcessList, NoMemory> {
    let process = Process {
        pid: 5,
        start: 5,
        uid: 1000,
        session: None,
    };
    one(alloc, process)
}

/// A load with the one action and the one process.
pub fn one_load(alloc: Global) -> Result<Loaded, NoMemory> {
    let actions = actions(alloc)?;
    let processes = processes(alloc)?;
    let mut loaded = Loaded::empty(alloc);
    loaded.policy.actions = actions;
    loaded.world.processes = processes;
    Ok(loaded)
}
