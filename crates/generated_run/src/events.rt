// The calls of a run.
ghost use Rattle.std.specs.Prelude.{◌≡◌, ◌<◌, IfOk};
ghost use Rattle.authority_model.specs.Answers.{cancelled_name};
ghost use Rattle.authority_model.specs.Given.{IsStepped};
ghost use Rattle.generated_run.specs.Run.{the_process, registration, check, response};

use crate::asked::Asked;
use crate::texts::text;
use authority_model::{ALLOW_USER_INTERACTION, Call, Event};
use pk_types::{Identity, List, NoMemory, Subject, Text};
use std::alloc::Global;

/// The process of the i-th user.
fn process(i: u32) -> Subject
    requires { i < 8 }
    ensures process { result ≡ the_process i }
{
    Subject::Process {
        pid: 100 + i,
        start: 1,
    }
}

/// The registration of an agent for the i-th user's process.
pub fn registration(alloc: Global, i: u32) -> Result<Event, NoMemory>
    requires { i < 8 }
    ensures event { IfOk result (λ event. event ≡ registration i) }
    ensures stepped { IfOk result IsStepped }
{
    let locale = text(alloc, b"C".as_slice())?;
    let path = text(alloc, b"/a".as_slice())?;
    Ok(Event::Call {
        serial: 1,
        quiet: false,
        call: Call::Register {
            subject: process(i),
            locale,
            path,
        },
    })
}

/// The k-th check, which asks about the process of its caller.
pub fn check(alloc: Global, k: u32) -> Result<Event, NoMemory>
    requires { k < 100000 }
    ensures event { IfOk result (λ event. event ≡ check k) }
    ensures stepped { IfOk result IsStepped }
{
    let i = k % 6;
    let action = format!(in alloc; "l.{i}")?;
    let action = text(alloc, action.as_bytes())?;
    Ok(Event::Call {
        serial: k + 2,
        quiet: false,
        call: Call::Check {
            subject: process(k % 8),
            action,
            details: List::new(alloc),
            flags: ALLOW_USER_INTERACTION,
            cancel: Text::new(alloc),
        },
    })
}

/// Root's answer to what the k-th check asks: the user was authenticated.
pub fn response(alloc: Global, k: u32, asked: Asked) -> Result<Event, NoMemory>
    requires { k < 100000 }
    ensures event { IfOk result (λ event. event ≡ response k asked) }
    ensures stepped { IfOk result IsStepped }
{
    let mut cookie = String::new(alloc);
    asked.cookie.push_text(&mut cookie)?;
    let cookie = text(alloc, cookie.as_bytes())?;
    Ok(Event::Call {
        serial: k + 2,
        quiet: false,
        call: Call::Respond {
            cookie,
            identity: Identity::User(asked.uid),
        },
    })
}

/// The name of the error by which an agent says that the user dismissed its dialogue.
pub fn cancelled(alloc: Global) -> Result<Text, NoMemory>
    ensures name { IfOk result (λ name. name ≡ cancelled_name) }
{
    text(
        alloc,
        b"org.freedesktop.PolicyKit1.Error.Cancelled".as_slice(),
    )
}
