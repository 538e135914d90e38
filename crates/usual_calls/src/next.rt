// What the next message asks.
ghost use Rattle.std.specs.Prelude.{IfOk, IfSome};
ghost use Rattle.authority_model.specs.Given.{IsStepped};
ghost use Rattle.usual_calls.specs.Nexts.{Asks, Tells, TellsStep};

use crate::checks::check_in;
use crate::usual::Usual;
use authority_calls::{NO_REPLY_EXPECTED, event_of};
use authority_model::Event;
use dbus_values::{FaultKind, Next, next_message};
use pk_types::NoMemory;
use std::alloc::Global;

/// What a stream of bytes begins with, and what it asks.
#[derive(Drop)]
pub enum NextEvent {
    /// A whole message of so many bytes, which asks this.
    Whole { event: Event, used: usize },
    /// Less than a whole message.
    Partial,
    /// The first fault, and its place.
    Bad { kind: FaultKind, at: usize },
    /// Memory was refused.
    NoMemory,
}

/// What the next message asks, and how many bytes it has, where it is a check in its usual form.
#[tactic(auto, using(crate::proofs::Quick::call_next, crate::proofs::Quick::more_shorter))]
fn quick_event(
    alloc: Global,
    usual: &Usual,
    bytes: &[u8],
) -> Result<Option<(Event, usize)>, NoMemory>
    ensures next { IfOk result (λ found. IfSome found (λ (event, used). Asks bytes.now event used)) }
    ensures stepped { IfOk result (λ found. IfSome found (λ (event, _). IsStepped event)) }
{
    let Some(start) = usual.start_in(bytes) else {
        return Ok(None);
    };
    let Some(call) = check_in(alloc, start.body)? else {
        return Ok(None);
    };
    let event = Event::Call {
        serial: start.serial,
        quiet: start.flags % (2 * NO_REPLY_EXPECTED) == NO_REPLY_EXPECTED,
        call,
    };
    Ok(Some((event, bytes.len() - start.more.len())))
}

/// What the bytes begin with, and what the message asks that they begin with. A check whose header is
/// that of the check before it is read straight from its bytes, where its arguments have their usual
/// form; every other message is read part by part.
pub fn next_event(alloc: Global, usual: &mut Usual, bytes: &[u8]) -> NextEvent
    // A whole message, with what it asks; less than one; or the first fault.
    ensures exact { Tells bytes.now result }
    // What a message asks is an event that a step takes.
    ensures stepped { TellsStep result }
{
    match quick_event(alloc, usual, bytes) {
        Ok(Some((event, used))) => return NextEvent::Whole { event, used },
        Ok(None) => {}
        Err(NoMemory) => return NextEvent::NoMemory,
    }
    match next_message(bytes) {
        Next::Whole { message, used } => {
            usual.learn(&message, bytes, used);
            match event_of(alloc, &message) {
                Ok(event) => NextEvent::Whole { event, used },
                Err(NoMemory) => NextEvent::NoMemory,
            }
        }
        Next::Partial => NextEvent::Partial,
        Next::Bad { kind, at } => NextEvent::Bad { kind, at },
    }
}
