// The calls that tests make of the authority and of a desk, without what they promise. A test compares
// what they answer, and has no use for the definitions by which they answer.
ghost use Rattle.std.specs.Prelude.{◌≤◌, ◌^◌};
ghost use Rattle.authority_model.specs.Given.{IsStepped};

use authority_core::{Authority, Batch, CollectStepRefused, LoadStepRefused, StepRefused};
use authority_desk::Desk;
use authority_model::{Decision, Entry, Event, Loaded};
use pk_types::{NoMemory, Subject, Text};

/// Hands an event in, with salt 0, and gives what it is answered.
pub fn step(
    authority: &mut Authority,
    caller: u32,
    moment: u64,
    event: Event,
) -> Result<u64, StepRefused>
    requires event { IsStepped event }
    requires moment { moment ≤ 2 ^ 62 }
{
    authority.step(caller, moment, 0, event)
}

/// Hands a load in by caller 0, and gives what it is answered.
pub fn load(authority: &mut Authority, moment: u64, loaded: Loaded) -> Result<u64, LoadStepRefused>
    requires moment { moment ≤ 2 ^ 62 }
{
    authority.load(0, moment, loaded)
}

/// Whether a caller may collect the outputs to a connection.
pub fn ready(authority: &Authority, caller: u32, of: u32) -> bool {
    authority.ready(caller, of)
}

/// What a caller collects of the outputs to a connection, and `None` where it has to wait for them.
pub fn collect(
    authority: &mut Authority,
    caller: u32,
    of: u32,
) -> Option<Result<Batch, CollectStepRefused>> {
    if authority.ready(caller, of) {
        Some(authority.collect(caller, of))
    } else {
        None
    }
}

/// What is decided of an action for a process, at the journal's greatest moment.
pub fn decide(authority: &Authority, subject: &Subject, id: &Text) -> Option<Decision> {
    authority.decide(0, subject, id)
}

/// Hands an event of connection 1 in to a desk, at moment 1 and with salt 0, and gives its entry.
pub fn desk_step(desk: &mut Desk, event: Event) -> Result<Entry, NoMemory>
    requires event { IsStepped event }
{
    desk.step(1, 1, 0, event).map_err(|_| NoMemory)
}

/// Hands a Collect in to a desk: caller 9 takes the outputs to connection 1.
pub fn desk_collect(desk: &mut Desk) -> Result<Entry, NoMemory> {
    desk.collect(9, 1).map_err(|_| NoMemory)
}

/// The entry, and the output in it, of an output to a connection.
pub fn place(desk: &Desk, to: u32, number: u32) -> Option<(u64, u32)> {
    desk.peers().place(to, number)
}

/// How many of the outputs to a connection a caller has collected.
pub fn collected(desk: &Desk, caller: u32, of: u32) -> u32 {
    desk.peers().collected(caller, of)
}
