// The lines that make an event of a connection: a function for each word that they begin with.
ghost use Rattle.std.specs.Prelude.{◌≡◌, false, map, IfOk};
ghost use Rattle.pk_types.specs.Text.{IsText};
ghost use Rattle.scenario_text.specs.Faults.{Gives};
ghost use Rattle.scenario_text.specs.Runs.{IsRunnable};
ghost use Rattle.scenario_text.specs.CallerLines.{check_event, error_line, peer_line, depart_line, announce_line, check_line, cancel_line, register_line, unregister_line, respond_line, return_line, dismiss_line, fail_line, actions_line, grants_line, revoke_line, revoke_id_line, caller_line};

use crate::check_options::CheckOptions;
use crate::fault::LineKind;
use crate::first_word::CallerWord;
use crate::step::Step;
use crate::subjects::{identity_word, subject_word};
use crate::words::{caller_word, number_32, number_64, serial_word, text_word};
use authority_model::{Call, Event};
use pk_types::{List, Text};
use std::alloc::Global;

/// A call, which wants its reply.
fn called(caller: u32, serial: u32, call: Call) -> Step
    ensures step { result ≡ Step.Act caller (Event.Call serial false call) }
{
    Step::Act {
        caller,
        event: Event::Call {
            serial,
            quiet: false,
            call,
        },
    }
}

/// `peer N UID`.
fn peer_words(args: &[&[u8]]) -> Result<Step, LineKind>
    ensures value { Gives result (peer_line (map (λ word. word.now) args.now)) }
    ensures runs { IfOk result IsRunnable }
{
    match args {
        [caller, uid] => {
            let caller = caller_word(caller)?;
            let uid = number_32(uid)?;
            let event = Event::Connect { uid };
            Ok(Step::Act { caller, event })
        }
        _ => Err(LineKind::Count),
    }
}

/// `depart N`.
fn depart_words(args: &[&[u8]]) -> Result<Step, LineKind>
    ensures value { Gives result (depart_line (map (λ word. word.now) args.now)) }
    ensures runs { IfOk result IsRunnable }
{
    match args {
        [caller] => {
            let caller = caller_word(caller)?;
            let event = Event::Depart;
            Ok(Step::Act { caller, event })
        }
        _ => Err(LineKind::Count),
    }
}

/// `announce N S PID START`.
fn announce_words(args: &[&[u8]]) -> Result<Step, LineKind>
    ensures value { Gives result (announce_line (map (λ word. word.now) args.now)) }
    ensures runs { IfOk result IsRunnable }
{
    match args {
        [caller, serial, pid, start] => {
            let caller = caller_word(caller)?;
            let serial = serial_word(serial)?;
            let pid = number_32(pid)?;
            let start = number_64(start)?;
            Ok(called(caller, serial, Call::Announce { pid, start }))
        }
        _ => Err(LineKind::Count),
    }
}

#[tactic(auto, unfolding(crate::specs::CallerLines::check_event))]
fn check(
    alloc: Global,
    caller: &[u8],
    serial: &[u8],
    subject: &[u8],
    action: &[u8],
    more: &[&[u8]],
) -> Result<Step, LineKind>
    ensures value { Gives result (check_event caller.now serial.now subject.now action.now (map (λ word. word.now) more.now)) }
    ensures runs { IfOk result IsRunnable }
{
    let caller = caller_word(caller)?;
    let serial = serial_word(serial)?;
    let subject = subject_word(alloc, subject)?;
    let action = text_word(alloc, action)?;
    let options = CheckOptions::read(alloc, more)?;
    Ok(called(
        caller,
        serial,
        Call::Check {
            subject,
            action,
            details: List::new(alloc),
            flags: options.flags,
            cancel: options.cancel,
        },
    ))
}

/// `check N S SUBJECT ACTION [ask] [cancel=ID]`.
fn check_words(alloc: Global, args: &[&[u8]]) -> Result<Step, LineKind>
    ensures value { Gives result (check_line (map (λ word. word.now) args.now)) }
    ensures runs { IfOk result IsRunnable }
{
    match args {
        [caller, serial, subject, action, more @ ..] if more.len() <= 2 => {
            check(alloc, caller, serial, subject, action, more)
        }
        _ => Err(LineKind::Count),
    }
}

/// `cancel N S ID`.
fn cancel_words(alloc: Global, args: &[&[u8]]) -> Result<Step, LineKind>
    ensures value { Gives result (cancel_line (map (λ word. word.now) args.now)) }
    ensures runs { IfOk result IsRunnable }
{
    match args {
        [caller, serial, id] => {
            let caller = caller_word(caller)?;
            let serial = serial_word(serial)?;
            let cancel = text_word(alloc, id)?;
            Ok(called(caller, serial, Call::Cancel { cancel }))
        }
        _ => Err(LineKind::Count),
    }
}

/// `register N S SUBJECT PATH`.
fn register_words(alloc: Global, args: &[&[u8]]) -> Result<Step, LineKind>
    ensures value { Gives result (register_line (map (λ word. word.now) args.now)) }
    ensures runs { IfOk result IsRunnable }
{
    match args {
        [caller, serial, subject, path] => {
            let caller = caller_word(caller)?;
            let serial = serial_word(serial)?;
            let subject = subject_word(alloc, subject)?;
            let path = text_word(alloc, path)?;
            let locale = Text::of_known(alloc, b"C".as_slice())?;
            Ok(called(
                caller,
                serial,
                Call::Register {
                    subject,
                    locale,
                    path,
                },
            ))
        }
        _ => Err(LineKind::Count),
    }
}

/// `unregister N S SUBJECT PATH`.
fn unregister_words(alloc: Global, args: &[&[u8]]) -> Result<Step, LineKind>
    ensures value { Gives result (unregister_line (map (λ word. word.now) args.now)) }
    ensures runs { IfOk result IsRunnable }
{
    match args {
        [caller, serial, subject, path] => {
            let caller = caller_word(caller)?;
            let serial = serial_word(serial)?;
            let subject = subject_word(alloc, subject)?;
            let path = text_word(alloc, path)?;
            Ok(called(caller, serial, Call::Unregister { subject, path }))
        }
        _ => Err(LineKind::Count),
    }
}

/// `respond N S COOKIE user:UID`.
fn respond_words(alloc: Global, args: &[&[u8]]) -> Result<Step, LineKind>
    ensures value { Gives result (respond_line (map (λ word. word.now) args.now)) }
    ensures runs { IfOk result IsRunnable }
{
    match args {
        [caller, serial, cookie, identity] => {
            let caller = caller_word(caller)?;
            let serial = serial_word(serial)?;
            let identity = identity_word(alloc, identity)?;
            let cookie = text_word(alloc, cookie)?;
            Ok(called(caller, serial, Call::Respond { cookie, identity }))
        }
        _ => Err(LineKind::Count),
    }
}

/// `return N S`.
fn returned_words(args: &[&[u8]]) -> Result<Step, LineKind>
    ensures value { Gives result (return_line (map (λ word. word.now) args.now)) }
    ensures runs { IfOk result IsRunnable }
{
    match args {
        [caller, serial] => {
            let caller = caller_word(caller)?;
            let serial = serial_word(serial)?;
            let event = Event::Returned { serial };
            Ok(Step::Act { caller, event })
        }
        _ => Err(LineKind::Count),
    }
}

/// `N S`: the agent replies with the error of this name.
fn error_words(alloc: Global, args: &[&[u8]], name: &[u8]) -> Result<Step, LineKind>
    requires { IsText name.now }
    ensures value { Gives result (error_line name.now (map (λ word. word.now) args.now)) }
    ensures runs { IfOk result IsRunnable }
{
    match args {
        [caller, serial] => {
            let caller = caller_word(caller)?;
            let serial = serial_word(serial)?;
            let name = Text::of_known(alloc, name)?;
            let event = Event::AgentError { serial, name };
            Ok(Step::Act { caller, event })
        }
        _ => Err(LineKind::Count),
    }
}

/// `dismiss N S`.
fn dismiss_words(alloc: Global, args: &[&[u8]]) -> Result<Step, LineKind>
    ensures value { Gives result (dismiss_line (map (λ word. word.now) args.now)) }
    ensures runs { IfOk result IsRunnable }
{
    let name = b"org.freedesktop.PolicyKit1.Error.Cancelled";
    error_words(alloc, args, name.as_slice())
}

/// `fail N S`.
fn fail_words(alloc: Global, args: &[&[u8]]) -> Result<Step, LineKind>
    ensures value { Gives result (fail_line (map (λ word. word.now) args.now)) }
    ensures runs { IfOk result IsRunnable }
{
    let name = b"org.freedesktop.PolicyKit1.Error.Failed";
    error_words(alloc, args, name.as_slice())
}

/// `actions N S LOCALE`.
fn actions_words(alloc: Global, args: &[&[u8]]) -> Result<Step, LineKind>
    ensures value { Gives result (actions_line (map (λ word. word.now) args.now)) }
    ensures runs { IfOk result IsRunnable }
{
    match args {
        [caller, serial, locale] => {
            let caller = caller_word(caller)?;
            let serial = serial_word(serial)?;
            let locale = text_word(alloc, locale)?;
            Ok(called(caller, serial, Call::EnumerateActions { locale }))
        }
        _ => Err(LineKind::Count),
    }
}

/// `grants N S SUBJECT`.
fn grants_words(alloc: Global, args: &[&[u8]]) -> Result<Step, LineKind>
    ensures value { Gives result (grants_line (map (λ word. word.now) args.now)) }
    ensures runs { IfOk result IsRunnable }
{
    match args {
        [caller, serial, subject] => {
            let caller = caller_word(caller)?;
            let serial = serial_word(serial)?;
            let subject = subject_word(alloc, subject)?;
            Ok(called(caller, serial, Call::EnumerateGrants { subject }))
        }
        _ => Err(LineKind::Count),
    }
}

/// `revoke N S SUBJECT`.
fn revoke_words(alloc: Global, args: &[&[u8]]) -> Result<Step, LineKind>
    ensures value { Gives result (revoke_line (map (λ word. word.now) args.now)) }
    ensures runs { IfOk result IsRunnable }
{
    match args {
        [caller, serial, subject] => {
            let caller = caller_word(caller)?;
            let serial = serial_word(serial)?;
            let subject = subject_word(alloc, subject)?;
            Ok(called(caller, serial, Call::RevokeAll { subject }))
        }
        _ => Err(LineKind::Count),
    }
}

/// `revoke-id N S ID`.
fn revoke_id_words(alloc: Global, args: &[&[u8]]) -> Result<Step, LineKind>
    ensures value { Gives result (revoke_id_line (map (λ word. word.now) args.now)) }
    ensures runs { IfOk result IsRunnable }
{
    match args {
        [caller, serial, id] => {
            let caller = caller_word(caller)?;
            let serial = serial_word(serial)?;
            let id = text_word(alloc, id)?;
            Ok(called(caller, serial, Call::RevokeOne { id }))
        }
        _ => Err(LineKind::Count),
    }
}

/// A line that begins with this word, by the words after it.
pub fn caller_step(alloc: Global, word: CallerWord, args: &[&[u8]]) -> Result<Step, LineKind>
    ensures value { Gives result (caller_line word (map (λ word. word.now) args.now)) }
    ensures runs { IfOk result IsRunnable }
{
    match word {
        CallerWord::Peer => peer_words(args),
        CallerWord::Depart => depart_words(args),
        CallerWord::Announce => announce_words(args),
        CallerWord::Check => check_words(alloc, args),
        CallerWord::Cancel => cancel_words(alloc, args),
        CallerWord::Register => register_words(alloc, args),
        CallerWord::Unregister => unregister_words(alloc, args),
        CallerWord::Respond => respond_words(alloc, args),
        CallerWord::Return => returned_words(args),
        CallerWord::Dismiss => dismiss_words(alloc, args),
        CallerWord::Fail => fail_words(alloc, args),
        CallerWord::Actions => actions_words(alloc, args),
        CallerWord::Grants => grants_words(alloc, args),
        CallerWord::Revoke => revoke_words(alloc, args),
        CallerWord::RevokeId => revoke_id_words(alloc, args),
    }
}
