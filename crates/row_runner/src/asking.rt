// Calls to the authority: what a message asks, and the bytes of a call.
use crate::messages::whole;
use crate::pairs::repeated_pairs;
use crate::row::{Row, Wrong};
use authority_calls::{event_of, method_named};
use authority_model::{Call, Event};
use client_messages::{call_bytes, call_is_too_long};
use dbus_values::WireMessage;
use pk_types::{Subject, Text};
use scenario_text::{Step, read_line};

fn show_subject(row: &mut Row, subject: &Subject) {
    match subject {
        Subject::Process { pid, start } => {
            row.field("process", pid);
            row.field("start", start);
        }
        Subject::Session { id } => row.named("session", id.bytes()),
        Subject::BusName { name } => row.named("bus", name.bytes()),
    }
}

/// A call, by the word that begins its line in a scenario.
fn show_call(row: &mut Row, call: &Call) {
    match call {
        Call::Check {
            subject,
            action,
            details,
            flags,
            cancel,
        } => {
            row.word("check");
            show_subject(row, subject);
            row.named("action", action.bytes());
            row.pairs("details", details.as_slice());
            row.field("flags", flags);
            row.named("cancel", cancel.bytes());
        }
        Call::Cancel { cancel } => row.named("cancel", cancel.bytes()),
        Call::Register {
            subject,
            locale,
            path,
        } => {
            row.word("register");
            show_subject(row, subject);
            row.named("locale", locale.bytes());
            row.named("path", path.bytes());
        }
        Call::Unregister { subject, path } => {
            row.word("unregister");
            show_subject(row, subject);
            row.named("path", path.bytes());
        }
        Call::Respond { cookie, identity } => {
            row.named("respond", cookie.bytes());
            row.show(identity);
        }
        Call::EnumerateActions { locale } => row.named("actions", locale.bytes()),
        Call::EnumerateGrants { subject } => {
            row.word("grants");
            show_subject(row, subject);
        }
        Call::RevokeAll { subject } => {
            row.word("revoke");
            show_subject(row, subject);
        }
        Call::RevokeOne { id } => row.named("revoke-id", id.bytes()),
        Call::Announce { pid, start } => {
            row.field("announce", pid);
            row.field("start", start);
        }
        Call::Reload => row.word("reload"),
        Call::Wrong { cause } => row.field("wrong", cause),
    }
}

fn show_event(row: &mut Row, event: &Event) {
    match event {
        Event::Call {
            serial,
            quiet,
            call,
        } => {
            row.show(serial);
            show_call(row, call);
            if *quiet {
                row.word("quiet");
            }
        }
        Event::Returned { serial } => row.field("returned", serial),
        Event::AgentError { serial, name } => {
            row.field("failed", serial);
            row.named("error", name.bytes());
        }
        Event::Passed => row.word("passed"),
        _ => row.word("other"),
    }
}

fn event_in(row: &mut Row, message: &WireMessage) {
    match event_of(row.alloc, message) {
        Ok(event) => show_event(row, &event),
        Err(_) => row.mark(Wrong::NoMemory),
    }
}

/// `event BYTES`: what a message asks, after its serial.
pub fn event(row: &mut Row) {
    match whole(row) {
        Some(message) => event_in(row, &message),
        None => row.word("NoMessage"),
    }
}

/// The bytes of a call that is not too long, under a serial other than 0.
fn write_short(row: &mut Row, call: &Call, serial: u32) {
    match call {
        Call::Wrong { .. } => row.mark(Wrong::Word),
        _ => match call_is_too_long(row.alloc, call) {
            Ok(false) => {
                if serial > 0 {
                    match call_bytes(row.alloc, call, serial) {
                        Ok(bytes) => row.quote(bytes.as_slice()),
                        Err(_) => row.mark(Wrong::NoMemory),
                    }
                } else {
                    row.mark(Wrong::Word);
                }
            }
            Ok(true) => row.word("TooLong"),
            Err(_) => row.mark(Wrong::NoMemory),
        },
    }
}

/// The bytes of the call that an event is.
fn write_call(row: &mut Row, event: &Event) {
    match event {
        Event::Call { serial, call, .. } => write_short(row, call, *serial),
        _ => row.mark(Wrong::Word),
    }
}

fn write_again(row: &mut Row, message: &WireMessage) {
    match event_of(row.alloc, message) {
        Ok(event) => write_call(row, &event),
        Err(_) => row.mark(Wrong::NoMemory),
    }
}

/// `written_again BYTES`: the bytes that a client writes for the call that a message asks.
pub fn written_again(row: &mut Row) {
    match whole(row) {
        Some(message) => write_again(row, &message),
        None => row.word("NoMessage"),
    }
}

/// `asked LINE`: the bytes that a client writes for the call that a line of a scenario is.
pub fn asked(row: &mut Row) {
    match read_line(row.alloc, row.bytes(), 1) {
        Ok(Step::Act { event, .. }) => write_call(row, &event),
        Ok(_) => row.mark(Wrong::Word),
        Err(fault) => row.refuse(&fault),
    }
}

/// `check_is_too_long ACTION TIMES KEY VALUE .. ]`: whether a check with these details is too long.
pub fn check_is_too_long(row: &mut Row) {
    let action = row.text();
    let details = repeated_pairs(row);
    let call = Call::Check {
        subject: Subject::Process { pid: 51, start: 8 },
        action,
        details,
        flags: 0,
        cancel: Text::new(row.alloc),
    };
    match call_is_too_long(row.alloc, &call) {
        Ok(is_too_long) => row.show(&is_too_long),
        Err(_) => row.mark(Wrong::NoMemory),
    }
}

/// `method INTERFACE MEMBER`: the method of this name, its arguments and its answer; `-` is no interface.
pub fn method(row: &mut Row) {
    let interface = row.bytes();
    let member = row.bytes();
    let found = if interface == b"-".as_slice() {
        method_named(None, member)
    } else {
        method_named(Some(interface), member)
    };
    row.show(&found);
    if let Some(method) = found {
        let told = method.row();
        row.named("takes", told.takes.as_bytes());
        row.named("gives", told.gives.as_bytes());
    }
}
