// Copies of events, as far as there is memory.
ghost use Rattle.std.specs.Prelude.{◌≡◌, IfOk};

use crate::{Call, Event};
use pk_types::{NoMemory, TryCopy};

impl TryCopy for Call {
    fn try_copy(&self) -> Result<Call, NoMemory> {
        Ok(match self {
            Call::Announce { pid, start } => Call::Announce {
                pid: *pid,
                start: *start,
            },
            Call::Check {
                subject,
                action,
                details,
                flags,
                cancel,
            } => Call::Check {
                subject: subject.try_copy()?,
                action: action.try_copy()?,
                details: details.try_copy()?,
                flags: *flags,
                cancel: cancel.try_copy()?,
            },
            Call::Cancel { cancel } => Call::Cancel {
                cancel: cancel.try_copy()?,
            },
            Call::Register {
                subject,
                locale,
                path,
            } => Call::Register {
                subject: subject.try_copy()?,
                locale: locale.try_copy()?,
                path: path.try_copy()?,
            },
            Call::Unregister { subject, path } => Call::Unregister {
                subject: subject.try_copy()?,
                path: path.try_copy()?,
            },
            Call::Respond { cookie, identity } => Call::Respond {
                cookie: cookie.try_copy()?,
                identity: *identity,
            },
            Call::EnumerateActions { locale } => Call::EnumerateActions {
                locale: locale.try_copy()?,
            },
            Call::EnumerateGrants { subject } => Call::EnumerateGrants {
                subject: subject.try_copy()?,
            },
            Call::RevokeAll { subject } => Call::RevokeAll {
                subject: subject.try_copy()?,
            },
            Call::RevokeOne { id } => Call::RevokeOne { id: id.try_copy()? },
            Call::Reload => Call::Reload,
            Call::Wrong { cause } => Call::Wrong { cause: *cause },
        })
    }
}

impl TryCopy for Event {
    fn try_copy(&self) -> Result<Event, NoMemory> {
        Ok(match self {
            Event::Connect { uid } => Event::Connect { uid: *uid },
            Event::Call {
                serial,
                quiet,
                call,
            } => Event::Call {
                serial: *serial,
                quiet: *quiet,
                call: call.try_copy()?,
            },
            Event::Returned { serial } => Event::Returned { serial: *serial },
            Event::AgentError { serial, name } => Event::AgentError {
                serial: *serial,
                name: name.try_copy()?,
            },
            Event::Passed => Event::Passed,
            Event::Depart => Event::Depart,
            Event::Load { load } => Event::Load { load: *load },
            Event::LoadFailed { code } => Event::LoadFailed { code: *code },
            Event::Stop => Event::Stop,
            Event::Collect { of } => Event::Collect { of: *of },
        })
    }
}
