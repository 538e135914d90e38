// What happens to the authority.
ghost use Rattle.audit_values.specs.Events.{call, event};

use crate::spell::Spell;
use audit_words::{Kind, LineBuffer, Stop, Words, put_plain};
use authority_model::{Call, ErrorCause, Event};
use pk_types::{Identity, List, Subject};

impl Spell for Call {
    ghost codec = { call };

    #[tactic(auto, using(audit_words::proofs::Putting::put_rules))]
    fn put_words(&self, line: &mut LineBuffer) {
        match self {
            Call::Announce { pid, start } => {
                put_plain(line, b"Announce");
                pid.put_words(line);
                start.put_words(line);
            }
            Call::Check {
                subject,
                action,
                details,
                flags,
                cancel,
            } => {
                put_plain(line, b"Check");
                subject.put_words(line);
                action.put_words(line);
                details.put_words(line);
                flags.put_words(line);
                cancel.put_words(line);
            }
            Call::Cancel { cancel } => {
                put_plain(line, b"Cancel");
                cancel.put_words(line);
            }
            Call::Register {
                subject,
                locale,
                path,
            } => {
                put_plain(line, b"Register");
                subject.put_words(line);
                locale.put_words(line);
                path.put_words(line);
            }
            Call::Unregister { subject, path } => {
                put_plain(line, b"Unregister");
                subject.put_words(line);
                path.put_words(line);
            }
            Call::Respond { cookie, identity } => {
                put_plain(line, b"Respond");
                cookie.put_words(line);
                identity.put_words(line);
            }
            Call::EnumerateActions { locale } => {
                put_plain(line, b"EnumerateActions");
                locale.put_words(line);
            }
            Call::EnumerateGrants { subject } => {
                put_plain(line, b"EnumerateGrants");
                subject.put_words(line);
            }
            Call::RevokeAll { subject } => {
                put_plain(line, b"RevokeAll");
                subject.put_words(line);
            }
            Call::RevokeOne { id } => {
                put_plain(line, b"RevokeOne");
                id.put_words(line);
            }
            Call::Reload => put_plain(line, b"Reload"),
            Call::Wrong { cause } => {
                put_plain(line, b"Wrong");
                cause.put_words(line);
            }
        }
    }

    fn take_from(words: &mut Words) -> Result<Call, Stop> {
        let name = words.name()?;
        if name == b"Announce".as_slice() {
            let pid = words.u32()?;
            let start = words.u64()?;
            Ok(Call::Announce { pid, start })
        } else if name == b"Check".as_slice() {
            let subject = Subject::take_from(words)?;
            let action = words.text()?;
            let details = List::take_from(words)?;
            let flags = words.u32()?;
            let cancel = words.text()?;
            Ok(Call::Check {
                subject,
                action,
                details,
                flags,
                cancel,
            })
        } else if name == b"Cancel".as_slice() {
            let cancel = words.text()?;
            Ok(Call::Cancel { cancel })
        } else if name == b"Register".as_slice() {
            let subject = Subject::take_from(words)?;
            let locale = words.text()?;
            let path = words.text()?;
            Ok(Call::Register {
                subject,
                locale,
                path,
            })
        } else if name == b"Unregister".as_slice() {
            let subject = Subject::take_from(words)?;
            let path = words.text()?;
            Ok(Call::Unregister { subject, path })
        } else if name == b"Respond".as_slice() {
            let cookie = words.text()?;
            let identity = Identity::take_from(words)?;
            Ok(Call::Respond { cookie, identity })
        } else if name == b"EnumerateActions".as_slice() {
            let locale = words.text()?;
            Ok(Call::EnumerateActions { locale })
        } else if name == b"EnumerateGrants".as_slice() {
            let subject = Subject::take_from(words)?;
            Ok(Call::EnumerateGrants { subject })
        } else if name == b"RevokeAll".as_slice() {
            let subject = Subject::take_from(words)?;
            Ok(Call::RevokeAll { subject })
        } else if name == b"RevokeOne".as_slice() {
            let id = words.text()?;
            Ok(Call::RevokeOne { id })
        } else if name == b"Reload".as_slice() {
            Ok(Call::Reload)
        } else if name == b"Wrong".as_slice() {
            let cause = ErrorCause::take_from(words)?;
            Ok(Call::Wrong { cause })
        } else {
            Err(Stop::Fault(Kind::Value))
        }
    }
}

impl Spell for Event {
    ghost codec = { event };

    #[tactic(auto, using(audit_words::proofs::Putting::put_rules))]
    fn put_words(&self, line: &mut LineBuffer) {
        match self {
            Event::Connect { uid } => {
                put_plain(line, b"Connect");
                uid.put_words(line);
            }
            Event::Call {
                serial,
                quiet,
                call,
            } => {
                put_plain(line, b"Call");
                serial.put_words(line);
                quiet.put_words(line);
                call.put_words(line);
            }
            Event::Returned { serial } => {
                put_plain(line, b"Returned");
                serial.put_words(line);
            }
            Event::AgentError { serial, name } => {
                put_plain(line, b"AgentError");
                serial.put_words(line);
                name.put_words(line);
            }
            Event::Passed => put_plain(line, b"Passed"),
            Event::Depart => put_plain(line, b"Depart"),
            Event::Load { load } => {
                put_plain(line, b"Load");
                load.put_words(line);
            }
            Event::LoadFailed { code } => {
                put_plain(line, b"LoadFailed");
                code.put_words(line);
            }
            Event::Stop => put_plain(line, b"Stop"),
            Event::Collect { of } => {
                put_plain(line, b"Collect");
                of.put_words(line);
            }
        }
    }

    fn take_from(words: &mut Words) -> Result<Event, Stop> {
        let name = words.name()?;
        if name == b"Connect".as_slice() {
            let uid = words.u32()?;
            Ok(Event::Connect { uid })
        } else if name == b"Call".as_slice() {
            let serial = words.u32()?;
            let quiet = words.boolean()?;
            let call = Call::take_from(words)?;
            Ok(Event::Call {
                serial,
                quiet,
                call,
            })
        } else if name == b"Returned".as_slice() {
            let serial = words.u32()?;
            Ok(Event::Returned { serial })
        } else if name == b"AgentError".as_slice() {
            let serial = words.u32()?;
            let name = words.text()?;
            Ok(Event::AgentError { serial, name })
        } else if name == b"Passed".as_slice() {
            Ok(Event::Passed)
        } else if name == b"Depart".as_slice() {
            Ok(Event::Depart)
        } else if name == b"Load".as_slice() {
            let load = words.u32()?;
            Ok(Event::Load { load })
        } else if name == b"LoadFailed".as_slice() {
            let code = words.u32()?;
            Ok(Event::LoadFailed { code })
        } else if name == b"Stop".as_slice() {
            Ok(Event::Stop)
        } else if name == b"Collect".as_slice() {
            let of = words.u32()?;
            Ok(Event::Collect { of })
        } else {
            Err(Stop::Fault(Kind::Value))
        }
    }
}
