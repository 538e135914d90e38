// What calls are answered.
ghost use Rattle.std.specs.Prelude.{◌≡◌};
ghost use Rattle.audit_words.specs.Codecs.{named_in};
ghost use Rattle.audit_values.specs.Answers.{key, reason, verdict, grant_row, error_cause, error_cause_name, error_cause_names, answer};

use crate::spell::Spell;
use audit_words::{Kind, LineBuffer, Stop, Words, put_plain};
use authority_model::{Answer, ErrorCause, GrantRow, Key, Reason, Verdict};
use pk_types::{Category, List};

impl Spell for Key {
    ghost codec = { key };

    #[tactic(auto, using(audit_words::proofs::Putting::put_rules))]
    fn put_words(&self, line: &mut LineBuffer) {
        match self {
            Key::Process { pid, start, uid } => {
                put_plain(line, b"Process");
                pid.put_words(line);
                start.put_words(line);
                uid.put_words(line);
            }
            Key::Session { id, uid } => {
                put_plain(line, b"Session");
                id.put_words(line);
                uid.put_words(line);
            }
        }
    }

    fn take_from(words: &mut Words) -> Result<Key, Stop> {
        let name = words.name()?;
        if name == b"Process".as_slice() {
            let pid = words.u32()?;
            let start = words.u64()?;
            let uid = words.u32()?;
            Ok(Key::Process { pid, start, uid })
        } else if name == b"Session".as_slice() {
            let id = words.text()?;
            let uid = words.u32()?;
            Ok(Key::Session { id, uid })
        } else {
            Err(Stop::Fault(Kind::Value))
        }
    }
}

impl Spell for Reason {
    ghost codec = { reason };

    #[tactic(auto, using(audit_words::proofs::Putting::put_rules))]
    fn put_words(&self, line: &mut LineBuffer) {
        match self {
            Reason::Root => put_plain(line, b"Root"),
            Reason::Default(category) => {
                put_plain(line, b"Default");
                category.put_words(line);
            }
            Reason::Entry(number) => {
                put_plain(line, b"Entry");
                number.put_words(line);
            }
            Reason::Grant(number) => {
                put_plain(line, b"Grant");
                number.put_words(line);
            }
            Reason::Imply(text) => {
                put_plain(line, b"Imply");
                text.put_words(line);
            }
            Reason::Challenge => put_plain(line, b"Challenge"),
            Reason::Dismissed => put_plain(line, b"Dismissed"),
            Reason::AgentGone => put_plain(line, b"AgentGone"),
            Reason::SubjectGone => put_plain(line, b"SubjectGone"),
            Reason::ActionGone => put_plain(line, b"ActionGone"),
            Reason::IdentityGone => put_plain(line, b"IdentityGone"),
        }
    }

    fn take_from(words: &mut Words) -> Result<Reason, Stop> {
        let name = words.name()?;
        if name == b"Root".as_slice() {
            Ok(Reason::Root)
        } else if name == b"Default".as_slice() {
            let category = Category::take_from(words)?;
            Ok(Reason::Default(category))
        } else if name == b"Entry".as_slice() {
            let number = words.u32()?;
            Ok(Reason::Entry(number))
        } else if name == b"Grant".as_slice() {
            let number = words.u64()?;
            Ok(Reason::Grant(number))
        } else if name == b"Imply".as_slice() {
            let text = words.text()?;
            Ok(Reason::Imply(text))
        } else if name == b"Challenge".as_slice() {
            Ok(Reason::Challenge)
        } else if name == b"Dismissed".as_slice() {
            Ok(Reason::Dismissed)
        } else if name == b"AgentGone".as_slice() {
            Ok(Reason::AgentGone)
        } else if name == b"SubjectGone".as_slice() {
            Ok(Reason::SubjectGone)
        } else if name == b"ActionGone".as_slice() {
            Ok(Reason::ActionGone)
        } else if name == b"IdentityGone".as_slice() {
            Ok(Reason::IdentityGone)
        } else {
            Err(Stop::Fault(Kind::Value))
        }
    }
}

impl Spell for Verdict {
    ghost codec = { verdict };

    #[tactic(auto, using(audit_words::proofs::Putting::put_rules))]
    fn put_words(&self, line: &mut LineBuffer) {
        self.yes.put_words(line);
        self.challenge.put_words(line);
        self.reason.put_words(line);
        self.keep.put_words(line);
        self.grant.put_words(line);
        self.pairs.put_words(line);
    }

    fn take_from(words: &mut Words) -> Result<Verdict, Stop> {
        let yes = words.boolean()?;
        let challenge = words.boolean()?;
        let reason = Reason::take_from(words)?;
        let keep = words.boolean()?;
        let grant = Option::take_from(words)?;
        let pairs = List::take_from(words)?;
        Ok(Verdict {
            yes,
            challenge,
            reason,
            keep,
            grant,
            pairs,
        })
    }
}

impl Spell for GrantRow {
    ghost codec = { grant_row };

    #[tactic(auto, using(audit_words::proofs::Putting::put_rules))]
    fn put_words(&self, line: &mut LineBuffer) {
        self.id.put_words(line);
        self.action.put_words(line);
        self.key.put_words(line);
        self.obtained.put_words(line);
        self.expires.put_words(line);
    }

    fn take_from(words: &mut Words) -> Result<GrantRow, Stop> {
        let id = words.u64()?;
        let action = words.text()?;
        let key = Key::take_from(words)?;
        let obtained = words.u64()?;
        let expires = words.u64()?;
        Ok(GrantRow {
            id,
            action,
            key,
            obtained,
            expires,
        })
    }
}

/// The name of the variant.
fn error_cause_name(value: ErrorCause) -> &'static str
    ensures name { result.now ≡ error_cause_name value }
{
    match value {
        ErrorCause::IdInUse => "IdInUse",
        ErrorCause::UnknownAction => "UnknownAction",
        ErrorCause::UnknownSubject => "UnknownSubject",
        ErrorCause::NotTrusted => "NotTrusted",
        ErrorCause::TooManyPending => "TooManyPending",
        ErrorCause::Cancelled => "Cancelled",
        ErrorCause::NoSuchId => "NoSuchId",
        ErrorCause::NotPrivileged => "NotPrivileged",
        ErrorCause::NoSuchCookie => "NoSuchCookie",
        ErrorCause::NotOffered => "NotOffered",
        ErrorCause::AgentExists => "AgentExists",
        ErrorCause::NoSuchAgent => "NoSuchAgent",
        ErrorCause::NotYours => "NotYours",
        ErrorCause::NoSuchGrant => "NoSuchGrant",
        ErrorCause::UnknownObject => "UnknownObject",
        ErrorCause::UnknownMethod => "UnknownMethod",
        ErrorCause::InvalidArgs => "InvalidArgs",
        ErrorCause::BadAnnounce => "BadAnnounce",
    }
}

/// The variant that has this name.
fn error_cause_named(name: &[u8]) -> Option<ErrorCause>
    ensures named { result ≡ named_in error_cause_names name.now }
{
    if name == b"IdInUse".as_slice() {
        Some(ErrorCause::IdInUse)
    } else if name == b"UnknownAction".as_slice() {
        Some(ErrorCause::UnknownAction)
    } else if name == b"UnknownSubject".as_slice() {
        Some(ErrorCause::UnknownSubject)
    } else if name == b"NotTrusted".as_slice() {
        Some(ErrorCause::NotTrusted)
    } else if name == b"TooManyPending".as_slice() {
        Some(ErrorCause::TooManyPending)
    } else if name == b"Cancelled".as_slice() {
        Some(ErrorCause::Cancelled)
    } else if name == b"NoSuchId".as_slice() {
        Some(ErrorCause::NoSuchId)
    } else if name == b"NotPrivileged".as_slice() {
        Some(ErrorCause::NotPrivileged)
    } else if name == b"NoSuchCookie".as_slice() {
        Some(ErrorCause::NoSuchCookie)
    } else if name == b"NotOffered".as_slice() {
        Some(ErrorCause::NotOffered)
    } else if name == b"AgentExists".as_slice() {
        Some(ErrorCause::AgentExists)
    } else if name == b"NoSuchAgent".as_slice() {
        Some(ErrorCause::NoSuchAgent)
    } else if name == b"NotYours".as_slice() {
        Some(ErrorCause::NotYours)
    } else if name == b"NoSuchGrant".as_slice() {
        Some(ErrorCause::NoSuchGrant)
    } else if name == b"UnknownObject".as_slice() {
        Some(ErrorCause::UnknownObject)
    } else if name == b"UnknownMethod".as_slice() {
        Some(ErrorCause::UnknownMethod)
    } else if name == b"InvalidArgs".as_slice() {
        Some(ErrorCause::InvalidArgs)
    } else if name == b"BadAnnounce".as_slice() {
        Some(ErrorCause::BadAnnounce)
    } else {
        None
    }
}

impl Spell for ErrorCause {
    ghost codec = { error_cause };

    fn put_words(&self, line: &mut LineBuffer) {
        put_plain(line, error_cause_name(*self).as_bytes());
    }

    fn take_from(words: &mut Words) -> Result<ErrorCause, Stop> {
        match error_cause_named(words.name()?) {
            Some(value) => Ok(value),
            None => Err(Stop::Fault(Kind::Value)),
        }
    }
}

impl Spell for Answer {
    ghost codec = { answer };

    #[tactic(auto, using(audit_words::proofs::Putting::put_rules))]
    fn put_words(&self, line: &mut LineBuffer) {
        match self {
            Answer::Verdict(verdict) => {
                put_plain(line, b"Verdict");
                verdict.put_words(line);
            }
            Answer::Done => put_plain(line, b"Done"),
            Answer::Name(text) => {
                put_plain(line, b"Name");
                text.put_words(line);
            }
            Answer::Actions { load, locale } => {
                put_plain(line, b"Actions");
                load.put_words(line);
                locale.put_words(line);
            }
            Answer::Grants(rows) => {
                put_plain(line, b"Grants");
                rows.put_words(line);
            }
            Answer::Refused(cause) => {
                put_plain(line, b"Refused");
                cause.put_words(line);
            }
        }
    }

    fn take_from(words: &mut Words) -> Result<Answer, Stop> {
        let name = words.name()?;
        if name == b"Verdict".as_slice() {
            let verdict = Verdict::take_from(words)?;
            Ok(Answer::Verdict(verdict))
        } else if name == b"Done".as_slice() {
            Ok(Answer::Done)
        } else if name == b"Name".as_slice() {
            let text = words.text()?;
            Ok(Answer::Name(text))
        } else if name == b"Actions".as_slice() {
            let load = words.u32()?;
            let locale = words.text()?;
            Ok(Answer::Actions { load, locale })
        } else if name == b"Grants".as_slice() {
            let rows = List::take_from(words)?;
            Ok(Answer::Grants(rows))
        } else if name == b"Refused".as_slice() {
            let cause = ErrorCause::take_from(words)?;
            Ok(Answer::Refused(cause))
        } else {
            Err(Stop::Fault(Kind::Value))
        }
    }
}
