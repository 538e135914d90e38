// Messages of the authority: replies, the calls to agents, and the signal.
use crate::numbers::number_128;
use crate::pairs::repeated_pairs;
use crate::row::{Row, Wrong};
use action_xml::read;
use authority_messages::message_of;
use authority_model::{
    ActionList, Answer, Cookie, ErrorCause, GrantRow, History, Key, Loaded, Message, Output,
    Reason, Verdict,
};
use pk_types::{ByteList, Category, Identity, IdentityList, List, NoMemory};

/// A history without loads.
fn no_loads(row: &Row) -> History {
    History {
        entries: List::new(row.alloc),
        loads: List::new(row.alloc),
    }
}

fn show_bytes(row: &mut Row, sent: Result<ByteList, NoMemory>) {
    match sent {
        Ok(bytes) => row.quote(bytes.as_slice()),
        Err(_) => row.mark(Wrong::NoMemory),
    }
}

/// The serial of a message, and that of the call that it answers.
#[derive(Clone, Copy)]
struct ReplySerials {
    own: u32,
    answered: u32,
}

fn serials(row: &mut Row) -> ReplySerials {
    let own = row.number_32();
    let answered = row.number_32();
    ReplySerials { own, answered }
}

/// The reply with this answer.
fn reply(row: &mut Row, history: &History, serials: ReplySerials, answer: Answer) {
    if serials.own == 0 || serials.answered == 0 {
        return row.mark(Wrong::Number);
    }
    let message = Message::Reply {
        serial: serials.answered,
        answer,
    };
    let output = Output { to: 1, message };
    let sent = message_of(row.alloc, &output, history, serials.own);
    show_bytes(row, sent);
}

fn reply_without_loads(row: &mut Row, serials: ReplySerials, answer: Answer) {
    let history = no_loads(row);
    reply(row, &history, serials, answer);
}

/// `reply_done SERIAL ANSWERED`
pub fn reply_done(row: &mut Row) {
    let serials = serials(row);
    reply_without_loads(row, serials, Answer::Done);
}

/// `reply_name SERIAL ANSWERED NAME`
pub fn reply_name(row: &mut Row) {
    let serials = serials(row);
    let name = row.text();
    reply_without_loads(row, serials, Answer::Name(name));
}

/// The causes of errors, which are named as a scenario prints them.
const CAUSES: [ErrorCause; 18] = [
    ErrorCause::IdInUse,
    ErrorCause::UnknownAction,
    ErrorCause::UnknownSubject,
    ErrorCause::NotTrusted,
    ErrorCause::TooManyPending,
    ErrorCause::Cancelled,
    ErrorCause::NoSuchId,
    ErrorCause::NotPrivileged,
    ErrorCause::NoSuchCookie,
    ErrorCause::NotOffered,
    ErrorCause::AgentExists,
    ErrorCause::NoSuchAgent,
    ErrorCause::NotYours,
    ErrorCause::NoSuchGrant,
    ErrorCause::UnknownObject,
    ErrorCause::UnknownMethod,
    ErrorCause::InvalidArgs,
    ErrorCause::BadAnnounce,
];

/// `reply_error SERIAL ANSWERED CAUSE`
pub fn reply_error(row: &mut Row) {
    let serials = serials(row);
    let word = row.bytes();
    match CAUSES.iter().find(|cause| cause.word().as_bytes() == word) {
        Some(cause) => reply_without_loads(row, serials, Answer::Refused(*cause)),
        None => row.mark(Wrong::Word),
    }
}

/// A category of an implicit authorization: `any`, `inactive` or `active`.
pub fn category(row: &mut Row) -> Category {
    match row.bytes() {
        b"any" => Category::Any,
        b"inactive" => Category::Inactive,
        b"active" => Category::Active,
        _ => {
            row.mark(Wrong::Word);
            Category::Any
        }
    }
}

/// The words of reasons.
const REASONS: [&[u8]; 11] = [
    b"root",
    b"default",
    b"entry",
    b"grant",
    b"imply",
    b"challenge",
    b"dismissed",
    b"agent-gone",
    b"subject-gone",
    b"action-gone",
    b"identity-gone",
];

fn reason_place(word: &[u8]) -> Option<usize> {
    REASONS.iter().position(|one| *one == word)
}

fn reason(row: &mut Row) -> Reason {
    match reason_place(row.bytes()) {
        Some(0) => Reason::Root,
        Some(1) => Reason::Default(category(row)),
        Some(2) => Reason::Entry(row.number_32()),
        Some(3) => Reason::Grant(row.number(u64::MAX)),
        Some(4) => Reason::Imply(row.text()),
        Some(5) => Reason::Challenge,
        Some(6) => Reason::Dismissed,
        Some(7) => Reason::AgentGone,
        Some(8) => Reason::SubjectGone,
        Some(9) => Reason::ActionGone,
        Some(10) => Reason::IdentityGone,
        _ => {
            row.mark(Wrong::Word);
            Reason::Root
        }
    }
}

/// Whether the next word is this one; a `-` may stand in its place.
fn is_said(row: &mut Row, word: &[u8]) -> bool {
    let said = row.bytes();
    if said != word && said != b"-".as_slice() {
        row.mark(Wrong::Word);
    }
    said == word
}

/// A number, or `-` for none.
fn optional_number(row: &mut Row) -> Option<u64> {
    let word = row.bytes();
    if word == b"-".as_slice() {
        return None;
    }
    let number = pk_types::number_up_to(word, u64::MAX);
    if number.is_none() {
        row.mark(Wrong::Number);
    }
    number
}

/// `reply_verdict SERIAL ANSWERED yes|- challenge|- keep|- GRANT|- REASON TIMES KEY VALUE .. ]`
pub fn reply_verdict(row: &mut Row) {
    let serials = serials(row);
    let yes = is_said(row, b"yes");
    let challenge = is_said(row, b"challenge");
    let keep = is_said(row, b"keep");
    let grant = optional_number(row);
    let reason = reason(row);
    let pairs = repeated_pairs(row);
    let verdict = Verdict {
        yes,
        challenge,
        reason,
        keep,
        grant,
        pairs,
    };
    reply_without_loads(row, serials, Answer::Verdict(verdict));
}

/// A subject with its user: `process PID START UID` or `session ID UID`.
pub fn key(row: &mut Row) -> Key {
    match row.bytes() {
        b"process" => {
            let pid = row.number_32();
            let start = row.number(u64::MAX);
            let uid = row.number_32();
            Key::Process { pid, start, uid }
        }
        b"session" => {
            let id = row.text();
            let uid = row.number_32();
            Key::Session { id, uid }
        }
        _ => {
            row.mark(Wrong::Word);
            Key::Process {
                pid: 0,
                start: 0,
                uid: 0,
            }
        }
    }
}

fn grant(row: &mut Row) -> GrantRow {
    let id = row.number(u64::MAX);
    let action = row.text();
    let key = key(row);
    let obtained = row.number(u64::MAX);
    let expires = row.number(u64::MAX);
    GrantRow {
        id,
        action,
        key,
        obtained,
        expires,
    }
}

/// `reply_grants SERIAL ANSWERED GRANT ..`, where a grant is `ID ACTION KEY OBTAINED EXPIRES`, and a key
/// is `process PID START UID` or `session ID UID`.
pub fn reply_grants(row: &mut Row) {
    let serials = serials(row);
    let mut grants = List::new(row.alloc);
    for _ in 0..u64::MAX {
        if !row.has_more() {
            break;
        }
        let grant = grant(row);
        if grants.try_push(grant).is_err() {
            row.mark(Wrong::NoMemory);
        }
    }
    reply_without_loads(row, serials, Answer::Grants(grants));
}

fn history_of(row: &mut Row, actions: ActionList) -> History {
    let mut history = no_loads(row);
    let mut loaded = Loaded::empty(row.alloc);
    loaded.policy.actions = actions;
    if history.loads.try_push(loaded).is_err() {
        row.mark(Wrong::NoMemory);
    }
    history
}

/// `reply_actions SERIAL ANSWERED LOAD LOCALE FILE`: the actions of a load with the actions of this file,
/// which is load 1.
pub fn reply_actions(row: &mut Row) {
    let serials = serials(row);
    let load = row.number_32();
    let locale = row.text();
    match read(row.alloc, row.bytes()) {
        Ok(file) => {
            let history = history_of(row, file.actions);
            reply(row, &history, serials, Answer::Actions { load, locale });
        }
        Err(fault) => row.refuse(&fault),
    }
}

fn cookie(row: &mut Row) -> Cookie {
    let serial = row.number(u64::MAX);
    let salt = number_128(row);
    Cookie { serial, salt }
}

fn identity(row: &mut Row) -> Identity {
    match row.bytes() {
        b"user" => Identity::User(row.number_32()),
        b"group" => Identity::Group(row.number_32()),
        _ => {
            row.mark(Wrong::Word);
            Identity::User(0)
        }
    }
}

fn identities(row: &mut Row) -> IdentityList {
    let mut identities = List::new(row.alloc);
    for _ in 0..u64::MAX {
        if !row.has_more() {
            break;
        }
        let identity = identity(row);
        if identities.try_push(identity).is_err() {
            row.mark(Wrong::NoMemory);
        }
    }
    identities
}

/// `call_begin SERIAL PATH ACTION TEXT ICON NUMBER SALT TIMES KEY VALUE .. ] IDENTITY ..`, where an
/// identity is `user UID` or `group GID`.
pub fn call_begin(row: &mut Row) {
    let serial = row.number_32();
    let path = row.text();
    let action = row.text();
    let text = row.text();
    let icon = row.text();
    let cookie = cookie(row);
    let details = repeated_pairs(row);
    let identities = identities(row);
    let message = Message::Begin {
        path,
        action,
        text,
        icon,
        details,
        cookie,
        identities,
    };
    if serial == 0 {
        return row.mark(Wrong::Number);
    }
    let output = Output { to: 1, message };
    let sent = message_of(row.alloc, &output, &no_loads(row), serial);
    show_bytes(row, sent);
}

/// `call_end SERIAL PATH NUMBER SALT`
pub fn call_end(row: &mut Row) {
    let serial = row.number_32();
    let path = row.text();
    let cookie = cookie(row);
    let message = Message::CancelBegin { path, cookie };
    if serial == 0 {
        return row.mark(Wrong::Number);
    }
    let output = Output { to: 1, message };
    let sent = message_of(row.alloc, &output, &no_loads(row), serial);
    show_bytes(row, sent);
}

/// `signal_changed SERIAL`
pub fn signal_changed(row: &mut Row) {
    let serial = row.number_32();
    if serial == 0 {
        return row.mark(Wrong::Number);
    }
    let output = Output {
        to: 1,
        message: Message::Changed,
    };
    let sent = message_of(row.alloc, &output, &no_loads(row), serial);
    show_bytes(row, sent);
}
