// Names and texts of the authority's types: identities, localized texts, cookies, temporary
// authorizations and refusals.
use crate::row::{Row, Wrong};
use authority_model::{
    Cookie, ErrorCause, Loaded, Localized, LocalizedList, UserList, World, localized,
    push_grant_text,
};
use pk_types::List;
use table_files::{read_group, read_passwd};

fn texts_with_languages(row: &mut Row) -> LocalizedList {
    let mut list = List::new(row.alloc);
    for _ in 0..u64::MAX {
        if !row.has_more() {
            break;
        }
        let lang = row.text();
        let text = row.text();
        if list.try_push(Localized { lang, text }).is_err() {
            row.mark(Wrong::NoMemory);
        }
    }
    list
}

/// `localized LOCALE LANG TEXT LANG TEXT ..`
pub fn localized_text(row: &mut Row) {
    let locale = row.text();
    let list = texts_with_languages(row);
    match localized(&list, &locale) {
        Some(text) => row.quote(text.bytes()),
        None => row.word("None"),
    }
}

fn identity_in(row: &mut Row, world: &World) {
    let text = row.text();
    match world.identity(&text) {
        Ok(identity) => {
            row.word("Ok");
            row.show(&identity);
        }
        Err(fault) => row.refuse(&fault),
    }
    row.field("identity_of", &world.identity_of(text.bytes()));
}

fn identity_among(row: &mut Row, mut users: UserList) {
    match read_group(row.alloc, row.bytes(), &mut users) {
        Ok(groups) => {
            let mut world = Loaded::empty(row.alloc).world;
            world.users = users;
            world.groups = groups;
            identity_in(row, &world);
        }
        Err(fault) => row.refuse(&fault),
    }
}

/// `identity PASSWD GROUP TEXT`
pub fn identity(row: &mut Row) {
    match read_passwd(row.alloc, row.bytes()) {
        Ok(users) => identity_among(row, users),
        Err(fault) => row.refuse(&fault),
    }
}

/// `cookie SERIAL SALT TEXT`
pub fn cookie(row: &mut Row) {
    let serial = row.number(u64::MAX);
    let salt = u128::from(row.number(u64::MAX));
    let text = row.text();
    let cookie = Cookie { serial, salt };
    let mut written = String::new(row.alloc);
    if cookie.push_text(&mut written).is_err() {
        row.mark(Wrong::NoMemory);
    }
    row.quote(written.as_bytes());
    row.show(&cookie.has_text(&text));
}

/// `grant_id NUMBER`
pub fn grant_id(row: &mut Row) {
    let number = row.number(u64::MAX);
    let mut written = String::new(row.alloc);
    if push_grant_text(&mut written, number).is_err() {
        row.mark(Wrong::NoMemory);
    }
    row.quote(written.as_bytes());
}

/// All causes of a refusal.
const CAUSES: [ErrorCause; 18] = [
    ErrorCause::IdInUse,
    ErrorCause::UnknownAction,
    ErrorCause::UnknownSubject,
    ErrorCause::NotTrusted,
    ErrorCause::TooManyPending,
    ErrorCause::Cancelled,
    ErrorCause::NoSuchId,
    ErrorCause::NotPrivileged,
    ErrorCause::NoSuchCookie,
    ErrorCause::NotOffered,
    ErrorCause::AgentExists,
    ErrorCause::NoSuchAgent,
    ErrorCause::NotYours,
    ErrorCause::NoSuchGrant,
    ErrorCause::UnknownObject,
    ErrorCause::UnknownMethod,
    ErrorCause::InvalidArgs,
    ErrorCause::BadAnnounce,
];

/// `cause WORD`, where the word is that of an answer line
pub fn cause(row: &mut Row) {
    let word = row.bytes();
    match CAUSES.iter().find(|cause| cause.word().as_bytes() == word) {
        Some(cause) => {
            row.field("bus", &cause.is_bus_error());
            row.named("part", cause.last_part().as_bytes());
            row.named("text", cause.text().as_bytes());
        }
        None => row.mark(Wrong::Word),
    }
}
