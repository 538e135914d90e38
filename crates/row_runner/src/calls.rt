// The calls by their names.
use crate::actions::action_file;
use crate::admins::{administrators, named_admins};
use crate::asking::{asked, check_is_too_long, event, method, written_again};
use crate::authority::authority;
use crate::clients::{agent_reply_bytes, pkcheck_words, polkit_agent_words, question, told};
use crate::commands::{agent_rule, door, serve_plan};
use crate::counts::{count_groups, count_processes, count_sessions, count_users};
use crate::desk::desk;
use crate::entries::{answer_line, entry_cost};
use crate::faults::fault_names;
use crate::handshakes::{client_first_bytes, client_handshake, handshake, reply_line};
use crate::ids::{action_id, copied, first_bad_byte, implicit, implicit_of_code, number, text};
use crate::keyfiles::{count_pairs, keyfile, list_items};
use crate::messages::{call_size, message, path, prefixes, return_size};
use crate::model::{cause, cookie, grant_id, identity, localized_text};
use crate::pieces::{all_pieces, cut_once, lines_of};
use crate::processes::stat;
use crate::row::{Row, Wrong};
use crate::rule_index::implicit_by_index;
use crate::rules::{pkla, pkla_order};
use crate::scenario::{scenario_line, skipped};
use crate::sending::{
    call_begin, call_end, reply_actions, reply_done, reply_error, reply_grants, reply_name,
    reply_verdict, signal_changed,
};
use crate::streams::lines;
use crate::tables::{group, members, passwd, processes, sessions};
use crate::words::words;
use glob_match::matches;
use std::alloc::Global;

/// `glob PATTERN TEXT`
fn glob(row: &mut Row) {
    let pattern = row.text();
    let text = row.text();
    row.show(&matches(&pattern, &text));
}

/// Where a name stands among the names of some calls.
fn place(names: &[&[u8]], name: &[u8]) -> Option<usize> {
    names.iter().position(|one| *one == name)
}

/// The calls over texts, ids, numbers and words.
const TEXTS: [&[u8]; 18] = [
    b"glob",
    b"text",
    b"bad_byte",
    b"action_id",
    b"number",
    b"implicit",
    b"implicit_of_code",
    b"cut",
    b"pieces",
    b"lines_of",
    b"lines",
    b"identity",
    b"localized",
    b"cookie",
    b"grant_id",
    b"cause",
    b"fault_names",
    b"copied",
];

/// Makes the call of this name, if it is one of them, and tells whether it is.
fn texts_call(row: &mut Row, name: &[u8]) -> bool {
    match place(&TEXTS, name) {
        Some(0) => glob(row),
        Some(1) => text(row),
        Some(2) => first_bad_byte(row),
        Some(3) => action_id(row),
        Some(4) => number(row),
        Some(5) => implicit(row),
        Some(6) => implicit_of_code(row),
        Some(7) => cut_once(row),
        Some(8) => all_pieces(row),
        Some(9) => lines_of(row),
        Some(10) => lines(row),
        Some(11) => identity(row),
        Some(12) => localized_text(row),
        Some(13) => cookie(row),
        Some(14) => grant_id(row),
        Some(15) => cause(row),
        Some(16) => fault_names(row),
        Some(17) => copied(row),
        _ => return false,
    }
    true
}

/// The calls over files and tables.
const FILES: [&[u8]; 18] = [
    b"keyfile",
    b"items",
    b"count_pairs",
    b"passwd",
    b"group",
    b"members",
    b"sessions",
    b"processes",
    b"count_users",
    b"count_groups",
    b"count_sessions",
    b"count_processes",
    b"pkla",
    b"pkla_order",
    b"admins",
    b"administrators",
    b"action_file",
    b"stat",
];

/// Makes the call of this name, if it is one of them, and tells whether it is.
fn files_call(row: &mut Row, name: &[u8]) -> bool {
    match place(&FILES, name) {
        Some(0) => keyfile(row),
        Some(1) => list_items(row),
        Some(2) => count_pairs(row),
        Some(3) => passwd(row),
        Some(4) => group(row),
        Some(5) => members(row),
        Some(6) => sessions(row),
        Some(7) => processes(row),
        Some(8) => count_users(row),
        Some(9) => count_groups(row),
        Some(10) => count_sessions(row),
        Some(11) => count_processes(row),
        Some(12) => pkla(row),
        Some(13) => pkla_order(row),
        Some(14) => named_admins(row),
        Some(15) => administrators(row),
        Some(16) => action_file(row),
        Some(17) => stat(row),
        _ => return false,
    }
    true
}

/// The calls over command lines, rules of agents, scenarios and entries.
const COMMANDS: [&[u8]; 12] = [
    b"door",
    b"serve_plan",
    b"pkcheck_words",
    b"agent_words",
    b"agent_rule",
    b"scenario_line",
    b"skipped",
    b"entry_cost",
    b"answer_line",
    b"desk",
    b"implicit_by_index",
    b"authority",
];

/// Makes the call of this name, if it is one of them, and tells whether it is.
fn commands_call(row: &mut Row, name: &[u8]) -> bool {
    match place(&COMMANDS, name) {
        Some(0) => door(row),
        Some(1) => serve_plan(row),
        Some(2) => pkcheck_words(row),
        Some(3) => polkit_agent_words(row),
        Some(4) => agent_rule(row),
        Some(5) => scenario_line(row),
        Some(6) => skipped(row),
        Some(7) => entry_cost(row),
        Some(8) => answer_line(row),
        Some(9) => desk(row),
        Some(10) => implicit_by_index(row),
        Some(11) => authority(row),
        _ => return false,
    }
    true
}

/// The calls over messages that are read.
const MESSAGES: [&[u8]; 17] = [
    b"message",
    b"prefixes",
    b"path",
    b"call_size",
    b"return_size",
    b"event",
    b"written_again",
    b"asked",
    b"check_is_too_long",
    b"method",
    b"told",
    b"question",
    b"agent_reply",
    b"handshake",
    b"client_handshake",
    b"client_first",
    b"reply_line",
];

/// Makes the call of this name, if it is one of them, and tells whether it is.
fn messages_call(row: &mut Row, name: &[u8]) -> bool {
    match place(&MESSAGES, name) {
        Some(0) => message(row),
        Some(1) => prefixes(row),
        Some(2) => path(row),
        Some(3) => call_size(row),
        Some(4) => return_size(row),
        Some(5) => event(row),
        Some(6) => written_again(row),
        Some(7) => asked(row),
        Some(8) => check_is_too_long(row),
        Some(9) => method(row),
        Some(10) => told(row),
        Some(11) => question(row),
        Some(12) => agent_reply_bytes(row),
        Some(13) => handshake(row),
        Some(14) => client_handshake(row),
        Some(15) => client_first_bytes(row),
        Some(16) => reply_line(row),
        _ => return false,
    }
    true
}

/// The calls over messages that are sent.
const REPLIES: [&[u8]; 9] = [
    b"reply_verdict",
    b"reply_done",
    b"reply_name",
    b"reply_error",
    b"reply_grants",
    b"reply_actions",
    b"call_begin",
    b"call_end",
    b"signal_changed",
];

/// Makes the call of this name, if it is one of them, and tells whether it is.
fn replies_call(row: &mut Row, name: &[u8]) -> bool {
    match place(&REPLIES, name) {
        Some(0) => reply_verdict(row),
        Some(1) => reply_done(row),
        Some(2) => reply_name(row),
        Some(3) => reply_error(row),
        Some(4) => reply_grants(row),
        Some(5) => reply_actions(row),
        Some(6) => call_begin(row),
        Some(7) => call_end(row),
        Some(8) => signal_changed(row),
        _ => return false,
    }
    true
}

/// Makes the call of this name.
fn call(row: &mut Row) {
    let name = row.bytes();
    let known = texts_call(row, name)
        || files_call(row, name)
        || commands_call(row, name)
        || messages_call(row, name)
        || replies_call(row, name);
    if !known {
        row.mark(Wrong::Call);
    }
}

/// What a line is answered.
pub fn answer(alloc: Global, line: &[u8]) -> String {
    let mut row = Row::new(alloc, &[]);
    match words(alloc, line) {
        Ok(Some(words)) => {
            let mut row = Row::new(alloc, words.as_slice());
            call(&mut row);
            return row.finish();
        }
        Ok(None) => row.mark(Wrong::Quotes),
        Err(_) => row.mark(Wrong::NoMemory),
    }
    row.finish()
}
