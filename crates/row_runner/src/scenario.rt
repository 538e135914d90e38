// Lines of a scenario, and the lines of what a load skipped.
use crate::row::{Row, Wrong};
use authority_model::{Call, Event, FileFault, Process, Session};
use pk_types::{List, Subject, Text};
use scenario_text::{Step, read_line, skipped_text};

fn show_subject(row: &mut Row, subject: &Subject) {
    match subject {
        Subject::Process { pid, start } => {
            row.word("Process");
            row.field("pid", pid);
            row.field("start", start);
        }
        Subject::Session { id } => {
            row.word("Session");
            row.named("id", id.bytes());
        }
        Subject::BusName { name } => {
            row.word("BusName");
            row.named("name", name.bytes());
        }
    }
}

/// Shows a name, a subject, and one text more.
fn show_about(row: &mut Row, name: &str, subject: &Subject, key: &str, text: &Text) {
    row.word(name);
    show_subject(row, subject);
    row.named(key, text.bytes());
}

/// Shows a name and the one text of a call.
fn show_one(row: &mut Row, name: &str, key: &str, text: &Text) {
    row.word(name);
    row.named(key, text.bytes());
}

fn show_agent_call(row: &mut Row, call: &Call) {
    match call {
        Call::Register {
            subject,
            locale,
            path,
        } => {
            show_about(row, "Register", subject, "locale", locale);
            row.named("path", path.bytes());
        }
        Call::Unregister { subject, path } => {
            show_about(row, "Unregister", subject, "path", path);
        }
        Call::Respond { cookie, identity } => {
            show_one(row, "Respond", "cookie", cookie);
            row.field("identity", identity);
        }
        Call::Reload => row.word("Reload"),
        _ => row.word("Wrong"),
    }
}

fn show_call(row: &mut Row, call: &Call) {
    match call {
        Call::Announce { pid, start } => {
            row.word("Announce");
            row.field("pid", pid);
            row.field("start", start);
        }
        Call::Check {
            subject,
            action,
            details,
            flags,
            cancel,
        } => {
            show_about(row, "Check", subject, "action", action);
            row.pairs("details", details.as_slice());
            row.field("flags", flags);
            row.named("cancel", cancel.bytes());
        }
        Call::Cancel { cancel } => show_one(row, "Cancel", "cancel", cancel),
        Call::EnumerateActions { locale } => show_one(row, "EnumerateActions", "locale", locale),
        Call::EnumerateGrants { subject } => {
            row.word("EnumerateGrants");
            show_subject(row, subject);
        }
        Call::RevokeAll { subject } => {
            row.word("RevokeAll");
            show_subject(row, subject);
        }
        Call::RevokeOne { id } => show_one(row, "RevokeOne", "id", id),
        call => show_agent_call(row, call),
    }
}

fn show_event(row: &mut Row, event: &Event) {
    match event {
        Event::Connect { uid } => {
            row.word("Connect");
            row.field("uid", uid);
        }
        Event::Call {
            serial,
            quiet,
            call,
        } => {
            row.word("Call");
            row.field("serial", serial);
            row.field("quiet", quiet);
            show_call(row, call);
        }
        Event::Returned { serial } => {
            row.word("Returned");
            row.field("serial", serial);
        }
        Event::AgentError { serial, name } => {
            row.word("AgentError");
            row.field("serial", serial);
            row.named("name", name.bytes());
        }
        Event::Depart => row.word("Depart"),
        _ => row.word("another"),
    }
}

fn show_session(row: &mut Row, session: &Session) {
    row.named("id", session.id.bytes());
    row.field("uid", &session.uid);
    row.field("local", &session.local);
    row.field("active", &session.active);
}

fn show_process(row: &mut Row, process: &Process) {
    row.field("pid", &process.pid);
    row.field("start", &process.start);
    row.field("uid", &process.uid);
    match &process.session {
        Some(id) => row.named("session", id.bytes()),
        None => row.word("session=None"),
    }
}

/// Shows what a line says of the world.
fn show_world_step(row: &mut Row, step: &Step) {
    match step {
        Step::User { uid, name, gids } => {
            row.word("User");
            row.field("uid", uid);
            row.named("name", name.bytes());
            row.field("gids", &gids.as_slice());
        }
        Step::Group { gid, name } => {
            row.word("Group");
            row.field("gid", gid);
            row.named("name", name.bytes());
        }
        Step::Session { row: session } => {
            row.word("Session");
            show_session(row, session);
        }
        Step::Process { row: process } => {
            row.word("Process");
            show_process(row, process);
        }
        Step::GoneProcess { pid, start } => {
            row.word("GoneProcess");
            row.field("pid", pid);
            row.field("start", start);
        }
        Step::GoneSession { id } => show_one(row, "GoneSession", "id", id),
        _ => row.word("another"),
    }
}

/// Shows what a line says of the policy.
fn show_policy_step(row: &mut Row, step: &Step) {
    match step {
        Step::Action {
            id,
            any,
            inactive,
            active,
        } => {
            show_one(row, "Action", "id", id.text());
            row.field("any", any);
            row.field("inactive", inactive);
            row.field("active", active);
        }
        Step::Imply { id, implied } => {
            show_one(row, "Imply", "id", id.text());
            row.named("implied", implied.bytes());
        }
        Step::Owner { id, identities } => {
            show_one(row, "Owner", "id", id.text());
            row.texts("identities", identities.as_slice());
        }
        Step::Entry {
            identities,
            actions,
            any,
            inactive,
            active,
        } => {
            row.word("Entry");
            row.texts("identities", identities.as_slice());
            row.texts("actions", actions.as_slice());
            row.field("any", any);
            row.field("inactive", inactive);
            row.field("active", active);
        }
        Step::Admins { items } => {
            row.word("Admins");
            row.texts("items", items.as_slice());
        }
        Step::GoneAction { id } => show_one(row, "GoneAction", "id", id.text()),
        step => show_world_step(row, step),
    }
}

fn show_step(row: &mut Row, step: &Step) {
    match step {
        Step::Blank => row.word("Blank"),
        Step::At { t } => {
            row.word("At");
            row.field("t", t);
        }
        Step::Reload => row.word("Reload"),
        Step::Act { caller, event } => {
            row.word("Act");
            row.field("caller", caller);
            show_event(row, event);
        }
        step => show_policy_step(row, step),
    }
}

/// `scenario_line NUMBER LINE`
pub fn scenario_line(row: &mut Row) {
    let number = row.number(u64::MAX);
    match read_line(row.alloc, row.bytes(), number) {
        Ok(step) => show_step(row, &step),
        Err(fault) => row.refuse(&fault),
    }
}

fn file_fault(row: &mut Row) -> FileFault {
    let file = row.text();
    let kind = row.text();
    let at = row.number(u64::MAX);
    FileFault { file, kind, at }
}

/// `skipped FILE KIND AT FILE KIND AT ..`
pub fn skipped(row: &mut Row) {
    let mut faults = List::new(row.alloc);
    for _ in 0..u64::MAX {
        if !row.has_more() {
            break;
        }
        if faults.try_push(file_fault(row)).is_err() {
            row.mark(Wrong::NoMemory);
        }
    }
    match skipped_text(row.alloc, faults.as_slice()) {
        Ok(lines) => row.quote(lines.as_slice()),
        Err(fault) => row.refuse(&fault),
    }
}
