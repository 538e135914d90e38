// Implicit authorizations that are looked up in the index of a policy.
use crate::drafts::{empty_draft, load_draft, take_line};
use crate::row::{Row, Wrong};
use crate::sending::category;
use authority_model::Loaded;
use pk_types::lines;
use rulebook::{Found, RuleIndex};
use std::fmt::Write;

/// The load of the draft that these lines make.
fn loaded_of(row: &mut Row, bytes: &[u8]) -> Option<Loaded> {
    let mut drafts = empty_draft(row)?;
    let Ok(lines) = lines(row.alloc, bytes) else {
        row.mark(Wrong::NoMemory);
        return None;
    };
    for line in lines.as_slice() {
        take_line(row, &mut drafts, *line);
    }
    load_draft(row, &mut drafts)
}

/// Adds the line of a user.
fn add_line(row: &mut Row, lines: &mut String, uid: u32, found: Option<Found>) {
    let written = match found {
        Some(
            Found {
                value,
                source,
                visited,
            },
        ) => write!(lines, "{uid} {value:?} {source:?} {visited}\n"),
        None => write!(lines, "{uid} None\n"),
    };
    if written.is_err() {
        row.mark(Wrong::NoMemory);
    }
}

fn show_values(row: &mut Row, loaded: &Loaded) {
    let category = category(row);
    let action = row.text();
    let first = row.number_32();
    let last = row.number_32();
    let Ok(index) = RuleIndex::build(row.alloc, &loaded.policy) else {
        return row.mark(Wrong::NoMemory);
    };
    if u32::try_from(loaded.policy.entries.len()).is_err() {
        return row.mark(Wrong::NoMemory);
    }
    let mut lines = String::new(row.alloc);
    for uid in first..last {
        let found = index.implicit(&loaded.policy, &loaded.world, uid, category, &action);
        add_line(row, &mut lines, uid, found);
    }
    row.quote(lines.as_bytes());
}

/// `implicit_by_index LINES CATEGORY ACTION FIRST LAST`: a line for each user from the first to the one
/// before the last, with the implicit authorization of the action, what gave it, and how many entries were
/// looked at. The policy and the world are those of the draft of a scenario with these lines.
pub fn implicit_by_index(row: &mut Row) {
    let lines = row.bytes();
    if let Some(loaded) = loaded_of(row, lines) {
        show_values(row, &loaded);
    }
}
