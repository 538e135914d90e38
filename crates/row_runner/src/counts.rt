// How many rows a table of many rows is read as.
use crate::row::Row;
use authority_model::{SessionList, UserList};
use table_files::{read_group, read_passwd, read_processes, read_sessions};

/// The greatest place of a user.
const MOST: u64 = 1 << 20;

fn count(row: &mut Row, rows: usize) {
    row.word("Ok");
    row.show(&rows);
}

/// `count_users BYTES`
pub fn count_users(row: &mut Row) {
    match read_passwd(row.alloc, row.bytes()) {
        Ok(users) => count(row, users.len()),
        Err(fault) => row.refuse(&fault),
    }
}

fn show_gid_counts(row: &mut Row, users: &UserList) {
    for _ in 0..u64::MAX {
        if !row.has_item() {
            break;
        }
        match users.get(row.number(MOST) as usize) {
            Some(user) => row.field_of(user.name.bytes(), &user.gids.len()),
            None => row.word("None"),
        }
    }
}

fn count_groups_of(row: &mut Row, mut users: UserList) {
    match read_group(row.alloc, row.bytes(), &mut users) {
        Ok(groups) => count(row, groups.len()),
        Err(fault) => row.refuse(&fault),
    }
    show_gid_counts(row, &users);
}

/// `count_groups PASSWD BYTES PLACE..`: how many groups there are, and how many gids the users at
/// these places have
pub fn count_groups(row: &mut Row) {
    match read_passwd(row.alloc, row.bytes()) {
        Ok(users) => count_groups_of(row, users),
        Err(fault) => row.refuse(&fault),
    }
}

/// `count_sessions BYTES`
pub fn count_sessions(row: &mut Row) {
    match read_sessions(row.alloc, row.bytes()) {
        Ok(sessions) => count(row, sessions.len()),
        Err(fault) => row.refuse(&fault),
    }
}

fn count_processes_in(row: &mut Row, sessions: &SessionList) {
    match read_processes(row.alloc, row.bytes(), sessions) {
        Ok(processes) => count(row, processes.len()),
        Err(fault) => row.refuse(&fault),
    }
}

/// `count_processes SESSIONS BYTES`
pub fn count_processes(row: &mut Row) {
    match read_sessions(row.alloc, row.bytes()) {
        Ok(sessions) => count_processes_in(row, &sessions),
        Err(fault) => row.refuse(&fault),
    }
}
