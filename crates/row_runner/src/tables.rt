// The tables of a world.
use crate::row::Row;
use authority_model::{GroupList, ProcessList, SessionList, UserList};
use table_files::{read_group, read_passwd, read_processes, read_sessions};

fn show_users(row: &mut Row, users: &UserList) {
    for user in users.as_slice() {
        row.field("uid", &user.uid);
        row.named("name", user.name.bytes());
        row.named("label", user.label.bytes());
        row.field("gids", &user.gids.as_slice());
    }
}

/// `passwd BYTES`
pub fn passwd(row: &mut Row) {
    match read_passwd(row.alloc, row.bytes()) {
        Ok(users) => {
            row.word("Ok");
            show_users(row, &users);
        }
        Err(fault) => row.refuse(&fault),
    }
}

fn show_groups(row: &mut Row, groups: &GroupList) {
    for group in groups.as_slice() {
        row.field("gid", &group.gid);
        row.named("name", group.name.bytes());
        row.named("label", group.label.bytes());
    }
}

fn group_of(row: &mut Row, mut users: UserList) {
    match read_group(row.alloc, row.bytes(), &mut users) {
        Ok(groups) => {
            row.word("Ok");
            show_users(row, &users);
            show_groups(row, &groups);
        }
        Err(fault) => {
            row.refuse(&fault);
            show_users(row, &users);
        }
    }
}

/// `group PASSWD BYTES`: the users and the groups, or the fault and the users that it leaves
pub fn group(row: &mut Row) {
    match read_passwd(row.alloc, row.bytes()) {
        Ok(users) => group_of(row, users),
        Err(fault) => row.refuse(&fault),
    }
}

fn show_gids(row: &mut Row, users: &UserList) {
    for user in users.as_slice() {
        row.field_of(user.name.bytes(), &user.gids.as_slice());
    }
}

fn members_of(row: &mut Row, mut users: UserList) {
    match read_group(row.alloc, row.bytes(), &mut users) {
        Ok(_) => row.word("Ok"),
        Err(fault) => row.refuse(&fault),
    }
    show_gids(row, &users);
}

/// `members PASSWD BYTES`: the gids that each user has after a file of groups, also a faulty one
pub fn members(row: &mut Row) {
    match read_passwd(row.alloc, row.bytes()) {
        Ok(users) => members_of(row, users),
        Err(fault) => row.refuse(&fault),
    }
}

fn show_sessions(row: &mut Row, sessions: &SessionList) {
    row.word("Ok");
    for session in sessions.as_slice() {
        row.named("id", session.id.bytes());
        row.field("uid", &session.uid);
        row.field("local", &session.local);
        row.field("active", &session.active);
    }
}

/// `sessions BYTES`
pub fn sessions(row: &mut Row) {
    match read_sessions(row.alloc, row.bytes()) {
        Ok(sessions) => show_sessions(row, &sessions),
        Err(fault) => row.refuse(&fault),
    }
}

fn show_processes(row: &mut Row, processes: &ProcessList) {
    row.word("Ok");
    for process in processes.as_slice() {
        row.field("pid", &process.pid);
        row.field("start", &process.start);
        row.field("uid", &process.uid);
        match &process.session {
            Some(id) => row.named("session", id.bytes()),
            None => row.word("session=None"),
        }
    }
}

fn processes_in(row: &mut Row, sessions: &SessionList) {
    match read_processes(row.alloc, row.bytes(), sessions) {
        Ok(processes) => show_processes(row, &processes),
        Err(fault) => row.refuse(&fault),
    }
}

/// `processes SESSIONS BYTES`
pub fn processes(row: &mut Row) {
    match read_sessions(row.alloc, row.bytes()) {
        Ok(sessions) => processes_in(row, &sessions),
        Err(fault) => row.refuse(&fault),
    }
}
