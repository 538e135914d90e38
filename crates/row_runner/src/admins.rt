// Administrators: those that `.conf` files name, and the users that they stand for.
use crate::row::{Row, Wrong};
use admin_identities::{admins, expand};
use authority_model::{GroupList, ProcessList, SessionList, UserList, World};
use keyfile_text::{Groups, GroupsList, read};
use table_files::{read_group, read_passwd};

fn push_groups(row: &mut Row, files: &mut GroupsList, groups: Groups) {
    if files.try_push(groups).is_err() {
        row.mark(Wrong::NoMemory);
    }
}

fn files(row: &mut Row) -> GroupsList {
    let mut files = GroupsList::new(row.alloc);
    for _ in 0..u64::MAX {
        if !row.has_item() {
            break;
        }
        match read(row.alloc, row.bytes()) {
            Ok(groups) => push_groups(row, &mut files, groups),
            Err(_) => row.mark(Wrong::Word),
        }
    }
    files
}

/// `admins FILE..`
pub fn named_admins(row: &mut Row) {
    let files = files(row);
    match admins(row.alloc, &files) {
        Ok(admins) => row.texts("admins", admins.as_slice()),
        Err(fault) => row.refuse(&fault),
    }
}

fn expand_in(row: &mut Row, users: UserList, groups: GroupList) {
    let world = World {
        users,
        groups,
        sessions: SessionList::new(row.alloc),
        processes: ProcessList::new(row.alloc),
    };
    let words = row.text_list();
    match expand(row.alloc, &world, &words) {
        Ok(found) => row.show(&found.as_slice()),
        Err(fault) => row.refuse(&fault),
    }
}

fn expand_among(row: &mut Row, mut users: UserList) {
    match read_group(row.alloc, row.bytes(), &mut users) {
        Ok(groups) => expand_in(row, users, groups),
        Err(fault) => row.refuse(&fault),
    }
}

/// `administrators PASSWD GROUP WORD..`
pub fn administrators(row: &mut Row) {
    match read_passwd(row.alloc, row.bytes()) {
        Ok(users) => expand_among(row, users),
        Err(fault) => row.refuse(&fault),
    }
}
