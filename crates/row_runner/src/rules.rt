// The entries of `.pkla` files, and the order of the files.
use crate::row::{Row, Wrong};
use authority_model::RuleList;
use keyfile_text::{Groups, read};
use pkla_files::{Dir, DirList, Root, entries, order};

fn show_entries(row: &mut Row, list: &RuleList) {
    row.word("Ok");
    for entry in list.as_slice() {
        row.texts("identities", entry.identities.as_slice());
        row.texts("actions", entry.actions.as_slice());
        row.field("any", &entry.any);
        row.field("inactive", &entry.inactive);
        row.field("active", &entry.active);
        row.pairs("pairs", entry.pairs.as_slice());
    }
}

fn entries_of(row: &mut Row, groups: &Groups) {
    match entries(row.alloc, groups) {
        Ok(list) => show_entries(row, &list),
        Err(fault) => row.refuse(&fault),
    }
}

/// `pkla BYTES`
pub fn pkla(row: &mut Row) {
    match read(row.alloc, row.bytes()) {
        Ok(groups) => entries_of(row, &groups),
        Err(fault) => row.refuse(&fault),
    }
}

fn root(row: &mut Row) -> Root {
    match row.bytes() {
        b"VarLib" => Root::VarLib,
        b"Etc" => Root::Etc,
        _ => {
            row.mark(Wrong::Word);
            Root::Etc
        }
    }
}

fn dir(row: &mut Row) -> Dir {
    let root = root(row);
    let name = row.text();
    let files = row.text_list();
    Dir { root, name, files }
}

/// `pkla_order ROOT NAME FILE.. ] ROOT NAME FILE.. ] ..`
pub fn pkla_order(row: &mut Row) {
    let mut dirs = DirList::new(row.alloc);
    for _ in 0..u64::MAX {
        if !row.has_more() {
            break;
        }
        if dirs.try_push(dir(row)).is_err() {
            row.mark(Wrong::NoMemory);
        }
    }
    match order(row.alloc, &dirs) {
        Ok(order) => row.show(&order.as_slice()),
        Err(fault) => row.refuse(&fault),
    }
}
