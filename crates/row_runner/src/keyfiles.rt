// Key files and list values.
use crate::row::Row;
use keyfile_text::{Groups, items, read};

fn show_groups(row: &mut Row, groups: &Groups) {
    row.word("Ok");
    for group in groups.as_slice() {
        row.named("group", group.name.bytes());
        row.pairs("pairs", group.pairs.as_slice());
    }
}

/// `keyfile BYTES`
pub fn keyfile(row: &mut Row) {
    match read(row.alloc, row.bytes()) {
        Ok(groups) => show_groups(row, &groups),
        Err(fault) => row.refuse(&fault),
    }
}

fn show_pair_counts(row: &mut Row, groups: &Groups) {
    row.word("Ok");
    for group in groups.as_slice() {
        row.show(&group.pairs.len());
    }
}

/// `count_pairs BYTES`: how many pairs each group of a key file has
pub fn count_pairs(row: &mut Row) {
    match read(row.alloc, row.bytes()) {
        Ok(groups) => show_pair_counts(row, &groups),
        Err(fault) => row.refuse(&fault),
    }
}

/// `items TEXT`
pub fn list_items(row: &mut Row) {
    match items(row.alloc, &row.text()) {
        Ok(items) => row.texts("items", items.as_slice()),
        Err(fault) => row.refuse(&fault),
    }
}
