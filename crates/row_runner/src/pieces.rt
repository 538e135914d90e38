// Bytes that are cut at a separator.
use crate::row::{Row, Wrong};
use pk_types::{cut, lines, pieces};

fn separator(row: &mut Row) -> u8 {
    match row.bytes() {
        [byte] => *byte,
        _ => {
            row.mark(Wrong::Word);
            0
        }
    }
}

/// `cut BYTE BYTES`
pub fn cut_once(row: &mut Row) {
    let byte = separator(row);
    match cut(row.bytes(), byte) {
        Some((before, after)) => {
            row.quote(before);
            row.quote(after);
        }
        None => row.word("None"),
    }
}

/// `pieces BYTE BYTES`
pub fn all_pieces(row: &mut Row) {
    let byte = separator(row);
    match pieces(row.alloc, row.bytes(), byte) {
        Ok(all) => row.parts(all.as_slice()),
        Err(fault) => row.refuse(&fault),
    }
}

/// `lines_of BYTES`
pub fn lines_of(row: &mut Row) {
    match lines(row.alloc, row.bytes()) {
        Ok(all) => row.parts(all.as_slice()),
        Err(fault) => row.refuse(&fault),
    }
}
