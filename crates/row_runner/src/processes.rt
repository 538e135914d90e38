// The line of a process.
use crate::row::Row;
use proc_sight::read_stat;

/// `stat BYTES`
pub fn stat(row: &mut Row) {
    match read_stat(row.bytes()) {
        Ok(line) => {
            row.word("Ok");
            row.field("pid", &line.pid);
            row.field("start", &line.start);
        }
        Err(fault) => row.refuse(&fault),
    }
}
