// Lines that come in pieces.
use crate::row::{Row, Wrong};
use memory_outside::ByteSource;
use source_buffer::LineReader;

/// The greatest piece and the greatest line of a row.
const MOST: u64 = 1 << 20;

fn numbers(row: &mut Row) -> Vec<u64> {
    let mut numbers = Vec::new(row.alloc);
    for _ in 0..u64::MAX {
        if !row.has_item() {
            break;
        }
        if numbers.push(row.number(u64::MAX)).is_err() {
            row.mark(Wrong::NoMemory);
        }
    }
    numbers
}

fn source(row: &mut Row) -> Option<ByteSource> {
    let piece = row.number(MOST) as usize;
    let bytes = row.bytes();
    let failing = numbers(row);
    match bytes.to_vec(row.alloc) {
        Ok(bytes) if 0 < piece && bytes.len() < 1 << 62 => {
            Some(ByteSource::new(bytes, piece, failing))
        }
        _ => None,
    }
}

fn show_lines(row: &mut Row, count: u64, max: usize, input: &mut ByteSource) {
    let Ok(mut reader) = LineReader::new(row.alloc) else {
        return row.mark(Wrong::NoMemory);
    };
    let mut line = Vec::new(row.alloc);
    for _ in 0..count {
        let read = reader.next_line(input, &mut line, max);
        row.show(&read);
        row.quote(line.as_slice());
    }
    row.field("faults", &input.faults());
}

/// `lines COUNT MAX PIECE BYTES FAILING..`
pub fn lines(row: &mut Row) {
    let count = row.number(MOST);
    let max = row.number(MOST) as usize;
    match source(row) {
        Some(mut input) => show_lines(row, count, max, &mut input),
        None => row.mark(Wrong::Number),
    }
}
