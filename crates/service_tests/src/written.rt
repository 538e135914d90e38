// What was written.
use pk_types::NoMemory;
use std::alloc::Global;

/// Whether lines were written that begin and end with these words, and nothing else was.
pub fn is_told(written: &[u8], wanted: &[(&str, &str)]) -> bool {
    let mut lines = written.split(|byte| *byte == b'\n');
    for (begins, ends) in wanted {
        let Some(line) = lines.next() else {
            return false;
        };
        if !line.starts_with(begins.as_bytes()) || !line.ends_with(ends.as_bytes()) {
            return false;
        }
    }
    lines.next() == Some(b"".as_slice()) && lines.next().is_none()
}

/// The lines that begin so.
pub fn lines_with(alloc: Global, written: &[u8], begins: &[u8]) -> Result<Vec<u8>, NoMemory> {
    let mut lines = Vec::new(alloc);
    for line in written.split(|byte| *byte == b'\n') {
        if line.starts_with(begins) {
            lines.extend_from_slice(line)?;
            lines.push(b'\n')?;
        }
    }
    Ok(lines)
}

/// Parts behind one another.
pub fn joined(alloc: Global, parts: &[&[u8]]) -> Result<Vec<u8>, NoMemory> {
    let mut bytes = Vec::new(alloc);
    for part in parts {
        bytes.extend_from_slice(part)?;
    }
    Ok(bytes)
}

/// Whether bytes are these parts behind one another.
pub fn is_made(bytes: &[u8], parts: &[&[u8]]) -> bool {
    let mut rest = bytes;
    for part in parts {
        let Some(behind) = rest.strip_prefix(*part) else {
            return false;
        };
        rest = behind;
    }
    rest.is_empty()
}
