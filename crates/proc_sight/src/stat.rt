// The line of a process, and its faults.
ghost use Rattle.std.specs.Prelude.{◌≡◌, List, ℕ};
ghost use Rattle.std.specs.Io.BufRead.{strip_last};
ghost use Rattle.pk_types.specs.Pieces.{pieces_of};
ghost use Rattle.proc_sight.specs.Stat.{IsStat, HasWord, stat_of};

use memchr::memmem;
use pk_types::{cut, number_up_to};

/// The greatest pid.
const MAX_PID: u64 = 4_294_967_295;

/// The greatest start time.
const MAX_START: u64 = 18_446_744_073_709_551_615;

/// How many words stand before the start time, after the name of the program.
const BEFORE_START: usize = 19;

/// The number of the field that has the pid.
const PID_FIELD: u32 = 1;

/// The number of the field that has the start time.
const START_FIELD: u32 = 22;

/// What a line says of its process.
#[derive(Clone, Copy, Debug, PartialEq, Eq)]
pub struct StatLine {
    /// The id of the process.
    pub pid: u32,
    /// When it started, in ticks of the system's clock since the system did.
    pub start: u64,
}

/// Why bytes are not the line of a process.
#[derive(Clone, Copy, Debug, PartialEq, Eq)]
pub enum StatFault {
    /// No ` (` has a later `) `.
    Parens,
    /// Fewer than 20 words stand after the name of the program.
    Fields,
    /// The field with this number is not a decimal number, or is too great.
    Number {
        /// The number of the field, as proc(5) counts them.
        field: u32,
    },
}

/// The line without the LF at its end.
fn without_end(bytes: &[u8]) -> &[u8]
    ensures line { result.now ≡ strip_last 10 bytes.now }
{
    let count = bytes.len();
    if count > 0 && bytes[count - 1] == b'\n' {
        &bytes[..count - 1]
    } else {
        bytes
    }
}

/// The word at this place, where the first one has the place 0. One space stands between two words.
fn word(words: &[u8], place: usize) -> Option<&[u8]>
    ensures word { HasWord (pieces_of 32 words.now) place result }
{
    let mut rest = words;
    for i in 0..place {
        let Some((_, after)) = cut(rest, b' ') else {
            return None;
        };
        rest = after;
    }
    match cut(rest, b' ') {
        Some((word, _)) => Some(word),
        None => Some(rest),
    }
}

/// The line that has this pid before the name of the program, and these words after it.
fn read_fields(pid: &[u8], words: &[u8]) -> Result<StatLine, StatFault>
    ensures stat { result ≡ stat_of pid.now (pieces_of 32 words.now) }
{
    let Some(start) = word(words, BEFORE_START) else {
        return Err(StatFault::Fields);
    };
    let Some(pid) = number_up_to(pid, MAX_PID) else {
        return Err(StatFault::Number { field: PID_FIELD });
    };
    let Some(start) = number_up_to(start, MAX_START) else {
        return Err(StatFault::Number { field: START_FIELD });
    };
    Ok(StatLine {
        pid: pid as u32,
        start,
    })
}

/// What a line without its LF says.
fn read_line(line: &[u8]) -> Result<StatLine, StatFault>
    ensures stat { IsStat line.now result }
{
    let found = (memmem::find(line, b" ("), memmem::rfind(line, b") "));
    let (Some(opening), Some(closing)) = found else {
        return Err(StatFault::Parens);
    };
    if closing < opening + 2 {
        return Err(StatFault::Parens);
    }
    read_fields(&line[..opening], &line[closing + 2..])
}

/// What the line of a process says. It may end with LF. It takes no memory.
///
/// The pid stands before the first ` (`, and the words after the last `) ` are separated by one space
/// each. The first of them is field 3, and the start time is field 22.
///
/// # Errors
/// 1 `Parens` where no ` (` has a later `) `; 2 `Fields` where fewer than 20 words stand after that;
/// 3 `Number` with the first of the fields 1 and 22 that is not a decimal number of 32 or of 64 bits.
pub fn read_stat(bytes: &[u8]) -> Result<StatLine, StatFault>
    ensures stat { IsStat (strip_last 10 bytes.now) result }
{
    read_line(without_end(bytes))
}
