// Reading a key file.
ghost use Rattle.std.specs.Prelude.{◌≡◌, ◌≤◌, length};
ghost use Rattle.keyfile_text.specs.Bytes.{IsClean};
ghost use Rattle.keyfile_text.specs.Lines.{raw_lines};
ghost use Rattle.keyfile_text.specs.KeyFiles.{add_lines, no_groups, ReadAs};
ghost use Rattle.keyfile_text.specs.Maps.{LinesRead};

use crate::fault::{KeyFault, KeyFaultKind};
use crate::grouping::{GroupMap, Grouping, group_list};
use crate::groups::Groups;
use crate::line::line_says;
use crate::slices::{line_text, next_line, trimmed};
use pk_types::bad_byte;
use std::alloc::Global;

/// The greatest number of bytes of a key file: 1 MiB.
pub const MAX_KEY_FILE: usize = 1_048_576;

fn read_lines<'a>(alloc: Global, bytes: &'a [u8]) -> Result<GroupMap<'a>, KeyFault>
    requires { IsClean bytes.now }
    ensures read { LinesRead (add_lines 0 (raw_lines bytes.now) no_groups) result }
{
    let mut grouping = Grouping::new(alloc);
    let mut rest = bytes;
    while let Some((line, behind)) = next_line(rest) {
        let at = bytes.len() - rest.len();
        let said = match line_says(grouping.is_open(), trimmed(line_text(line))) {
            Ok(said) => said,
            Err(kind) => return Err(KeyFault { kind, at }),
        };
        grouping = grouping.with_line(alloc, said)?;
        rest = behind;
    }
    let groups = grouping.closed()?;
    Ok(groups)
}

/// The groups of a key file.
///
/// A line is a comment that begins with `#`, a header `[NAME]`, or `KEY=VALUE`; spaces and tabs at
/// its ends and around `=` are no part of it, and it ends with LF or CR LF. Groups of one name are
/// one, at the first one's place. A key that comes again keeps its place and takes the last value.
///
/// The first fault is told: a file over 1,048,576 bytes, then a byte that is 0 or no UTF-8, then
/// the first faulty line, and in a line that sets a key `NoGroup`, `NoEquals`, `BadEscape` and
/// `TooLong` in this order.
pub fn read(alloc: Global, bytes: &[u8]) -> Result<Groups, KeyFault>
    ensures read { ReadAs bytes.now result }
{
    if bytes.len() > MAX_KEY_FILE {
        return Err(KeyFault {
            kind: KeyFaultKind::TooLong,
            at: 0,
        });
    }
    if let Some(at) = bad_byte(bytes) {
        return Err(KeyFault {
            kind: KeyFaultKind::NotUtf8,
            at,
        });
    }
    let groups = read_lines(alloc, bytes)?;
    let list = group_list(alloc, &groups)?;
    Ok(list)
}
