// Looks at the processes of the system.
use arrayvec::ArrayString;
use pk_outside::{Sighted, Sights};
use proc_sight::read_stat;
use std::fmt::Write;
use std::fs::{self, Files};
use std::io::{self, ErrorKind, Read};

/// How many bytes of a line are read. The kernel's line has at most 52 words of 20 digits, and a name.
const LINE: usize = 2048;

/// How many bytes a path has at most, as that of the process 4294967295.
const PATH: usize = 24;

/// Looks at the processes of the system by `/proc`.
///
/// A process without a file there is gone. Each look opens the file, reads once and closes it. Where
/// that fails it does so once more: a process that ended between the opening and the reading is gone
/// then.
#[derive(Drop)]
pub struct ProcessSights<'a, R: Files> {
    pub(crate) rt: &'a R,
    pub(crate) faults: u64,
}

/// Reads the line of the process into the buffer, and answers how many bytes it has.
fn read_line<R: Files>(rt: &R, pid: u32, buffer: &mut [u8]) -> io::Result<usize> {
    let mut path: ArrayString<PATH> = ArrayString::new();
    if write!(path, "/proc/{pid}/stat").is_err() {
        return Err(ErrorKind::InvalidFilename.into());
    }
    fs::open(rt, path.as_str())?.read(buffer)
}

/// What is seen of the process at once.
fn look_once<R: Files>(rt: &R, pid: u32) -> Sighted {
    let mut buffer = [0u8; LINE];
    let count = match read_line(rt, pid, &mut buffer) {
        Ok(count) => count.min(LINE),
        Err(error) if error.kind() == ErrorKind::NotFound => return Sighted::Gone,
        Err(_) => return Sighted::Failed,
    };
    match read_stat(&buffer[..count]) {
        Ok(line) => Sighted::Alive { start: line.start },
        Err(_) => Sighted::Failed,
    }
}

/// What is seen of the process, by a second look where the first failed.
fn look<R: Files>(rt: &R, pid: u32) -> Sighted {
    match look_once(rt, pid) {
        Sighted::Failed => look_once(rt, pid),
        seen => seen,
    }
}

impl<'a, R: Files + Sync> Sights for ProcessSights<'a, R> {
    ghost use Rattle.std.specs.Prelude.{None};

    ghost left = { λ _. None };

    ghost gave = { λ _. None };

    ghost faults = { λ s. s.faults };

    fn sight(&mut self, pid: u32) -> Sighted {
        let seen = look(self.rt, pid);
        if let Sighted::Failed = seen {
            self.faults = self.faults.saturating_add(1);
        }
        seen
    }
}
