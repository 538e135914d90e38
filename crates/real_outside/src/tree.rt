// The files of the system. They are the trusted edge: nothing is told of their content.
use pk_outside::{FileBytes, Names, Tree, TreeRefused};
use pk_types::{ByteList, Text, TextFault, TextList};
use std::fs::{self, Files, OpenFile};
use std::io::{self, ErrorKind, Read};
use std::str;

/// The files and directories of the system, by their paths.
///
/// A file is a regular file, or a link to one; anything else at its path, as a directory, a FIFO or a
/// device, is absent as a file. It is not opened, unless it took the place of a file between the look
/// and the opening, and then it is closed again unread. Such an opening of a FIFO waits until somebody
/// opens it to write. A directory may be reached by a link too.
#[derive(Drop)]
pub struct DirTree<'a, R: Files + AllocGlobal + Clone + Drop> {
    rt: &'a R,
    faults: u64,
}

/// Whether the error says that nothing stands at the path.
fn is_absent(error: &io::Error) -> bool {
    matches!(error.kind(), ErrorKind::NotFound | ErrorKind::NotADirectory)
}

/// The refusal for an error.
fn refused(error: &io::Error) -> TreeRefused {
    if error.kind() == ErrorKind::OutOfMemory {
        TreeRefused::NoMemory
    } else {
        TreeRefused::Failed
    }
}

/// The names in the directory at the path, which is one.
fn list<R: Files + AllocGlobal + Clone + Drop>(rt: &R, path: &str) -> Result<Names, TreeRefused> {
    let entries = fs::read_dir(rt, path).map_err(|error| refused(&error))?;
    let mut names = TextList::new(rt.alloc());
    let mut unnamed = 0u32;
    for entry in entries {
        let name = match entry {
            Ok(entry) => Text::try_from_bytes(rt.alloc(), entry.file_name().as_bytes()),
            Err(error) if error.kind() == ErrorKind::InvalidFilename => {
                unnamed = unnamed.saturating_add(1);
                continue;
            }
            Err(error) => return Err(refused(&error)),
        };
        match name {
            Ok(name) => names.try_push(name).map_err(|_| TreeRefused::NoMemory)?,
            Err(TextFault::NoMemory) => return Err(TreeRefused::NoMemory),
            Err(_) => unnamed = unnamed.saturating_add(1),
        }
    }
    Ok(Names::Listed { names, unnamed })
}

/// The bytes of the file at the path, if it is still a regular file and has at most `limit`.
fn contents<R: Files + AllocGlobal>(
    rt: &R,
    path: &str,
    limit: u64,
) -> Result<FileBytes, TreeRefused> {
    let file = fs::open(rt, path).map_err(|error| refused(&error))?;
    let found = file.metadata().map_err(|error| refused(&error))?;
    if !found.is_file() {
        return Ok(FileBytes::Absent);
    }
    let mut bytes = Vec::new(rt.alloc());
    file.take(limit.saturating_add(1))
        .read_to_end(&mut bytes)
        .map_err(|error| refused(&error))?;
    if bytes.len() as u64 > limit {
        return Ok(FileBytes::TooLong);
    }
    Ok(FileBytes::Bytes(ByteList::from_vec(bytes)))
}

/// The names in a directory.
fn names_at<R: Files + AllocGlobal + Clone + Drop>(
    rt: &R,
    path: &Text,
) -> Result<Names, TreeRefused> {
    let Ok(path) = str::from_utf8(path.bytes()) else {
        return Ok(Names::Absent);
    };
    match fs::metadata(rt, path) {
        Ok(found) if found.is_dir() => list(rt, path),
        Ok(_) => Ok(Names::Absent),
        Err(error) if is_absent(&error) => Ok(Names::Absent),
        Err(error) => Err(refused(&error)),
    }
}

/// The bytes of a file.
fn bytes_at<R: Files + AllocGlobal>(
    rt: &R,
    path: &Text,
    limit: u64,
) -> Result<FileBytes, TreeRefused> {
    let Ok(path) = str::from_utf8(path.bytes()) else {
        return Ok(FileBytes::Absent);
    };
    match fs::metadata(rt, path) {
        Ok(found) if found.is_file() => contents(rt, path, limit),
        Ok(_) => Ok(FileBytes::Absent),
        Err(error) if is_absent(&error) => Ok(FileBytes::Absent),
        Err(error) => Err(refused(&error)),
    }
}

impl<'a, R: Files + AllocGlobal + Clone + Drop + Sync + Eprint> DirTree<'a, R> {
    ghost use Rattle.std.specs.Prelude.{◌≡◌};

    /// The files of this system. It takes no memory.
    pub fn new(rt: &'a R) -> Self
        ensures none { ⟦<DirTree<'a, R> as Tree>⟧.faults result ≡ 0 }
    {
        DirTree { rt, faults: 0 }
    }
}

impl<'a, R: Files + AllocGlobal + Clone + Drop + Sync + Eprint> Tree for DirTree<'a, R> {
    ghost use Rattle.std.specs.Prelude.{None};

    ghost told = { λ _. None };

    ghost faults = { λ t. t.faults };

    fn faults(&self) -> u64 {
        self.faults
    }

    fn names(&mut self, path: &Text) -> Result<Names, TreeRefused> {
        let names = names_at(self.rt, path);
        if let Err(TreeRefused::Failed) = names {
            self.faults = self.faults.saturating_add(1);
        }
        names
    }

    fn read(&mut self, path: &Text, limit: u64) -> Result<FileBytes, TreeRefused> {
        let bytes = bytes_at(self.rt, path, limit);
        if let Err(TreeRefused::Failed) = bytes {
            self.faults = self.faults.saturating_add(1);
        }
        bytes
    }

    /// Writes the lines to standard error.
    fn tell(&mut self, lines: &[u8]) {
        if let Ok(lines) = str::from_utf8(lines) {
            let _ = eprint!(self.rt; "{lines}");
        }
    }
}
