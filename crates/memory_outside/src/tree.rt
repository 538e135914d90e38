// Trees in memory, which hold their files and directories.
ghost use Rattle.std.specs.Prelude.{◌≡◌, [], Some, find, IfOk, bytes_eq};
ghost use Rattle.std.specs.Option.{option_copied};
ghost use Rattle.memory_outside.specs.Memory.{fails_next, one_call};
ghost use Rattle.pk_outside.specs.Refusals.{TreeCause, has_failed};
ghost use Rattle.pk_outside.specs.Trees.{directory_at, file_at, bytes_within, names_of, ListsNames, ReadsFile};

use crate::calls::Calls;
use pk_outside::{FileBytes, Names, Tree, TreeDirectory, TreeFile, TreeRefused};
use pk_types::{ByteList, List, NoMemory, Text};
use std::alloc::Global;

/// The directory that stands at the path.
fn directory_at<'a>(directories: &'a [TreeDirectory], path: &Text) -> Option<&'a TreeDirectory>
    ensures first { option_copied result ≡ directory_at directories.now path.now }
{
    directories.iter().find(|d| d.path.is_same(path))
}

/// The file that stands at the path.
fn file_at<'a>(files: &'a [TreeFile], path: &Text) -> Option<&'a TreeFile>
    ensures first { option_copied result ≡ find (λ f. bytes_eq f.path path.now) files.now }
{
    files.iter().find(|f| f.path.is_same(path))
}

/// What stands in the directory at the path.
fn names_in(directories: &[TreeDirectory], path: &Text) -> Result<Names, NoMemory>
    ensures names { IfOk result (λ names. names ≡ names_of (directory_at directories.now path.now)) }
{
    let Some(directory) = directory_at(directories, path) else {
        return Ok(Names::Absent);
    };
    let names = directory.names.try_copy()?;
    Ok(Names::Listed {
        names,
        unnamed: directory.unnamed,
    })
}

/// What the file at the path holds.
fn bytes_in(
    alloc: Global,
    files: &[TreeFile],
    path: &Text,
    limit: u64,
) -> Result<FileBytes, NoMemory>
    ensures bytes { IfOk result (λ bytes. bytes ≡ bytes_within limit (file_at files.now path.now)) }
{
    let Some(file) = file_at(files, path) else {
        return Ok(FileBytes::Absent);
    };
    if file.bytes.len() as u64 > limit {
        return Ok(FileBytes::TooLong);
    }
    let bytes = ByteList::try_from_slice(alloc, file.bytes.as_slice())?;
    Ok(FileBytes::Bytes(bytes))
}

/// A tree in memory, whose calls can be made to fail. A call that fails tells nothing of the tree.
#[derive(Drop)]
pub struct ListTree {
    alloc: Global,
    files: List<TreeFile>,
    directories: List<TreeDirectory>,
    calls: Calls,
}

impl ListTree {
    ghost use Rattle.memory_outside.specs.HeldTree.{list_told, list_calls};

    /// A tree of these files and directories; of two with one path the first counts. The calls of
    /// `names` and `read` with the numbers in `failing` fail; the first call has the number 1.
    pub fn new(
        alloc: Global,
        files: List<TreeFile>,
        directories: List<TreeDirectory>,
        failing: Vec<u64>,
    ) -> Self
        ensures told { list_told result ≡ record { files = files; directories = directories } }
        ensures calls { list_calls result ≡ record { made = 0; faults = 0; failing = failing.items } }
    {
        ListTree {
            alloc,
            files,
            directories,
            calls: Calls::failing_at(failing),
        }
    }

    /// A tree without a file and without a directory, whose calls do not fail. It takes no memory.
    pub fn empty(alloc: Global) -> Self
        ensures told { list_told result ≡ record { files = []; directories = [] } }
        ensures calls { list_calls result ≡ record { made = 0; faults = 0; failing = [] } }
    {
        ListTree::new(alloc, List::new(alloc), List::new(alloc), Vec::new(alloc))
    }
}

impl Tree for ListTree {
    ghost use Rattle.std.specs.Prelude.{Some};
    ghost use Rattle.memory_outside.specs.HeldTree.{list_told, list_calls};

    ghost told = { λ t. Some (record { files = t.files; directories = t.directories }) };

    ghost faults = { λ t. t.calls.faults };

    fn faults(&self) -> u64 {
        self.calls.faults()
    }

    fn names(&mut self, path: &Text) -> Result<Names, TreeRefused>
        ensures names { ListsNames (Some (list_told self.old)) path.now result }
        ensures same { list_told self.new ≡ list_told self.old }
        ensures cause { TreeCause (list_calls self.old).faults (list_calls self.new).faults result }
        ensures listed { has_failed result ≡ fails_next (list_calls self.old) }
        ensures counted { list_calls self.new ≡ one_call (list_calls self.old) (has_failed result) }
    {
        if self.calls.is_failing() {
            self.calls.fail();
            return Err(TreeRefused::Failed);
        }
        self.calls.pass();
        match names_in(self.directories.as_slice(), path) {
            Ok(names) => Ok(names),
            Err(NoMemory) => Err(TreeRefused::NoMemory),
        }
    }

    fn read(&mut self, path: &Text, limit: u64) -> Result<FileBytes, TreeRefused>
        ensures file { ReadsFile (Some (list_told self.old)) path.now limit result }
        ensures same { list_told self.new ≡ list_told self.old }
        ensures cause { TreeCause (list_calls self.old).faults (list_calls self.new).faults result }
        ensures listed { has_failed result ≡ fails_next (list_calls self.old) }
        ensures counted { list_calls self.new ≡ one_call (list_calls self.old) (has_failed result) }
    {
        if self.calls.is_failing() {
            self.calls.fail();
            return Err(TreeRefused::Failed);
        }
        self.calls.pass();
        match bytes_in(self.alloc, self.files.as_slice(), path, limit) {
            Ok(bytes) => Ok(bytes),
            Err(NoMemory) => Err(TreeRefused::NoMemory),
        }
    }
}

/// A tree in memory that never fails: its count of faults is always 0.
#[derive(Drop)]
pub struct SureTree {
    alloc: Global,
    files: List<TreeFile>,
    directories: List<TreeDirectory>,
}

impl SureTree {
    ghost use Rattle.memory_outside.specs.HeldTree.{sure_told};

    /// A tree of these files and directories; of two with one path the first counts.
    pub fn new(alloc: Global, files: List<TreeFile>, directories: List<TreeDirectory>) -> Self
        ensures told { sure_told result ≡ record { files = files; directories = directories } }
    {
        SureTree {
            alloc,
            files,
            directories,
        }
    }
}

impl Tree for SureTree {
    ghost use Rattle.std.specs.Prelude.{Some};

    ghost told = { λ t. Some (record { files = t.files; directories = t.directories }) };

    ghost faults = { λ _. 0 };

    fn faults(&self) -> u64 {
        0
    }

    fn names(&mut self, path: &Text) -> Result<Names, TreeRefused> {
        match names_in(self.directories.as_slice(), path) {
            Ok(names) => Ok(names),
            Err(NoMemory) => Err(TreeRefused::NoMemory),
        }
    }

    fn read(&mut self, path: &Text, limit: u64) -> Result<FileBytes, TreeRefused> {
        match bytes_in(self.alloc, self.files.as_slice(), path, limit) {
            Ok(bytes) => Ok(bytes),
            Err(NoMemory) => Err(TreeRefused::NoMemory),
        }
    }
}
