// Directories of `.pkla` files, and the places of their files.
use pk_types::{List, Text, TextList};

/// Where a directory stands, in the order in which directories of one name are evaluated.
#[derive(Clone, Copy, Debug, PartialEq, Eq, PartialOrd, Ord)]
pub enum Root {
    /// Below `/var/lib/polkit-1/localauthority`, for software that is installed.
    VarLib,
    /// Below `/etc/polkit-1/localauthority`, for the local administrator.
    Etc,
}

/// A directory of `.pkla` files, with their names in any order.
#[derive(Drop)]
pub struct Dir {
    pub root: Root,
    pub name: Text,
    pub files: TextList,
}

/// Directories in any order.
pub type DirList = List<Dir>;

/// A file of one of the directories of a list, by the place of the directory in the list and that
/// of the file in the directory, both counted from 0.
#[derive(Clone, Copy, Debug, PartialEq, Eq, PartialOrd, Ord)]
pub struct FilePlace {
    pub dir: u64,
    pub file: u64,
}

/// Files in the order in which they are evaluated.
pub type FileOrder = List<FilePlace>;
