// A tree of files.
ghost use Rattle.std.specs.Prelude.{◌≡◌, ℕ, Option};
ghost use Rattle.pk_outside.specs.Refusals.{TreeCause};
ghost use Rattle.pk_outside.specs.Trees.{TreeTold, ListsNames, ReadsFile};

use pk_types::{ByteList, NoMemory, Text, TextList};

/// What stands in a directory.
#[derive(Drop)]
pub enum Names {
    /// The names that are text, and how many are not.
    Listed { names: TextList, unnamed: u32 },
    /// No directory stands at that path.
    Absent,
}

/// What a file holds.
#[derive(Drop)]
pub enum FileBytes {
    /// All of its bytes.
    Bytes(ByteList),
    /// No file stands at that path.
    Absent,
    /// The file is longer than the limit.
    TooLong,
}

/// Why a tree gave no answer.
#[derive(Clone, Copy, Debug, PartialEq, Eq)]
pub enum TreeRefused {
    /// The tree failed, and counted it.
    Failed,
    /// Memory was refused.
    NoMemory,
}

impl From<NoMemory> for TreeRefused {
    ghost use Rattle.std.specs.Prelude.{◌≡◌};
    ghost use Rattle.pk_outside.specs.declared.tree.TreeRefused.TheVariants as refused;

    ghost from_gives = { λ _ given. given ≡ refused.NoMemory };

    fn from(_: NoMemory) -> Self {
        TreeRefused::NoMemory
    }
}

/// A file of a tree that is told.
#[derive(Drop)]
pub struct TreeFile {
    pub path: Text,
    pub bytes: ByteList,
}

/// A directory of a tree that is told.
#[derive(Drop)]
pub struct TreeDirectory {
    pub path: Text,
    /// The names in it that are text.
    pub names: TextList,
    /// How many of its names are not.
    pub unnamed: u32,
}

/// Files in directories, each at a path.
pub trait Tree: Drop + Send {
    /// The files and directories, where they are told.
    ghost told: { Self → Option TreeTold };

    /// How often the tree has failed.
    ghost faults: { Self → ℕ };

    /// How often the tree has failed.
    fn faults(&self) -> u64
        ensures count { result ≡ faults self.now };

    /// The names in a directory.
    ///
    /// # Errors
    /// 1 `Failed` where the tree failed and counted a fault; 2 `NoMemory`.
    fn names(&mut self, path: &Text) -> Result<Names, TreeRefused>
        ensures names { ListsNames (told self.old) path.now result }
        ensures same { told self.new ≡ told self.old }
        ensures cause { TreeCause (faults self.old) (faults self.new) result };

    /// The bytes of a file of at most `limit` bytes.
    ///
    /// # Errors
    /// 1 `Failed` where the tree failed and counted a fault; 2 `NoMemory`.
    fn read(&mut self, path: &Text, limit: u64) -> Result<FileBytes, TreeRefused>
        ensures file { ReadsFile (told self.old) path.now limit result }
        ensures same { told self.new ≡ told self.old }
        ensures cause { TreeCause (faults self.old) (faults self.new) result };

    /// Hands lines about a load of the tree to whoever keeps it: what was skipped, or why the load was
    /// refused. Nothing comes of it. By default they are dropped.
    fn tell(&mut self, _lines: &[u8])
        ensures same { told self.new ≡ told self.old }
        ensures count { faults self.new ≡ faults self.old }
    {}
}
