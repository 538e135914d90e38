// A step of a load.
use action_xml::MAX_ACTION_FILE;
use keyfile_text::MAX_KEY_FILE;
use pk_types::Text;

/// Which reader reads a policy file.
#[derive(Clone, Copy, Debug, PartialEq, Eq)]
pub enum FileKind {
    /// `.policy`: actions.
    Actions,
    /// `.conf`: administrators.
    Admins,
    /// `.pkla`: authorization entries.
    Entries,
}

/// A step of a load. The steps stand in the order in which a load reports.
#[derive(Drop)]
pub enum Turn {
    /// So many names in the directory at the path are not text.
    Unnamed { path: Text, count: u32 },
    /// A policy file. It has no path where that would be over 65,535 bytes long.
    PolicyFile { kind: FileKind, path: Option<Text> },
}

impl FileKind {
    ghost use Rattle.std.specs.Prelude.{◌≡◌};
    ghost use Rattle.policy_load.specs.Turns.{limit_of};
    ghost use Rattle.policy_load.specs.Turns.{ending_of};

    /// The greatest number of bytes of a file of the kind.
    pub fn limit(self) -> u64
        ensures limit { result ≡ limit_of self }
    {
        match self {
            FileKind::Actions => MAX_ACTION_FILE as u64,
            FileKind::Admins | FileKind::Entries => MAX_KEY_FILE as u64,
        }
    }

    /// The ending of the names of the files of the kind.
    pub fn ending(self) -> &'static [u8]
        ensures ending { result.now ≡ ending_of self }
    {
        match self {
            FileKind::Actions => b".policy",
            FileKind::Admins => b".conf",
            FileKind::Entries => b".pkla",
        }
    }
}
