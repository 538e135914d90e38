// Directories of files of one kind.
ghost use Rattle.std.specs.Prelude.{◌≡◌, ◌++◌, ◌∷◌, [], filter, nat_eq, IfOk};
ghost use Rattle.std.specs.List.{ends_with};
ghost use Rattle.policy_load.specs.Turns.{ending_of, report_name, counted_names};

use crate::order::turn::FileKind;
use pk_types::{List, NoMemory, Text, TextList};
use pkla_files::DirList;
use std::alloc::Global;

/// Where a directory stands, and how many of its names are not text.
#[derive(Drop)]
pub struct Head {
    pub path: Text,
    pub unnamed: u32,
}

/// Directories, each with what orders it and where it stands. In `dirs` the empty name stands for the
/// report of the names that are not text.
#[derive(Drop)]
pub struct Listing {
    pub dirs: DirList,
    pub heads: List<Head>,
}

/// The name that stands for the report of a directory, where there is something to report.
fn report_name(alloc: Global, unnamed: u32) -> Result<TextList, NoMemory>
    ensures names { IfOk result (λ names. names ≡ report_name unnamed) }
{
    let mut names = TextList::new(alloc);
    if unnamed != 0 {
        names.try_push(Text::new(alloc))?;
    }
    Ok(names)
}

/// The names of a directory that count: its report, and the files whose names have the ending.
pub fn counted_names(
    alloc: Global,
    kind: FileKind,
    names: TextList,
    unnamed: u32,
) -> Result<TextList, NoMemory>
    ensures counted { IfOk result (λ counted. counted ≡ counted_names kind names unnamed) }
{
    let mut counted = report_name(alloc, unnamed)?;
    for name in names.into_vec() {
        if name.bytes().ends_with(kind.ending()) {
            counted.try_push(name)?;
        }
    }
    Ok(counted)
}

impl Listing {
    ghost use Rattle.policy_load.specs.Turns.{no_directories};

    /// No directories.
    pub fn new(alloc: Global) -> Listing
        ensures none { result ≡ no_directories }
    {
        Listing {
            dirs: List::new(alloc),
            heads: List::new(alloc),
        }
    }
}
