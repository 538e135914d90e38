// The files of the turns.
ghost use Rattle.std.specs.Prelude.{◌≡◌, ◌≤◌, ◌++◌, ◌∷◌, [], Some, map, IfOk};
ghost use Rattle.pk_outside.specs.Refusals.{TreeCause};
ghost use Rattle.pk_outside.specs.Trees.{TreeTold};
ghost use Rattle.policy_load.specs.Findings.{file_of};
ghost use Rattle.policy_load.specs.Joins.{is_file, file_count, size_of, byte_count};
ghost use Rattle.policy_load.specs.Kept.{turn_file};

use crate::order::{Turn, read_at};
use pk_outside::{FileBytes, Tree, TreeRefused};
use pk_types::NoMemory;
use std::alloc::Global;

/// The greatest number of policy files.
pub const MAX_FILES: u64 = 4_096;

/// The greatest number of bytes of all policy files together: 8 MiB.
pub const MAX_POLICY_BYTES: u64 = 8_388_608;

/// A turn, with what was read of its file.
#[derive(Drop)]
pub struct TurnFile {
    pub turn: Turn,
    pub bytes: FileBytes,
}

/// The files of turns, and how many bytes they have together. Where these are more than
/// `MAX_POLICY_BYTES`, some files are not kept.
#[derive(Drop)]
pub struct ReadFiles {
    pub files: Vec<TurnFile>,
    pub bytes: u64,
}

/// Whether a turn is a file's.
fn is_file(turn: &Turn) -> bool
    ensures file { result ≡ is_file turn.now }
{
    match turn {
        Turn::Unnamed { .. } => false,
        Turn::PolicyFile { .. } => true,
    }
}

/// How many policy files there are, also those that are absent or too long.
pub fn file_count(turns: &[Turn]) -> usize
    ensures count { result ≡ file_count turns.now }
{
    turns.iter().filter(|turn| is_file(*turn)).count()
}

/// The bytes of a file within its own limit.
fn size_of(bytes: &FileBytes) -> u64
    ensures size { result ≡ size_of bytes.now }
{
    match bytes {
        FileBytes::Bytes(bytes) => bytes.len() as u64,
        FileBytes::Absent | FileBytes::TooLong => 0,
    }
}

/// The file of a turn; a report has none.
fn read_turn<T: Tree>(tree: &mut T, turn: &Turn) -> Result<FileBytes, TreeRefused>
    ensures bytes { (told : TreeTold) → T.told tree.old ≡ Some told → IfOk result (λ bytes. bytes ≡ file_of told turn.now) }
    ensures same { T.told tree.new ≡ T.told tree.old }
    ensures cause { TreeCause (T.faults tree.old) (T.faults tree.new) result }
{
    match turn {
        Turn::Unnamed { .. } => Ok(FileBytes::Absent),
        Turn::PolicyFile { kind, path } => read_at(tree, path, kind.limit()),
    }
}

/// The files with one more, where so many bytes of all are within their limit.
fn kept(files: Vec<TurnFile>, total: u64, file: TurnFile) -> Result<Vec<TurnFile>, NoMemory>
    ensures kept { IfOk result (λ kept. total ≤ MAX_POLICY_BYTES → kept.items ≡ files.items ++ file ∷ []) }
{
    let mut kept = files;
    if total <= MAX_POLICY_BYTES {
        kept.push(file)?;
    }
    Ok(kept)
}

/// Reads the files of turns, one after another.
///
/// All of them are read and counted, also behind the limit of their bytes together; then they are not
/// kept.
///
/// # Errors
/// Those of the tree.
pub fn read_files<T: Tree>(
    alloc: Global,
    tree: &mut T,
    turns: Vec<Turn>,
) -> Result<ReadFiles, TreeRefused>
    requires { file_count turns.items ≤ MAX_FILES }
    ensures bytes { (told : TreeTold) → T.told tree.old ≡ Some told
        → IfOk result (λ read. read.bytes ≡ byte_count told turns.items) }
    ensures files { (told : TreeTold) → T.told tree.old ≡ Some told
        → IfOk result (λ read. read.bytes ≤ MAX_POLICY_BYTES → read.files.items ≡ map (turn_file told) turns.items) }
    ensures same { T.told tree.new ≡ T.told tree.old }
    ensures cause { TreeCause (T.faults tree.old) (T.faults tree.new) result }
{
    let mut files = Vec::new(alloc);
    let mut total = 0u64;
    for turn in turns {
        let bytes = read_turn(tree, &turn)?;
        total = total.saturating_add(size_of(&bytes));
        files = kept(files, total, TurnFile { turn, bytes })?;
    }
    Ok(ReadFiles {
        files,
        bytes: total,
    })
}
