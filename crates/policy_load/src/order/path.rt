// Paths, and the tree's answers at them.
ghost use Rattle.std.specs.Prelude.{◌≡◌, IfOk, Some};
ghost use Rattle.pk_types.specs.Text.{IsText};
ghost use Rattle.pk_outside.specs.Refusals.{TreeCause};
ghost use Rattle.pk_outside.specs.Trees.{TreeTold};
ghost use Rattle.policy_load.specs.Paths.{below, names_at, bytes_at};

use pk_outside::{FileBytes, Names, Tree, TreeRefused};
use pk_types::{NoMemory, Text, TextFault};
use std::alloc::Global;

/// The path of a name below a directory, and `None` exactly where it would have more than 65,535 bytes:
/// nothing stands there.
pub fn below(alloc: Global, directory: &Text, name: &[u8]) -> Result<Option<Text>, NoMemory>
    requires { IsText name.now }
    ensures path { IfOk result (λ path. path ≡ below directory.now name.now) }
{
    let mut bytes = Vec::from_slice(alloc, directory.bytes())?;
    bytes.push(b'/')?;
    bytes.extend_from_slice(name)?;
    match Text::try_from_bytes(alloc, bytes.as_slice()) {
        Ok(path) => Ok(Some(path)),
        Err(TextFault::TooLong { .. }) => Ok(None),
        Err(TextFault::NoMemory) => Err(NoMemory),
        Err(TextFault::BadByte { .. }) => unreachable!(),
    }
}

/// The names in the directory at a path.
///
/// # Errors
/// Those of the tree.
pub fn names_at<T: Tree>(tree: &mut T, path: &Option<Text>) -> Result<Names, TreeRefused>
    ensures names { (told : TreeTold) → T.told tree.old ≡ Some told → IfOk result (λ names. names ≡ names_at told path.now) }
    ensures same { T.told tree.new ≡ T.told tree.old }
    ensures cause { TreeCause (T.faults tree.old) (T.faults tree.new) result }
{
    match path {
        Some(path) => tree.names(path),
        None => Ok(Names::Absent),
    }
}

/// The bytes of the file at a path, of which at most `limit` are allowed.
///
/// # Errors
/// Those of the tree.
pub fn read_at<T: Tree>(
    tree: &mut T,
    path: &Option<Text>,
    limit: u64,
) -> Result<FileBytes, TreeRefused>
    ensures bytes { (told : TreeTold) → T.told tree.old ≡ Some told → IfOk result (λ bytes. bytes ≡ bytes_at told limit path.now) }
    ensures same { T.told tree.new ≡ T.told tree.old }
    ensures cause { TreeCause (T.faults tree.old) (T.faults tree.new) result }
{
    match path {
        Some(path) => tree.read(path, limit),
        None => Ok(FileBytes::Absent),
    }
}
