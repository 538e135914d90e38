// The order of the files of several directories.
ghost use Rattle.std.specs.Prelude.{◌≡◌, ◌++◌, List, map, IfOk, OnOk};
ghost use Rattle.pkla_files.specs.declared.directories.Dir.{Dir};
ghost use Rattle.pkla_files.specs.declared.directories.FilePlace.{FilePlace};
ghost use Rattle.pkla_files.specs.Orders.{files_of, all_files, file_key, IsFileOrder};

use crate::directories::{Dir, DirList, FileOrder, FilePlace, Root};
use pk_types::NoMemory;
use std::alloc::Global;

/// A file with all that orders it; the first field counts most.
#[derive(Clone, Copy, PartialEq, Eq, PartialOrd, Ord)]
pub struct FileRef<'a> {
    directory: &'a [u8],
    root: Root,
    name: &'a [u8],
    place: FilePlace,
}

/// Adds the files of the directory at this place.
fn add_files<'a>(files: &mut Vec<FileRef<'a>>, place: u64, dir: &'a Dir) -> Result<(), NoMemory>
    ensures added { OnOk result
        (map file_key files.new.items ≡ map file_key files.old.items ++ files_of place dir.now) }
{
    for (file, name) in dir.files.as_slice().iter().enumerate() {
        files.push(FileRef {
            directory: dir.name.bytes(),
            root: dir.root,
            name: name.bytes(),
            place: FilePlace {
                dir: place,
                file: file as u64,
            },
        })?;
    }
    Ok(())
}

/// The files of all directories, in the order of their places.
fn all_files(alloc: Global, dirs: &[Dir]) -> Result<Vec<FileRef<'_>>, NoMemory>
    ensures files { IfOk result (λ files. map file_key files.items ≡ all_files dirs.now) }
{
    let mut files = Vec::new(alloc);
    for (place, dir) in dirs.iter().enumerate() {
        add_files(&mut files, place as u64, dir)?;
    }
    Ok(files)
}

/// The places of these files.
fn places(alloc: Global, files: &[FileRef<'_>]) -> Result<Vec<FilePlace>, NoMemory>
    ensures places { IfOk result (λ places. places.items ≡ map (λ f. f.place) files.now) }
{
    let places = files.iter().map(|file| file.place).collect(alloc)?;
    Ok(places)
}

/// The order in which the files of these directories are evaluated, each file once
/// (pklocalauthority(8), "Evaluation Order"): by the bytes of the directory's name, then
/// `/var/lib` before `/etc`, then by the bytes of the file's name. Where all three are equal, the
/// earlier place comes first.
///
/// The entries of a later file override those of an earlier one. `one_order` says that there is
/// no other order.
///
/// # Errors
/// `NoMemory` alone.
pub fn order(alloc: Global, dirs: &DirList) -> Result<FileOrder, NoMemory>
    ensures order { IfOk result (λ order. IsFileOrder dirs.now order) }
{
    let mut files = all_files(alloc, dirs.as_slice())?;
    files.sort()?;
    let places = places(alloc, files.as_slice())?;
    Ok(FileOrder::from_vec(places))
}

/// The files of directories have one order.
pub fn one_order()
    ensures one { (dirs : List Dir) (one other : List FilePlace) →
        IsFileOrder dirs one → IsFileOrder dirs other → one ≡ other }
{}
