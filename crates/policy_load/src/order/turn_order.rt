// The turns of a load.
ghost use Rattle.std.specs.Prelude.{◌≡◌, ◌++◌, Some, codes, IfOk, OnOk};
ghost use Rattle.pk_outside.specs.Refusals.{TreeCause};
ghost use Rattle.pk_outside.specs.Trees.{TreeTold};
ghost use Rattle.policy_load.specs.Paths.{below, names_at};
ghost use Rattle.policy_load.specs.Turns.{with_names, with_directory, with_subdirectories, with_all_below, no_directories, single_listing, entry_listing, turn_of, turn_at, turns_of, reported, all_turns, action_directory, admin_directory, vendor_directory, site_directory};

use crate::order::listing::{Head, Listing, counted_names};
use crate::order::path::{below, names_at};
use crate::order::turn::{FileKind, Turn};
use pk_outside::{Names, Tree, TreeRefused};
use pk_types::{NoMemory, Text};
use pkla_files::{Dir, FilePlace, Root, order};
use std::alloc::Global;

/// A listing with one more directory, of which this was found at the path.
fn with_names(
    alloc: Global,
    kind: FileKind,
    root: Root,
    name: Text,
    path: Option<Text>,
    found: Names,
    listing: Listing,
) -> Result<Listing, NoMemory>
    ensures listing { IfOk result (λ more. more ≡ with_names kind root name path found listing) }
{
    let Some(path) = path else {
        return Ok(listing);
    };
    let Names::Listed { names, unnamed } = found else {
        return Ok(listing);
    };
    let files = counted_names(alloc, kind, names, unnamed)?;
    let Listing {
        mut dirs,
        mut heads,
    } = listing;
    dirs.try_push(Dir { root, name, files })?;
    heads.try_push(Head { path, unnamed })?;
    Ok(Listing { dirs, heads })
}

/// A listing with one more directory, where it stands at the path.
fn with_directory<T: Tree>(
    alloc: Global,
    tree: &mut T,
    kind: FileKind,
    root: Root,
    name: Text,
    path: Option<Text>,
    listing: Listing,
) -> Result<Listing, TreeRefused>
    ensures listing { (told : TreeTold) → T.told tree.old ≡ Some told
        → IfOk result (λ more. more ≡ with_directory told kind root name path listing) }
    ensures same { T.told tree.new ≡ T.told tree.old }
    ensures cause { TreeCause (T.faults tree.old) (T.faults tree.new) result }
{
    let found = names_at(tree, &path)?;
    let listing = with_names(alloc, kind, root, name, path, found, listing)?;
    Ok(listing)
}

/// A listing with the directories of entry files that have these names below another directory.
fn with_subdirectories<T: Tree>(
    alloc: Global,
    tree: &mut T,
    root: Root,
    base: &Text,
    names: &[Text],
    listing: Listing,
) -> Result<Listing, TreeRefused>
    ensures listing { (told : TreeTold) → T.told tree.old ≡ Some told
        → IfOk result (λ more. more ≡ with_subdirectories told root base.now names.now listing) }
    ensures same { T.told tree.new ≡ T.told tree.old }
    ensures cause { TreeCause (T.faults tree.old) (T.faults tree.new) result }
{
    let mut listing = listing;
    for name in names {
        let path = below(alloc, base, name.bytes())?;
        let name = name.try_copy()?;
        listing = with_directory(alloc, tree, FileKind::Entries, root, name, path, listing)?;
    }
    Ok(listing)
}

/// A directory whose names are those of directories.
#[derive(Drop)]
struct Parent {
    path: Option<Text>,
    found: Names,
}

/// The directory of directories at this path below the root.
fn parent_at<T: Tree>(tree: &mut T, path: Option<Text>) -> Result<Parent, TreeRefused>
    ensures path { IfOk result (λ parent. parent.path ≡ path) }
    ensures found { (told : TreeTold) → T.told tree.old ≡ Some told → IfOk result (λ parent. parent.found ≡ names_at told path) }
    ensures same { T.told tree.new ≡ T.told tree.old }
    ensures cause { TreeCause (T.faults tree.old) (T.faults tree.new) result }
{
    let found = names_at(tree, &path)?;
    Ok(Parent { path, found })
}

/// A listing with all directories of entry files below another directory.
fn with_all_below<T: Tree>(
    alloc: Global,
    tree: &mut T,
    root: Root,
    parent: &Parent,
    listing: Listing,
) -> Result<Listing, TreeRefused>
    ensures listing { (told : TreeTold) → T.told tree.old ≡ Some told
        → IfOk result (λ more. more ≡ with_all_below told root parent.now.path parent.now.found listing) }
    ensures same { T.told tree.new ≡ T.told tree.old }
    ensures cause { TreeCause (T.faults tree.old) (T.faults tree.new) result }
{
    let Some(path) = &parent.path else {
        return Ok(listing);
    };
    match &parent.found {
        Names::Absent => Ok(listing),
        Names::Listed { names, .. } => {
            with_subdirectories(alloc, tree, root, path, names.as_slice(), listing)
        }
    }
}

/// The turn of a name of a directory; the empty name is its report.
fn turn_of(alloc: Global, kind: FileKind, head: &Head, name: &Text) -> Result<Turn, NoMemory>
    ensures turn { IfOk result (λ turn. turn ≡ turn_of kind head.now name.now) }
{
    if name.bytes().is_empty() {
        return Ok(Turn::Unnamed {
            path: head.path.try_copy()?,
            count: head.unnamed,
        });
    }
    let path = below(alloc, &head.path, name.bytes())?;
    Ok(Turn::PolicyFile { kind, path })
}

/// The turn at a place of a listing.
fn turn_at(
    alloc: Global,
    kind: FileKind,
    listing: &Listing,
    place: FilePlace,
) -> Result<Option<Turn>, NoMemory>
    ensures turn { IfOk result (λ turn. turn ≡ turn_at kind listing.now place) }
{
    let Some(dir) = listing.dirs.get(place.dir as usize) else {
        return Ok(None);
    };
    let Some(head) = listing.heads.get(place.dir as usize) else {
        return Ok(None);
    };
    let Some(name) = dir.files.get(place.file as usize) else {
        return Ok(None);
    };
    Ok(Some(turn_of(alloc, kind, head, name)?))
}

/// Adds the turns of a listing, in their order.
fn add_turns(
    alloc: Global,
    turns: &mut Vec<Turn>,
    kind: FileKind,
    listing: &Listing,
) -> Result<(), NoMemory>
    ensures added { OnOk result (turns.new.items ≡ turns.old.items ++ turns_of kind listing.now) }
{
    let places = order(alloc, &listing.dirs)?;
    for place in places.as_slice() {
        if let Some(turn) = turn_at(alloc, kind, listing, *place)? {
            turns.push(turn)?;
        }
    }
    Ok(())
}

/// Adds the turns of the one directory of files of a kind.
fn add_single<T: Tree>(
    alloc: Global,
    tree: &mut T,
    turns: &mut Vec<Turn>,
    kind: FileKind,
    path: Option<Text>,
) -> Result<(), TreeRefused>
    ensures added { (told : TreeTold) → T.told tree.old ≡ Some told
        → OnOk result (turns.new.items ≡ turns.old.items ++ turns_of kind (single_listing told kind path)) }
    ensures same { T.told tree.new ≡ T.told tree.old }
    ensures cause { TreeCause (T.faults tree.old) (T.faults tree.new) result }
{
    let listing = with_directory(
        alloc,
        tree,
        kind,
        Root::Etc,
        Text::new(alloc),
        path,
        Listing::new(alloc),
    )?;
    add_turns(alloc, turns, kind, &listing)?;
    Ok(())
}

/// Adds the report of a directory of directories, where it has names that are not text.
fn add_report(turns: &mut Vec<Turn>, parent: Parent) -> Result<(), NoMemory>
    ensures added { OnOk result (turns.new.items ≡ turns.old.items ++ reported parent.path parent.found) }
{
    let Parent { path, found } = parent;
    let Some(path) = path else {
        return Ok(());
    };
    let Names::Listed { unnamed, .. } = found else {
        return Ok(());
    };
    if unnamed != 0 {
        let count = unnamed;
        turns.push(Turn::Unnamed { path, count })?;
    }
    Ok(())
}

/// Adds the turns of the entry files: the reports of the two directories of directories, and then
/// what stands in these.
fn add_entries<T: Tree>(
    alloc: Global,
    tree: &mut T,
    turns: &mut Vec<Turn>,
    root: &Text,
) -> Result<(), TreeRefused>
    ensures added { (told : TreeTold) → T.told tree.old ≡ Some told
        → OnOk result (turns.new.items ≡ turns.old.items
        ++ (reported (vendor_directory root.now) (names_at told (vendor_directory root.now))
        ++ (reported (site_directory root.now) (names_at told (site_directory root.now))
        ++ turns_of FileKind.Entries (entry_listing told root.now)))) }
    ensures same { T.told tree.new ≡ T.told tree.old }
    ensures cause { TreeCause (T.faults tree.old) (T.faults tree.new) result }
{
    let vendor = parent_at(tree, below(alloc, root, VENDOR)?)?;
    let site = parent_at(tree, below(alloc, root, SITE)?)?;
    let listing = with_all_below(alloc, tree, Root::VarLib, &vendor, Listing::new(alloc))?;
    let listing = with_all_below(alloc, tree, Root::Etc, &site, listing)?;
    add_report(turns, vendor)?;
    add_report(turns, site)?;
    add_turns(alloc, turns, FileKind::Entries, &listing)?;
    Ok(())
}

/// Where action files stand.
const ACTIONS: &[u8] = b"usr/share/polkit-1/actions";

/// Where administrators' files stand.
const ADMINS: &[u8] = b"etc/polkit-1/localauthority.conf.d";

/// Where the directories of the vendor's entry files stand.
const VENDOR: &[u8] = b"var/lib/polkit-1/localauthority";

/// Where the directories of the site's entry files stand.
const SITE: &[u8] = b"etc/polkit-1/localauthority";

/// The turns of a load of the tree below a root, in the order of its reports: action files,
/// administrators' files and entry files.
///
/// All directories are listed; no file is read. Action and administrators' files come by the bytes of
/// their names. The directories of entry files come by the bytes of their names, of one name that
/// below `var/lib` before that below `etc`, and their files by the bytes of their names
/// (pklocalauthority(8), "Evaluation Order"). The names of a directory that are not text are a turn before
/// its files; those of the two directories `localauthority` come before all other turns of entries.
///
/// # Errors
/// Those of the tree.
pub fn turns<T: Tree>(alloc: Global, tree: &mut T, root: &Text) -> Result<Vec<Turn>, TreeRefused>
    ensures turns { (told : TreeTold) → T.told tree.old ≡ Some told → IfOk result (λ turns. turns.items ≡ all_turns told root.now) }
    ensures same { T.told tree.new ≡ T.told tree.old }
    ensures cause { TreeCause (T.faults tree.old) (T.faults tree.new) result }
{
    let mut turns = Vec::new(alloc);
    let path = below(alloc, root, ACTIONS)?;
    add_single(alloc, tree, &mut turns, FileKind::Actions, path)?;
    let path = below(alloc, root, ADMINS)?;
    add_single(alloc, tree, &mut turns, FileKind::Admins, path)?;
    add_entries(alloc, tree, &mut turns, root)?;
    Ok(turns)
}
