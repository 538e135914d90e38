// Paths of a tree, texts by their keys, and a table whose growth is refused.
use authority_model::UserList;
use memory_outside::ListTree;
use pk_outside::{FileBytes, Names, TreeFile};
use pk_types::{ByteList, List, NoMemory, Pair, Text};
use policy_load::{below, names_at, read_at};
use std::alloc::Global;
use std::test::Fail;
use table_files::{TableFault, read_group, read_passwd};
use test_values::{one, text, text_of_bytes};
use xml_pieces::KeyedTexts;

/// The file `/r/f` with the bytes `abc`.
fn file(alloc: Global) -> Result<TreeFile, NoMemory> {
    let path = text(alloc, "/r/f")?;
    let bytes = ByteList::try_from_slice(alloc, b"abc")?;
    Ok(TreeFile { path, bytes })
}

/// A tree of that file.
fn tree(alloc: Global) -> Result<ListTree, NoMemory> {
    let files = one(alloc, file(alloc)?)?;
    Ok(ListTree::new(alloc, files, List::new(alloc), Vec::new(alloc)))
}

/// Whether a tree reads `abc` at the path.
fn reads_abc(tree: &mut ListTree, path: &Option<Text>) -> bool {
    match read_at(tree, path, 3) {
        Ok(FileBytes::Bytes(bytes)) => bytes.as_slice() == b"abc".as_slice(),
        _ => false,
    }
}

/// Whether the file at the path is too long for a limit of two bytes.
fn is_too_long(tree: &mut ListTree, path: &Option<Text>) -> bool {
    matches!(read_at(tree, path, 2), Ok(FileBytes::TooLong))
}

/// Whether a tree finds no directory where there is no path.
fn has_nothing_nowhere(tree: &mut ListTree) -> bool {
    matches!(names_at(tree, &None), Ok(Names::Absent))
}

/// What the tree tells at the path of the file `f` below the root, and without a path.
fn paths_told(alloc: Global) -> Result<[bool; 3], NoMemory> {
    let root = text(alloc, "/r")?;
    let name = text(alloc, "f")?;
    let path = below(alloc, &root, name.bytes())?;
    let mut tree = tree(alloc)?;
    Ok([
        reads_abc(&mut tree, &path),
        is_too_long(&mut tree, &path),
        has_nothing_nowhere(&mut tree),
    ])
}

#[test]
fn tree_answers_at_paths(rt: HostRuntime) -> Result<(), Fail> {
    assert_eq!(rt; paths_told(rt.alloc())?, [true; 3]);
    Ok(())
}

/// Three texts by their keys, of which two are one.
fn two_keys(alloc: Global) -> Result<KeyedTexts, NoMemory> {
    let mut texts = KeyedTexts::new(alloc);
    for (key, value) in [(b"k", b"1"), (b"l", b"2"), (b"k", b"3")] {
        let key = text_of_bytes(alloc, key)?;
        let value = text_of_bytes(alloc, value)?;
        texts.set(alloc, key, value)?;
    }
    Ok(texts)
}

/// Whether a pair is there and has this key and this value.
fn is_pair(pair: Option<&Pair>, key: &[u8], value: &[u8]) -> bool {
    pair.is_some_and(|pair| pair.key.bytes() == key && pair.value.bytes() == value)
}

/// Whether these are the two pairs of the texts, each at its place and with its last value.
fn are_pairs(pairs: &[Pair]) -> bool {
    pairs.len() == 2 && is_pair(pairs.get(0), b"k", b"3") && is_pair(pairs.get(1), b"l", b"2")
}

/// Whether the texts have the key `l` and no key `m`, and whether they have their pairs.
fn keys_told(alloc: Global) -> Result<[bool; 2], NoMemory> {
    let texts = two_keys(alloc)?;
    let has_l_alone = texts.has(b"l") && !texts.has(b"m");
    let pairs = texts.into_pairs();
    Ok([has_l_alone, are_pairs(pairs.as_slice())])
}

#[test]
fn keys_keep_their_places(rt: HostRuntime) -> Result<(), Fail> {
    assert_eq!(rt; keys_told(rt.alloc())?, [true; 2]);
    Ok(())
}

/// Root, alice and bob.
const USERS: &[u8] = b"root::0:0:::\nalice::1000:1000:::\nbob::1001:100:::\n";

/// Whether the user at a place has these gids.
fn has_gids(users: &UserList, place: usize, gids: &[u32]) -> bool {
    users
        .get(place)
        .is_some_and(|user| user.gids.as_slice() == gids)
}

/// Whether root, alice and bob have these gids.
fn have_gids(users: &UserList, root: &[u32], alice: &[u32], bob: &[u32]) -> bool {
    has_gids(users, 0, root) && has_gids(users, 1, alice) && has_gids(users, 2, bob)
}

/// Whether a file is read whole, or is refused for want of memory and the users stay.
fn is_read_or_refused(alloc: Global, users: &mut UserList) -> bool {
    match read_group(alloc, b"w::10:bob,alice\nv::11:bob\n", users) {
        Ok(groups) => groups.len() == 2 && have_gids(users, &[0], &[1000, 10], &[100, 10, 11]),
        Err(fault) => fault == TableFault::NoMemory && have_gids(users, &[0], &[1000], &[100]),
    }
}

#[test]
fn a_refused_growth_leaves_the_users(rt: HostRuntime) -> Result<(), Fail> {
    // With `--fail-alloc N` the Nth growth is refused, which may be one of the users'.
    if let Ok(mut users) = read_passwd(rt.alloc(), USERS) {
        assert!(rt; is_read_or_refused(rt.alloc(), &mut users));
    }
    Ok(())
}
