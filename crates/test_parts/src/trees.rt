// The tree of files of a service and of an agent, words, and outputs.
use memory_outside::{ByteSink, ListTree};
use pk_outside::{TreeDirectory, TreeFile};
use pk_types::{ByteList, List, NoMemory, TextList};
use std::alloc::Global;
use test_values::text;

/// The room of an output.
const ROOM: usize = 4096;

/// The root of a service.
pub const ROOT: &str = "/r";

/// The directory of the actions below the root.
const ACTIONS_AT: &str = "/r/usr/share/polkit-1/actions";

/// An action that its own user is asked for, the same where the answer is kept, and one that all may
/// do.
const ACTIONS: &str =
    "<policyconfig><action id=\"a.self\"><message>Authentication is required</message><defaults><allow_any>auth_self</allow_any><allow_active>auth_self</allow_active></defaults></action><action id=\"a.keep\"><message>Authentication is kept</message><defaults><allow_any>auth_self_keep</allow_any><allow_active>auth_self_keep</allow_active></defaults></action><action id=\"a.yes\"><defaults><allow_any>yes</allow_any></defaults></action></policyconfig>";

/// The files of a service below the root, and the rules of an agent.
const FILES: &[(&str, &str)] = &[
    ("/r/usr/share/polkit-1/actions/a.policy", ACTIONS),
    ("/r/etc/passwd", "alice:x:1000:1000:::\n"),
    ("/r/tables/sessions", "s1 1000 local active\n"),
    ("/r/tables/processes", "50 7 1000 s1\n51 8 1000 -\n"),
    ("/rules", "a.* user:1000\n"),
];

/// Words as texts.
pub fn texts(alloc: Global, words: &[&str]) -> Result<TextList, NoMemory> {
    let mut texts = List::new(alloc);
    for word in words {
        texts.try_push(text(alloc, word)?)?;
    }
    Ok(texts)
}

/// Files in memory.
fn files(alloc: Global, rows: &[(&str, &str)]) -> Result<List<TreeFile>, NoMemory> {
    let mut files = List::new(alloc);
    for (path, bytes) in rows {
        files.try_push(TreeFile {
            path: text(alloc, path)?,
            bytes: ByteList::try_from_slice(alloc, bytes.as_bytes())?,
        })?;
    }
    Ok(files)
}

/// The directory of the actions.
fn directories(alloc: Global) -> Result<List<TreeDirectory>, NoMemory> {
    let mut directories = List::new(alloc);
    directories.try_push(TreeDirectory {
        path: text(alloc, ACTIONS_AT)?,
        names: texts(alloc, &["a.policy"])?,
        unnamed: 0,
    })?;
    Ok(directories)
}

/// The tree of the files, whose calls with these numbers fail.
pub fn tree(alloc: Global, failing: Vec<u64>) -> Result<ListTree, NoMemory> {
    let files = files(alloc, FILES)?;
    let directories = directories(alloc)?;
    Ok(ListTree::new(alloc, files, directories, failing))
}

/// An output.
pub fn output(alloc: Global) -> Result<ByteSink, NoMemory> {
    ByteSink::new(alloc, ROOM, ROOM, Vec::new(alloc))
}
