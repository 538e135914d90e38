// Explanations, each with the status and the lines that it must have.
use crate::trees::{failing, texts, tree};
use memory_outside::ByteSink;
use pk_types::NoMemory;
use pkexplain_tool::pkexplain;
use std::alloc::Global;
use std::test::Fail;

/// The most bytes of the output.
const ROOM: usize = 4096;

/// An explanation. The output takes `piece` bytes in a call. A call of the tree or the output with the
/// number 0 is none.
#[derive(Clone, Copy)]
struct Row {
    shows: &'static str,
    words: &'static [&'static str],
    tree: u64,
    piece: usize,
    output: u64,
    code: u8,
    lines: &'static str,
}

/// All lines of the tree below `/r`.
const DONE: Row = Row {
    shows: "the vendor's rule is dead, since later ones override it in each case",
    words: &["--root", "/r"],
    tree: 0,
    piece: ROOM,
    output: 0,
    code: 0,
    lines: "skipped /r/etc/polkit-1/localauthority/50-local.d/bad.pkla MissingKey 0
0 any org.example.clock.set yes root
0 any org.example.clock.show yes root
0 inactive org.example.clock.set yes root
0 inactive org.example.clock.show yes root
0 active org.example.clock.set yes root
0 active org.example.clock.show yes root
1000 any org.example.clock.set no default:any
1000 any org.example.clock.show no entry:2
1000 inactive org.example.clock.set no default:inactive
1000 inactive org.example.clock.show no default:inactive
1000 active org.example.clock.set auth_admin entry:1
1000 active org.example.clock.show yes entry:2
dead 0
live 1 1000 active org.example.clock.set
live 2 1000 any org.example.clock.show
",
};

/// An explanation of which nothing was written.
const NOTHING: Row = Row { lines: "", ..DONE };

/// The explanations.
const ROWS: &[Row] = &[
    DONE,
    Row {
        shows: "the output takes a byte in each write",
        piece: 1,
        ..DONE
    },
    Row {
        shows: "the first write fails",
        output: 1,
        code: 4,
        ..NOTHING
    },
    Row {
        shows: "the ninth write fails, of a byte each",
        piece: 1,
        output: 9,
        code: 4,
        lines: "skipped ",
        ..DONE
    },
    Row {
        shows: "the tree fails at its first call",
        tree: 1,
        code: 2,
        ..NOTHING
    },
    Row {
        shows: "the tree fails at its last call",
        tree: 17,
        code: 2,
        ..NOTHING
    },
    Row {
        shows: "a table is refused",
        words: &["--root", "/x"],
        code: 2,
        ..NOTHING
    },
    Row {
        shows: "a root without files",
        words: &["--root", "/none"],
        ..NOTHING
    },
    Row {
        shows: "no words",
        words: &[],
        code: 1,
        ..NOTHING
    },
    Row {
        shows: "a root that ends in a slash",
        words: &["--root", "/r/"],
        code: 1,
        ..NOTHING
    },
];

/// In what an explanation differs from its row, if it does.
fn difference(alloc: Global, row: &Row) -> Result<&'static str, NoMemory> {
    let words = texts(alloc, row.words)?;
    let mut tree = tree(alloc, row.tree)?;
    let piece = row.piece.max(1);
    let mut output = ByteSink::new(alloc, ROOM, piece, failing(alloc, row.output)?)?;
    let status = pkexplain(alloc, words.as_slice(), &mut tree, &mut output);
    Ok(if status.code() != row.code {
        "code"
    } else if output.bytes() != row.lines.as_bytes() {
        "lines"
    } else {
        ""
    })
}

#[test]
fn explanations_have_their_lines(rt: HostRuntime) -> Result<(), Fail> {
    for row in ROWS {
        assert_eq!(rt; difference(rt.alloc(), row)?, "", "{}", row.shows);
    }
    Ok(())
}
