// Runs of the daemon over objects in memory, and in what they differ from what is wanted of them.
use memory_outside::{ByteSink, ByteSource, EmptyStation, ListStation, ListTree};
use pk_outside::TreeFile;
use pk_types::{ByteList, List, NoMemory, TextList};
use polkit_daemon::{Status, polkitd};
use std::alloc::Global;
use std::sync::Wait;
use std::thread::Threads;
use test_values::text;

/// How a run ended: the text of its status, its exit code, and what was written.
#[derive(Drop)]
pub struct Ended {
    pub status: String,
    pub code: u8,
    pub written: Vec<u8>,
}

/// The same as it is wanted of a run.
#[derive(Clone, Copy)]
pub struct Wanted<'a> {
    pub status: &'a str,
    pub code: u8,
    pub written: &'a [u8],
}

impl<'a> Wanted<'a> {
    /// All is done, and this is written.
    pub fn done(written: &'a [u8]) -> Wanted<'a> {
        Wanted {
            status: "Done",
            code: 0,
            written,
        }
    }

    /// Nothing is written.
    pub fn silent(status: &'a str, code: u8) -> Wanted<'a> {
        Wanted {
            status,
            code,
            written: b"",
        }
    }
}

impl Ended {
    /// In what it differs first from what is wanted, if in anything.
    pub fn difference(&self, wanted: Wanted<'_>) -> &'static str {
        if self.status.as_str() != wanted.status {
            "status"
        } else if self.code != wanted.code {
            "code"
        } else if self.written.as_slice() != wanted.written {
            "written"
        } else {
            ""
        }
    }

    /// Whether it ended as the other.
    pub fn is_alike(&self, other: &Ended) -> bool {
        let wanted = Wanted {
            status: other.status.as_str(),
            code: other.code,
            written: other.written.as_slice(),
        };
        self.difference(wanted).is_empty()
    }

    /// Whether the output failed once a part of these bytes was written, and not all.
    pub fn is_cut(&self, whole: &[u8]) -> bool {
        let written = self.written.as_slice();
        self.status.as_str() == "WriteFault"
            && self.code == 4
            && whole.starts_with(written)
            && written.len() < whole.len()
    }
}

/// How the input comes and the output goes: pieces in bytes, and the numbers of the calls that
/// fail.
#[derive(Clone, Copy)]
pub struct IoPlan {
    pub read_piece: usize,
    pub read_fault: u64,
    pub write_piece: usize,
    pub write_fault: u64,
}

/// Whole pieces and no fault.
pub const NO_FAULTS: IoPlan = IoPlan {
    read_piece: 4096,
    read_fault: 0,
    write_piece: 4096,
    write_fault: 0,
};

/// The most bytes that are read, and the room of the output.
const ROOM: usize = 65536;

fn words_of(alloc: Global, words: &[&str]) -> Result<TextList, NoMemory> {
    let mut list = List::new(alloc);
    for word in words {
        list.try_push(text(alloc, word)?)?;
    }
    Ok(list)
}

/// Files with these paths and bytes.
pub fn files(alloc: Global, rows: &[(&str, &str)]) -> Result<List<TreeFile>, NoMemory> {
    let mut files = List::new(alloc);
    for (path, bytes) in rows {
        let path = text(alloc, path)?;
        let bytes = ByteList::try_from_slice(alloc, bytes.as_bytes())?;
        files.try_push(TreeFile { path, bytes })?;
    }
    Ok(files)
}

fn source(alloc: Global, input: &[u8], plan: IoPlan) -> Result<ByteSource, NoMemory> {
    let (input, _) = input.split_at(input.len().min(ROOM));
    let bytes = input.to_vec(alloc)?;
    let failing = vec![in alloc; plan.read_fault]?;
    Ok(ByteSource::new(bytes, plan.read_piece.max(1), failing))
}

fn sink(alloc: Global, plan: IoPlan) -> Result<ByteSink, NoMemory> {
    let failing = vec![in alloc; plan.write_fault]?;
    ByteSink::new(alloc, ROOM, plan.write_piece.max(1), failing)
}

/// How a run ended with this status and this output.
fn end_of(alloc: Global, status: &Status, sink: &ByteSink) -> Result<Ended, NoMemory> {
    let written = sink.bytes().to_vec(alloc)?;
    Ok(Ended {
        status: format!(in alloc; "{status}")?,
        code: status.code(),
        written,
    })
}

/// Runs the daemon with these words over this input, of which the first 65,536 bytes count, and over
/// no files.
pub fn run<R: Threads + Wait + Sync>(
    rt: &R,
    alloc: Global,
    words: &[&str],
    input: &[u8],
    plan: IoPlan,
) -> Result<Ended, NoMemory> {
    run_over(rt, alloc, &mut ListTree::empty(alloc), words, input, plan)
}

/// The same over the files of a tree.
pub fn run_over<R: Threads + Wait + Sync>(
    rt: &R,
    alloc: Global,
    tree: &mut ListTree,
    words: &[&str],
    input: &[u8],
    plan: IoPlan,
) -> Result<Ended, NoMemory> {
    let words = words_of(alloc, words)?;
    let mut source = source(alloc, input, plan)?;
    let mut sink = sink(alloc, plan)?;
    let status = polkitd(
        rt,
        alloc,
        words.as_slice(),
        tree,
        &mut EmptyStation::new(),
        &mut source,
        &mut sink,
    );
    end_of(alloc, &status, &sink)
}

/// The same at a station.
pub fn run_at<R: Threads + Wait + Sync>(
    rt: &R,
    alloc: Global,
    tree: &mut ListTree,
    station: &mut ListStation,
    words: &[&str],
    input: &[u8],
    plan: IoPlan,
) -> Result<Ended, NoMemory> {
    let words = words_of(alloc, words)?;
    let mut source = source(alloc, input, plan)?;
    let mut sink = sink(alloc, plan)?;
    let status = polkitd(
        rt,
        alloc,
        words.as_slice(),
        tree,
        station,
        &mut source,
        &mut sink,
    );
    end_of(alloc, &status, &sink)
}

/// In what a run over no files differs first from what is wanted of it, if in anything.
pub fn difference<R: Threads + Wait + Sync>(
    rt: &R,
    alloc: Global,
    words: &[&str],
    input: &[u8],
    plan: IoPlan,
    wanted: Wanted<'_>,
) -> Result<&'static str, NoMemory> {
    let ended = run(rt, alloc, words, input, plan)?;
    Ok(ended.difference(wanted))
}

/// The same of a run over the files of a tree.
pub fn difference_over<R: Threads + Wait + Sync>(
    rt: &R,
    alloc: Global,
    tree: &mut ListTree,
    words: &[&str],
    input: &[u8],
    plan: IoPlan,
    wanted: Wanted<'_>,
) -> Result<&'static str, NoMemory> {
    let ended = run_over(rt, alloc, tree, words, input, plan)?;
    Ok(ended.difference(wanted))
}
