// One connection over the input and the output, in pieces, with calls that fail, and in what order.
use crate::runs::{IoPlan, NO_FAULTS, Wanted, difference_over, files, run_over};
use memory_outside::ListTree;
use pk_outside::TreeDirectory;
use pk_types::{List, NoMemory};
use std::alloc::Global;
use std::sync::Wait;
use std::test::Fail;
use std::thread::Threads;
use test_values::{one, text};

/// A call of CheckAuthorization for process 51 with the action `a.yes`, little-endian.
const LITTLE: [u8; 265] = [
    108, 1, 0, 1, 97, 0, 0, 0, 1, 0, 0, 0, 150, 0, 0, 0, 1, 1, 111, 0, 37, 0, 0, 0, 47, 111, 114,
    103, 47, 102, 114, 101, 101, 100, 101, 115, 107, 116, 111, 112, 47, 80, 111, 108, 105, 99, 121,
    75, 105, 116, 49, 47, 65, 117, 116, 104, 111, 114, 105, 116, 121, 0, 0, 0, 2, 1, 115, 0, 36, 0,
    0, 0, 111, 114, 103, 46, 102, 114, 101, 101, 100, 101, 115, 107, 116, 111, 112, 46, 80, 111,
    108, 105, 99, 121, 75, 105, 116, 49, 46, 65, 117, 116, 104, 111, 114, 105, 116, 121, 0, 0, 0,
    0, 3, 1, 115, 0, 18, 0, 0, 0, 67, 104, 101, 99, 107, 65, 117, 116, 104, 111, 114, 105, 122, 97,
    116, 105, 111, 110, 0, 0, 0, 0, 0, 0, 8, 1, 103, 0, 16, 40, 115, 97, 123, 115, 118, 125, 41,
    115, 97, 123, 115, 115, 125, 117, 115, 0, 0, 0, 12, 0, 0, 0, 117, 110, 105, 120, 45, 112, 114,
    111, 99, 101, 115, 115, 0, 0, 0, 0, 48, 0, 0, 0, 3, 0, 0, 0, 112, 105, 100, 0, 1, 117, 0, 0,
    51, 0, 0, 0, 10, 0, 0, 0, 115, 116, 97, 114, 116, 45, 116, 105, 109, 101, 0, 1, 116, 0, 0, 0,
    0, 0, 0, 0, 8, 0, 0, 0, 0, 0, 0, 0, 5, 0, 0, 0, 97, 46, 121, 101, 115, 0, 0, 0, 0, 0, 0, 0, 0,
    0, 0, 0, 0, 0, 0, 0, 0,
];

/// Its answer: yes, by the default for any.
const ANSWER: [u8; 96] = [
    108, 2, 1, 1, 56, 0, 0, 0, 1, 0, 0, 0, 23, 0, 0, 0, 5, 1, 117, 0, 1, 0, 0, 0, 8, 1, 103, 0, 9,
    40, 98, 98, 97, 123, 115, 115, 125, 41, 0, 0, 1, 0, 0, 0, 0, 0, 0, 0, 40, 0, 0, 0, 0, 0, 0, 0,
    17, 0, 0, 0, 112, 111, 108, 107, 105, 116, 46, 100, 101, 99, 105, 100, 101, 100, 45, 98, 121,
    0, 0, 0, 11, 0, 0, 0, 100, 101, 102, 97, 117, 108, 116, 58, 97, 110, 121, 0,
];

/// A call of Reload.
const RELOAD: [u8; 128] = [
    108, 1, 0, 1, 0, 0, 0, 0, 1, 0, 0, 0, 111, 0, 0, 0, 1, 1, 111, 0, 37, 0, 0, 0, 47, 111, 114,
    103, 47, 102, 114, 101, 101, 100, 101, 115, 107, 116, 111, 112, 47, 80, 111, 108, 105, 99, 121,
    75, 105, 116, 49, 47, 65, 117, 116, 104, 111, 114, 105, 116, 121, 0, 0, 0, 2, 1, 115, 0, 34, 0,
    0, 0, 111, 114, 103, 46, 102, 114, 101, 101, 100, 101, 115, 107, 116, 111, 112, 46, 80, 111,
    108, 105, 99, 121, 75, 105, 116, 49, 46, 80, 114, 111, 102, 105, 108, 101, 0, 0, 0, 0, 0, 0, 3,
    1, 115, 0, 6, 0, 0, 0, 82, 101, 108, 111, 97, 100, 0, 0,
];

/// The empty return with the serial 1, and the signal Changed with the serial 2.
const RELOADED: [u8; 152] = [
    108, 2, 1, 1, 0, 0, 0, 0, 1, 0, 0, 0, 8, 0, 0, 0, 5, 1, 117, 0, 1, 0, 0, 0, 108, 4, 1, 1, 0, 0,
    0, 0, 2, 0, 0, 0, 112, 0, 0, 0, 1, 1, 111, 0, 37, 0, 0, 0, 47, 111, 114, 103, 47, 102, 114,
    101, 101, 100, 101, 115, 107, 116, 111, 112, 47, 80, 111, 108, 105, 99, 121, 75, 105, 116, 49,
    47, 65, 117, 116, 104, 111, 114, 105, 116, 121, 0, 0, 0, 2, 1, 115, 0, 36, 0, 0, 0, 111, 114,
    103, 46, 102, 114, 101, 101, 100, 101, 115, 107, 116, 111, 112, 46, 80, 111, 108, 105, 99, 121,
    75, 105, 116, 49, 46, 65, 117, 116, 104, 111, 114, 105, 116, 121, 0, 0, 0, 0, 3, 1, 115, 0, 7,
    0, 0, 0, 67, 104, 97, 110, 103, 101, 100, 0,
];

/// The action `a.yes`, which is allowed to all.
const ACTIONS: &str =
    "<policyconfig><action id=\"a.yes\"><defaults><allow_any>yes</allow_any></defaults></action></policyconfig>";

/// The files below `/r`.
const FILES: [(&str, &str); 2] = [
    ("/r/usr/share/polkit-1/actions/a.policy", ACTIONS),
    ("/r/tables/processes", "51 8 1000 -\n"),
];

/// The directory of the actions.
fn directory(alloc: Global) -> Result<TreeDirectory, NoMemory> {
    let path = text(alloc, "/r/usr/share/polkit-1/actions")?;
    let names = one(alloc, text(alloc, "a.policy")?)?;
    Ok(TreeDirectory {
        path,
        names,
        unnamed: 0,
    })
}

/// The tree of these files, whose calls with these numbers fail.
pub fn tree(alloc: Global, rows: &[(&str, &str)], failing: Vec<u64>) -> Result<ListTree, NoMemory> {
    let files = files(alloc, rows)?;
    let directories = one(alloc, directory(alloc)?)?;
    Ok(ListTree::new(alloc, files, directories, failing))
}

/// The words of a pipe of this user.
fn words(uid: &'static str) -> [&'static str; 4] {
    ["pipe", uid, "--root", "/r"]
}

/// In what a pipe over these bytes and the files below `/r` differs first from what is wanted, if in
/// anything.
fn pipe_difference<R: Threads + Wait + Sync>(
    rt: &R,
    alloc: Global,
    words: &[&str],
    input: &[u8],
    plan: IoPlan,
    wanted: Wanted<'_>,
) -> Result<&'static str, NoMemory> {
    let mut tree = tree(alloc, &FILES, Vec::new(alloc))?;
    difference_over(rt, alloc, &mut tree, words, input, plan, wanted)
}

/// The pieces in which the input comes.
fn pieces(read_piece: usize) -> IoPlan {
    IoPlan {
        read_piece,
        ..NO_FAULTS
    }
}

#[test]
fn call_comes_in_pieces_of_any_size(rt: HostRuntime) -> Result<(), Fail> {
    for piece in 1..265usize {
        let plan = pieces(piece);
        let wanted = Wanted::done(&ANSWER);
        let differs = pipe_difference(&rt, rt.alloc(), &words("1000"), &LITTLE, plan, wanted)?;
        assert_eq!(rt; differs, "", "pieces of {piece}");
    }
    Ok(())
}

/// Bytes with another one at a place.
fn with_byte(alloc: Global, bytes: &[u8], at: usize, byte: u8) -> Result<Vec<u8>, NoMemory> {
    let mut other = bytes.to_vec(alloc)?;
    if at < other.len() {
        other[at] = byte;
    }
    Ok(other)
}

/// What came of a reload whose tree fails at a call.
#[derive(Clone, Copy, Debug, PartialEq, Eq)]
enum Loading {
    /// The first load failed, and nothing was written.
    First,
    /// The second load failed, and the reload was answered.
    Second,
    /// None did, and the reload was told besides.
    Neither,
    /// Something else came of it.
    Other,
}

/// A reload with a tree that fails at this call.
fn reload_at<R: Threads + Wait + Sync>(
    rt: &R,
    alloc: Global,
    call: u64,
) -> Result<Loading, NoMemory> {
    let failing = vec![in alloc; call]?;
    let mut tree = tree(alloc, &FILES, failing)?;
    let (answer, _) = RELOADED.split_at(24);
    let ended = run_over(rt, alloc, &mut tree, &words("0"), &RELOAD, NO_FAULTS)?;
    let failed = Wanted::silent("TreeFault 1", 2);
    Ok(if ended.difference(failed).is_empty() {
        Loading::First
    } else if ended.difference(Wanted::done(answer)).is_empty() {
        Loading::Second
    } else if ended.difference(Wanted::done(&RELOADED)).is_empty() {
        Loading::Neither
    } else {
        Loading::Other
    })
}

/// The test counts the calls that a load makes of this tree; the next one is the second load's.
#[test]
fn failed_reload_changes_nothing(rt: HostRuntime) -> Result<(), Fail> {
    let mut first = 0u64;
    let mut second = 0u64;
    for call in 1..32u64 {
        let came = reload_at(&rt, rt.alloc(), call)?;
        assert!(rt; came != Loading::Other, "at call {call}");
        first = first.saturating_add(u64::from(came == Loading::First));
        second = second.saturating_add(u64::from(came == Loading::Second));
    }
    assert!(rt; 0 < first);
    assert_eq!(rt; second, first);
    Ok(())
}

#[test]
fn faults_of_the_streams_end_the_run(rt: HostRuntime) -> Result<(), Fail> {
    let alloc = rt.alloc();
    let words = words("1000");
    let read_fault = IoPlan {
        read_fault: 2,
        ..NO_FAULTS
    };
    let wanted = Wanted {
        status: "ReadFault",
        code: 3,
        written: &ANSWER,
    };
    let differs = pipe_difference(&rt, alloc, &words, &LITTLE, read_fault, wanted)?;
    assert_eq!(rt; differs, "");
    let write_fault = IoPlan {
        write_piece: 10,
        write_fault: 2,
        ..NO_FAULTS
    };
    let (cut, _) = ANSWER.split_at(10);
    let wanted = Wanted {
        status: "WriteFault",
        code: 4,
        written: cut,
    };
    let differs = pipe_difference(&rt, alloc, &words, &LITTLE, write_fault, wanted)?;
    assert_eq!(rt; differs, "");
    Ok(())
}

/// Two calls, which come in pieces of this size, and the two answers, where the second write fails.
fn two_calls_difference<R: Threads + Wait + Sync>(
    rt: &R,
    alloc: Global,
    read_piece: usize,
    status: &str,
    code: u8,
    answers: usize,
) -> Result<&'static str, NoMemory> {
    let mut input = LITTLE.to_vec(alloc)?;
    input.extend_from_slice(&LITTLE)?;
    let mut written = ANSWER.to_vec(alloc)?;
    written.extend_from_slice(&with_byte(alloc, &ANSWER, 8, 2)?)?;
    written.truncate(answers.saturating_mul(ANSWER.len()));
    let plan = IoPlan {
        write_fault: 2,
        ..pieces(read_piece)
    };
    let wanted = Wanted {
        status,
        code,
        written: &written,
    };
    pipe_difference(rt, alloc, &words("1000"), &input, plan, wanted)
}

#[test]
fn answers_are_written_before_more_is_read(rt: HostRuntime) -> Result<(), Fail> {
    let piece = LITTLE.len();
    let differs = two_calls_difference(&rt, rt.alloc(), piece, "WriteFault", 4, 1)?;
    assert_eq!(rt; differs, "");
    Ok(())
}

#[test]
fn answers_to_one_read_go_with_one_write(rt: HostRuntime) -> Result<(), Fail> {
    let differs = two_calls_difference(&rt, rt.alloc(), 4096, "Done", 0, 2)?;
    assert_eq!(rt; differs, "");
    Ok(())
}
