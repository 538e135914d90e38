// Replays in segments whose file fails at each of its writes in turn, alone and beside the input and the
// output, and whose file is not made.
use crate::pipes::tree;
use crate::runs::{Ended, IoPlan, NO_FAULTS, Wanted, difference, run_at};
use memory_outside::{FilePlan, ListStation, ListTree, StationPlan};
use pk_types::NoMemory;
use std::alloc::Global;
use std::sync::Wait;
use std::test::Fail;
use std::thread::Threads;
use test_values::one;

/// A load and four connections.
const SCENARIO: &[u8] = b"action a yes yes yes\npeer 1 7\npeer 2 0\npeer 3 8\npeer 4 8\n";

/// Their segments of two entries each.
const WHOLE: &[u8] = b"segment 1 0 2
load 1 0 0 0 0 0 0 0
action a 0 0 % % % Yes Yes Yes 0
entry 0 0 00000000000000000000000000000000 Load 1 0
entry 1 0 00000000000000000000000000000000 Connect 7 0
close 1 0 0 0
segment 2 2 2
entry 2 0 00000000000000000000000000000000 Connect 0 0
entry 3 0 00000000000000000000000000000000 Connect 8 0
close 3 0 0 0
segment 3 4 1
entry 4 0 00000000000000000000000000000000 Connect 8 0
close 4 0 0 0
";

/// The words of a replay in such segments.
const WORDS: &[&str] = &["replay", "--segments", "/s", "--per", "2"];

/// A station with one file, which takes at most 60 bytes in a write. The write and the making of a file
/// with these numbers fail.
fn station(alloc: Global, write: u64, making: u64) -> Result<ListStation, NoMemory> {
    let failing = vec![in alloc; write]?;
    let failing_files = vec![in alloc; making]?;
    let files = one(alloc, FilePlan::new(alloc, 4096, 60, failing)?)?;
    let mut plan = StationPlan::empty(alloc);
    plan.files = files;
    plan.failing_files = failing_files;
    Ok(ListStation::new(alloc, plan))
}

/// The bytes of the file that came back.
fn written(station: &ListStation) -> &[u8] {
    match station.filed_files().get(0) {
        Some(file) => file.written.as_slice(),
        None => &[],
    }
}

/// How a replay of a scenario in segments ends at a station, and what its file has then.
fn run_in<R: Threads + Wait + Sync>(
    rt: &R,
    alloc: Global,
    station: &mut ListStation,
    scenario: &[u8],
    plan: IoPlan,
) -> Result<(Ended, Vec<u8>), NoMemory> {
    let mut tree = ListTree::empty(alloc);
    let ended = run_at(rt, alloc, &mut tree, station, WORDS, scenario, plan)?;
    let file = written(station).to_vec(alloc)?;
    Ok((ended, file))
}

/// The same at a station whose file fails at this write.
fn run_with<R: Threads + Wait + Sync>(
    rt: &R,
    alloc: Global,
    scenario: &[u8],
    failing: u64,
    plan: IoPlan,
) -> Result<(Ended, Vec<u8>), NoMemory> {
    let mut station = station(alloc, failing, 0)?;
    run_in(rt, alloc, &mut station, scenario, plan)
}

/// Whether a run that wrote these bytes to its file wrote all of them and is done, or ended for the file
/// with a part of them; and nothing where it is neither.
fn is_whole(ended: &Ended, file: &[u8]) -> Option<bool> {
    let is_done = ended.status.as_str() == "Done" && ended.code == 0;
    let is_fault = ended.status.as_str() == "SegmentFault" && ended.code == 8;
    if is_done && file == WHOLE {
        Some(true)
    } else if is_fault && WHOLE.starts_with(file) && file.len() < WHOLE.len() {
        Some(false)
    } else {
        None
    }
}

/// The same of a replay whose file fails at this write.
fn writes_whole<R: Threads + Wait + Sync>(
    rt: &R,
    alloc: Global,
    failing: u64,
) -> Result<Option<bool>, NoMemory> {
    let (ended, file) = run_with(rt, alloc, SCENARIO, failing, NO_FAULTS)?;
    Ok(is_whole(&ended, &file))
}

#[test]
fn a_file_that_fails_ends_a_replay(rt: HostRuntime) -> Result<(), Fail> {
    assert_eq!(rt; writes_whole(&rt, rt.alloc(), 0)?, Some(true));
    let mut faults = 0u64;
    for failing in 1..40u64 {
        let whole = writes_whole(&rt, rt.alloc(), failing)?;
        assert!(rt; whole.is_some(), "write {failing}");
        faults = faults.saturating_add(u64::from(whole == Some(false)));
    }
    // The segments have 189, 138 and 83 bytes.
    assert!(rt; 6 < faults && faults < 39);
    Ok(())
}

/// A scenario with answers.
const CHECKS: &[u8] =
    b"process 5 5 7 -\naction a yes yes yes\npeer 1 7\ncheck 1 1 process:5:5 a\ncheck 1 2 process:6:6 a\n";

/// Its answers.
const ANSWERS: &[u8] = b"1 1 yes default:any\n1 2 error Failed unknown-subject\n";

/// Whether a replay of it whose file fails at a write, and whose input or output fails by this plan, ends as
/// one with one of both faults.
fn ends_as_one<R: Threads + Wait + Sync>(
    rt: &R,
    alloc: Global,
    failing: u64,
    plan: IoPlan,
) -> Result<bool, NoMemory> {
    let by_file = IoPlan {
        read_fault: 0,
        write_fault: 0,
        ..plan
    };
    let (ended, file) = run_with(rt, alloc, CHECKS, failing, plan)?;
    let (one, one_file) = run_with(rt, alloc, CHECKS, failing, by_file)?;
    let (other, other_file) = run_with(rt, alloc, CHECKS, 0, plan)?;
    Ok(ended.is_alike(&one) && file == one_file || ended.is_alike(&other) && file == other_file)
}

/// The first write of the file that does not so beside a read, or beside a write of the output, at this
/// call.
fn odd_write<R: Threads + Wait + Sync>(
    rt: &R,
    alloc: Global,
    call: u64,
) -> Result<Option<u64>, NoMemory> {
    let pieces = IoPlan {
        read_piece: 16,
        write_piece: 9,
        ..NO_FAULTS
    };
    let by_read = IoPlan {
        read_fault: call,
        ..pieces
    };
    let by_write = IoPlan {
        write_fault: call,
        ..pieces
    };
    for failing in 1..14u64 {
        let is_so = ends_as_one(rt, alloc, failing, by_read)?
            && ends_as_one(rt, alloc, failing, by_write)?;
        if !is_so {
            return Ok(Some(failing));
        }
    }
    Ok(None)
}

#[test]
fn a_file_and_a_stream_that_fail_end_as_one_of_them(rt: HostRuntime) -> Result<(), Fail> {
    let answered = Wanted::done(ANSWERS);
    let differs = difference(&rt, rt.alloc(), &["replay"], CHECKS, NO_FAULTS, answered)?;
    assert_eq!(rt; differs, "");
    for call in 1..9u64 {
        assert_eq!(rt; odd_write(&rt, rt.alloc(), call)?, None, "call {call}");
    }
    Ok(())
}

/// An action file that is skipped.
const NO_ACTIONS: [(&str, &str); 1] = [("/r/usr/share/polkit-1/actions/a.policy", "<")];

/// What is told of it, and what comes of a check then.
const SKIPPED: &[u8] = b"skipped /r/usr/share/polkit-1/actions/a.policy Malformed 1\n";

const ANSWERED: &[u8] =
    b"skipped /r/usr/share/polkit-1/actions/a.policy Malformed 1\n1 1 error Failed unknown-action\n";

/// In what a replay over that file at a station ends otherwise than is wanted, if in anything.
fn making_difference<R: Threads + Wait + Sync>(
    rt: &R,
    alloc: Global,
    station: &mut ListStation,
    wanted: Wanted<'_>,
) -> Result<&'static str, NoMemory> {
    let mut tree = tree(alloc, &NO_ACTIONS, Vec::new(alloc))?;
    let words = ["replay", "--root", "/r", "--segments", "/s", "--per", "2"];
    let input = b"peer 1 7\ncheck 1 1 process:5:5 a\n";
    let ended = run_at(rt, alloc, &mut tree, station, &words, input, NO_FAULTS)?;
    Ok(ended.difference(wanted))
}

/// The same at a station with a file, of which this making fails.
fn difference_at<R: Threads + Wait + Sync>(
    rt: &R,
    alloc: Global,
    making: u64,
    wanted: Wanted<'_>,
) -> Result<&'static str, NoMemory> {
    let mut station = station(alloc, 0, making)?;
    making_difference(rt, alloc, &mut station, wanted)
}

/// The same at a station that has no file to make.
fn difference_without<R: Threads + Wait + Sync>(
    rt: &R,
    alloc: Global,
    wanted: Wanted<'_>,
) -> Result<&'static str, NoMemory> {
    let mut station = ListStation::empty(alloc);
    making_difference(rt, alloc, &mut station, wanted)
}

/// A replay runs nothing where its file is not made, and tells what it skipped.
#[test]
fn a_file_that_is_not_made_ends_a_replay(rt: HostRuntime) -> Result<(), Fail> {
    let unmade = Wanted {
        status: "SegmentFault",
        code: 8,
        written: SKIPPED,
    };
    assert_eq!(rt; difference_at(&rt, rt.alloc(), 1, unmade)?, "");
    assert_eq!(rt;
        difference_at(&rt, rt.alloc(), 2, Wanted::done(ANSWERED))?,
        ""
    );
    assert_eq!(rt; difference_without(&rt, rt.alloc(), unmade)?, "");
    Ok(())
}
