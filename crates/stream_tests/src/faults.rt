// A source that fails at each of its calls in turn, and a sink, alone and both.
use crate::runs::{IoPlan, NO_FAULTS, Wanted, difference, run};
use pk_types::NoMemory;
use std::alloc::Global;
use std::sync::Wait;
use std::test::Fail;
use std::thread::Threads;

const SCENARIO: &str =
    "process 5 5 7 -\naction a yes yes yes\naction b no no no\npeer 1 7\ncheck 1 1 process:5:5 a\ncheck 1 2 process:5:5 b\ncheck 1 3 process:6:6 b\n";

const ANSWERS: &str = "1 1 yes default:any\n1 2 no default:any\n1 3 error Failed unknown-subject\n";

/// The bytes up to the last LF.
fn whole_lines(bytes: &[u8]) -> &[u8] {
    match bytes.iter().rposition(|b| *b == b'\n') {
        Some(last) => {
            let (whole, _) = bytes.split_at(last.saturating_add(1).min(bytes.len()));
            whole
        }
        None => &[],
    }
}

/// In what a replay whose read fails at this call differs first from one of the whole lines among the
/// bytes that were given before, which ends so otherwise.
fn read_difference<R: Threads + Wait + Sync>(
    rt: &R,
    alloc: Global,
    fault: u64,
    given: usize,
    (status, code): (&str, u8),
) -> Result<&'static str, NoMemory> {
    let plan = IoPlan {
        read_piece: 16,
        read_fault: fault,
        ..NO_FAULTS
    };
    let scenario = SCENARIO.as_bytes();
    let (before, _) = scenario.split_at(given.min(scenario.len()));
    let whole = run(rt, alloc, &["replay"], whole_lines(before), NO_FAULTS)?;
    let wanted = Wanted {
        status,
        code,
        written: whole.written.as_slice(),
    };
    difference(rt, alloc, &["replay"], scenario, plan, wanted)
}

#[test]
fn a_read_fault_leaves_whole_lines_answered(rt: HostRuntime) -> Result<(), Fail> {
    let mut given = 0usize;
    for fault in 1..12u64 {
        let end = if given < SCENARIO.len().saturating_add(16) {
            ("ReadFault", 3)
        } else {
            ("Done", 0)
        };
        let differs = read_difference(&rt, rt.alloc(), fault, given, end)?;
        assert_eq!(rt; differs, "", "call {fault}");
        given = given.saturating_add(16);
    }
    Ok(())
}

/// Whether all answers are written where the write at this call fails, and nothing where the run ends
/// otherwise than it has to.
fn writes_all<R: Threads + Wait + Sync>(
    rt: &R,
    alloc: Global,
    fault: u64,
) -> Result<Option<bool>, NoMemory> {
    let plan = IoPlan {
        write_piece: 9,
        write_fault: fault,
        ..NO_FAULTS
    };
    let answers = ANSWERS.as_bytes();
    let ended = run(rt, alloc, &["replay"], SCENARIO.as_bytes(), plan)?;
    Ok(if ended.difference(Wanted::done(answers)).is_empty() {
        Some(true)
    } else if ended.is_cut(answers) {
        Some(false)
    } else {
        None
    })
}

#[test]
fn a_write_fault_leaves_a_prefix(rt: HostRuntime) -> Result<(), Fail> {
    let mut whole = 0u64;
    for fault in 1..16u64 {
        let written = writes_all(&rt, rt.alloc(), fault)?;
        assert!(rt; written.is_some(), "call {fault}");
        whole = whole.saturating_add(u64::from(written == Some(true)));
    }
    // Lines of 20, 19 and 33 bytes take three, three and four calls.
    assert_eq!(rt; whole, 5);
    Ok(())
}

/// Whether a generated run whose write fails at this call writes a part of its line, and not all.
fn is_cut_at<R: Threads + Wait + Sync>(
    rt: &R,
    alloc: Global,
    fault: u64,
) -> Result<bool, NoMemory> {
    let plan = IoPlan {
        write_piece: 9,
        write_fault: fault,
        ..NO_FAULTS
    };
    let ended = run(rt, alloc, &["load", "6"], b"", plan)?;
    Ok(ended.is_cut(b"yes 4 no 2 challenge 0 grants 1 entries 31\n"))
}

#[test]
fn a_sink_that_fails_has_a_prefix_of_the_line(rt: HostRuntime) -> Result<(), Fail> {
    for fault in 1..6u64 {
        assert!(rt; is_cut_at(&rt, rt.alloc(), fault)?, "call {fault}");
    }
    Ok(())
}

/// Whether a replay whose read and whose write fail at these calls ends as one where one of the two fails
/// alone.
fn ends_as_one<R: Threads + Wait + Sync>(
    rt: &R,
    alloc: Global,
    read_fault: u64,
    write_fault: u64,
) -> Result<bool, NoMemory> {
    let both = IoPlan {
        read_piece: 16,
        read_fault,
        write_piece: 9,
        write_fault,
    };
    let by_read = IoPlan {
        write_fault: 0,
        ..both
    };
    let by_write = IoPlan {
        read_fault: 0,
        ..both
    };
    let scenario = SCENARIO.as_bytes();
    let ended = run(rt, alloc, &["replay"], scenario, both)?;
    let one = run(rt, alloc, &["replay"], scenario, by_read)?;
    let other = run(rt, alloc, &["replay"], scenario, by_write)?;
    Ok(ended.is_alike(&one) || ended.is_alike(&other))
}

/// The first write at which that is not so beside a read that fails at this call.
fn odd_write<R: Threads + Wait + Sync>(
    rt: &R,
    alloc: Global,
    read_fault: u64,
) -> Result<Option<u64>, NoMemory> {
    for write_fault in 1..12u64 {
        if !ends_as_one(rt, alloc, read_fault, write_fault)? {
            return Ok(Some(write_fault));
        }
    }
    Ok(None)
}

#[test]
fn two_faults_end_as_one_of_them(rt: HostRuntime) -> Result<(), Fail> {
    for read_fault in 1..12u64 {
        let odd = odd_write(&rt, rt.alloc(), read_fault)?;
        assert_eq!(rt; odd, None, "read {read_fault}");
    }
    Ok(())
}
