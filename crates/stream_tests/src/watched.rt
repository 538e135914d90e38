// Sinks with a rule: what a command promises at each write is just what the rule allows, and no other text can come there.
use authority_model::Limits;
use memory_outside::{ByteSink, ByteSource, ListTree, WatchedSink, WriteRule};
use polkit_daemon::{Status, load_run, replay};
use std::test::Fail;

/// Only the line of a generated run of one check may be written.
struct LineOfOneCheck;

impl WriteRule for LineOfOneCheck {
    ghost use Rattle.std.proofs.Common.{◌∙◌, ◌++◌, append_assoc, refl};
    ghost use Rattle.polkit_daemon.specs.Generate.{generated_line};
    ghost use Rattle.stream_tests.specs.Rules.{IsOfLine};

    ghost allows = { IsOfLine };

    ghost allows_nothing = { (generated_line 1, refl) };

    ghost allows_prefix = { λ text more front. (more ++ front.0, front.1 ∙ append_assoc text more front.0) };
}

/// Only the answers of a legal history may be written.
struct AnswersOfAHistory;

impl WriteRule for AnswersOfAHistory {
    ghost use Rattle.std.proofs.Common.{◌∙◌, ◌++◌, [], append_assoc, refl};
    ghost use Rattle.stream_tests.specs.Rules.{IsOfAnswers};

    ghost allows = { IsOfAnswers };

    ghost allows_nothing = { ([], tt, ([], refl)) };

    ghost allows_prefix = { λ text more (past, legal, front). (past, legal, (more ++ front.0, front.1 ∙ append_assoc text more front.0)) };
}

#[test]
fn a_generated_run_writes_its_line_alone(rt: HostRuntime) -> Result<(), Fail> {
    let sink = ByteSink::new(rt.alloc(), 100, 3, Vec::new(rt.alloc()))?;
    let mut output: WatchedSink<LineOfOneCheck> = WatchedSink::over(sink);
    let status = load_run(rt.alloc(), 1, &mut output);
    assert!(rt; matches!(status, Status::Done));
    assert!(rt; output.bytes() == b"yes 0 no 1 challenge 0 grants 0 entries 19\n".as_slice());
    Ok(())
}

#[test]
fn a_replay_writes_answers_alone(rt: HostRuntime) -> Result<(), Fail> {
    let alloc = rt.alloc();
    let sink = ByteSink::new(alloc, 100, 3, Vec::new(alloc))?;
    let mut output: WatchedSink<AnswersOfAHistory> = WatchedSink::over(sink);
    let lines = b"process 5 5 7 -\naction a yes yes yes\npeer 1 7\ncheck 1 1 process:5:5 a\n";
    let mut input = ByteSource::new(lines.to_vec(alloc)?, 4096, Vec::new(alloc));
    let mut tree = ListTree::empty(alloc);
    let status = replay(
        alloc,
        None,
        Limits::GREATEST,
        &mut tree,
        &mut input,
        &mut output,
    );
    assert!(rt; matches!(status, Status::Done));
    assert!(rt; output.bytes() == b"1 1 yes default:any\n".as_slice());
    Ok(())
}
