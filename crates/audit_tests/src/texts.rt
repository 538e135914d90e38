// Texts that are read and written again, and texts that are not.
use audit_text::{AuditReadRefused, AuditWriteRefused, LineKind, read, write};
use memory_outside::{ByteSink, ByteSource};
use std::alloc::Global;
use std::test::*;

/// A load with an item of each kind, and entries with each variant of an event, a call and a message.
const WHOLE: &str = "audit 1 1 31
load 1 1 1 1 1 1 1 1
action a.yes 1 % d%20%C3%A4 1 de@AT m v u i Yes AuthSelfKeep No 1 k %25
rule 1 unix-user:* 2 a.* b + AuthAdmin - + AuthAdminKeep 1 k v
admin unix-user:0
user 1000 ann 2 100 0
group 0 root
session s1 1000 1 0
process 50 7 1000 + s1
fault /a%20b Fields 3
entry 0 0 00000000000000000000000000000000 Load 1 0
entry 1 0 0123456789abcdef0123456789abcdef Connect 1000 0
entry 1 1 00000000000000000000000000000000 Call 1 0 Announce 50 7 1 1 Reply 1 Done
entry 1 2 00000000000000000000000000000000 Call 2 1 Check Session s1 a.yes 1 k v 1 c 1 1 Reply 2 Verdict 1 0 Default Active 0 - 0
entry 1 2 00000000000000000000000000000000 Call 3 0 Check BusName :1.1 a.yes 0 0 % 1 1 Reply 3 Verdict 1 0 Grant 5 1 + 7 1 a b
entry 1 2 00000000000000000000000000000000 Call 4 0 Cancel c 1 1 Reply 4 Refused NoSuchId
entry 1 2 00000000000000000000000000000000 Call 5 0 Register Session s1 C /agent 1 1 Begin /agent a.yes m i 1 k v 1-00000000000000000000000000000000 2 User 0 Group 4294967295
entry 1 2 00000000000000000000000000000000 Call 6 0 Unregister Session s1 /agent 1 1 CancelBegin /agent 18446744073709551615-ffffffffffffffffffffffffffffffff
entry 1 2 00000000000000000000000000000000 Call 7 0 Respond 1-Z User 0 0
entry 1 2 00000000000000000000000000000000 Call 8 0 EnumerateActions C 1 1 Reply 8 Actions 1 C
entry 1 2 00000000000000000000000000000000 Call 9 0 EnumerateGrants Session s1 1 1 Reply 9 Grants 2 0 a.yes Process 50 7 1000 1 301 1 a.yes Session s1 1000 1 301
entry 1 2 00000000000000000000000000000000 Call 10 0 RevokeAll Session s1 1 1 Changed
entry 1 2 00000000000000000000000000000000 Call 11 0 RevokeOne tmpauthz0 1 1 Reply 11 Name :1.1
entry 1 2 00000000000000000000000000000000 Call 12 0 Reload 1 0 LoadWanted
entry 1 2 00000000000000000000000000000000 Call 13 0 Wrong InvalidArgs 1 0 StopWanted
entry 1 2 00000000000000000000000000000000 Returned 3 0
entry 1 2 00000000000000000000000000000000 AgentError 3 Cancelled 0
entry 1 2 00000000000000000000000000000000 Passed 0
entry 1 2 00000000000000000000000000000000 Depart 0
entry 0 2 00000000000000000000000000000000 LoadFailed 4 0
entry 0 2 00000000000000000000000000000000 Stop 0
entry 1 2 00000000000000000000000000000000 Collect 1 0
entry 1 3 00000000000000000000000000000000 Passed 1 1 Reply 1 Verdict 0 1 Root 1 - 0
entry 1 3 00000000000000000000000000000000 Passed 1 1 Reply 1 Verdict 0 1 Entry 2 1 - 0
entry 1 3 00000000000000000000000000000000 Passed 1 1 Reply 1 Verdict 0 0 Imply a.yes 1 - 0
entry 1 3 00000000000000000000000000000000 Passed 2 1 Reply 1 Verdict 0 0 Challenge 1 - 0 2 Reply 1 Verdict 0 0 Dismissed 1 - 0
entry 1 3 00000000000000000000000000000000 Passed 2 1 Reply 1 Verdict 0 0 AgentGone 1 - 0 2 Reply 1 Verdict 0 0 SubjectGone 1 - 0
entry 1 3 00000000000000000000000000000000 Passed 2 1 Reply 1 Verdict 0 0 ActionGone 1 - 0 2 Reply 1 Verdict 0 0 IdentityGone 1 - 0
entry 1 3 00000000000000000000000000000000 Call 4294967295 0 Reload 3 1 Reply 1 Refused IdInUse 1 Reply 1 Refused UnknownAction 1 Reply 1 Refused BadAnnounce
entry 1 3 00000000000000000000000000000000 Passed 3 1 Reply 1 Refused NotTrusted 1 Reply 1 Refused TooManyPending 1 Reply 1 Refused UnknownMethod
entry 1 18446744073709551615 00000000000000000000000000000000 Passed 0
";

/// The first load of a scenario with one action and one connection.
const SMALL: &str = "audit 1 1 2
load 1 0 0 0 0 0 0 0
action a.yes 0 0 % % % Yes Yes Yes 0
entry 0 0 00000000000000000000000000000000 Load 1 0
entry 1 0 00000000000000000000000000000000 Connect 1000 0
";

/// A source of a text, which gives it in pieces of at most so many bytes.
fn source(alloc: Global, text: &str, piece: usize) -> Result<ByteSource, Fail> {
    let bytes = text.as_bytes().to_vec(alloc)?;
    let source = if 0 < piece && bytes.len() < 1 << 62 {
        Some(ByteSource::new(bytes, piece, Vec::new(alloc)))
    } else {
        None
    };
    Ok(source.ok_or("a source")?)
}

/// What reading a text refuses.
fn refused(alloc: Global, text: &str) -> Result<Option<AuditReadRefused>, Fail> {
    let mut input = source(alloc, text, 4096)?;
    Ok(read(alloc, &mut input).err())
}

fn bad(line: u64, kind: LineKind) -> Option<AuditReadRefused> {
    Some(AuditReadRefused::BadLine { line, kind })
}

#[test]
fn texts_are_written_again(rt: HostRuntime) -> Result<(), Fail> {
    let alloc = rt.alloc();
    for text in ["audit 1 0 0\n", SMALL, WHOLE] {
        let mut input = source(alloc, text, 7)?;
        let history = read(alloc, &mut input).ok().ok_or(text)?;
        let mut output = ByteSink::new(alloc, 8192, 100, Vec::new(alloc))?;
        write(alloc, &history, &mut output).ok().ok_or(text)?;
        assert_eq!(rt; output.bytes(), text.as_bytes());
    }
    Ok(())
}

#[test]
fn the_first_faulty_line_is_told(rt: HostRuntime) -> Result<(), Fail> {
    let alloc = rt.alloc();
    let rows: [(&str, u64, LineKind); 26] = [
        ("", 1, LineKind::End),
        ("audit 1 0 0", 1, LineKind::End),
        ("\n", 1, LineKind::Word),
        ("audits 1 0 0\n", 1, LineKind::Word),
        ("audit\n", 1, LineKind::Count),
        ("audit 1 0\n", 1, LineKind::Count),
        ("audit 1 0 0 0\n", 1, LineKind::Count),
        ("audit 2 0 0\n", 1, LineKind::Value),
        ("audit 1  0 0\n", 1, LineKind::Number),
        ("audit 1 4294967296 0\n", 1, LineKind::Number),
        ("audit 1 00 0\n", 1, LineKind::Number),
        ("audit 1 0 18446744073709551616\n", 1, LineKind::Number),
        ("audit 1 0 0\nentry", 2, LineKind::End),
        ("audit 1 0 1\n", 2, LineKind::End),
        ("audit 1 0 1\nload 0 0 0 0 0 0 0 0\n", 2, LineKind::Word),
        ("audit 1 0 1\nentry x\n", 2, LineKind::Number),
        ("audit 1 0 1\nentry 1 0 Z Passed 0\n", 2, LineKind::Value),
        (
            "audit 1 0 1\nentry 1 0 00000000000000000000000000000000 Pass\n",
            2,
            LineKind::Value,
        ),
        (
            "audit 1 0 1\nentry 1 0 00000000000000000000000000000000 Passed 1\n",
            2,
            LineKind::Count,
        ),
        (
            "audit 1 0 1\nentry 1 0 00000000000000000000000000000000 Passed 0 0\n",
            2,
            LineKind::Count,
        ),
        (
            "audit 1 1 0\nload 0 0 1 0 0 0 0 0\nadmin %41\n",
            3,
            LineKind::Value,
        ),
        (
            "audit 1 1 0\nload 0 0 1 0 0 0 0 0\nadmin %2f\n",
            3,
            LineKind::Value,
        ),
        (
            "audit 1 1 0\nload 0 0 1 0 0 0 0 0\nadmin %FF\n",
            3,
            LineKind::Value,
        ),
        (
            "audit 1 1 0\nload 0 0 1 0 0 0 0 0\nadmin \n",
            3,
            LineKind::Value,
        ),
        (
            "audit 1 1 0\nload 1 0 0 0 0 0 0 0\naction a%20b 0 0 % % % Yes Yes Yes 0\n",
            3,
            LineKind::Value,
        ),
        ("audit 1 0 0\n\n", 2, LineKind::End),
    ];
    for (text, line, kind) in rows {
        assert_eq!(rt; refused(alloc, text)?, bad(line, kind));
    }
    Ok(())
}

#[test]
fn too_many_entries_are_refused(rt: HostRuntime) -> Result<(), Fail> {
    let alloc = rt.alloc();
    let many = Some(AuditReadRefused::TooMany { entries: 65_537 });
    assert_eq!(rt; refused(alloc, "audit 1 0 65537\n")?, many);
    assert_eq!(rt; refused(alloc, "audit 1 0 65536\n")?, bad(2, LineKind::End));
    assert_eq!(rt;
        refused(alloc, "audit 1 0 65537 0\n")?,
        bad(1, LineKind::Count)
    );
    Ok(())
}

#[test]
fn names_of_users_have_at_most_4096_bytes(rt: HostRuntime) -> Result<(), Fail> {
    let alloc = rt.alloc();
    for (count, accepted) in [(4096, true), (4097, false)] {
        let mut text = String::from_str(alloc, "audit 1 1 0\nload 0 0 0 1 0 0 0 0\nuser 0 ")?;
        for _ in 0..count {
            text.push('n')?;
        }
        text.push_str(" 0\n")?;
        let expected = if accepted {
            None
        } else {
            bad(3, LineKind::Value)
        };
        assert_eq!(rt; refused(alloc, text.as_str())?, expected);
    }
    Ok(())
}

#[test]
fn objects_that_fail_are_told(rt: HostRuntime) -> Result<(), Fail> {
    let alloc = rt.alloc();
    let bytes = Vec::from_slice(alloc, SMALL.as_bytes())?;
    let failing = Vec::from_slice(alloc, &[3])?;
    let mut input = ByteSource::new(bytes, 10, failing);
    assert_eq!(rt;
        read(alloc, &mut input).err(),
        Some(AuditReadRefused::ReadFault)
    );
    assert_eq!(rt; input.faults(), 1);
    let mut input = source(alloc, SMALL, 4096)?;
    let history = read(alloc, &mut input).ok().ok_or("a history")?;
    let failing = Vec::from_slice(alloc, &[3])?;
    let mut output = ByteSink::new(alloc, 4096, 10, failing)?;
    let written = write(alloc, &history, &mut output);
    assert_eq!(rt; written.err(), Some(AuditWriteRefused::WriteFault));
    assert_eq!(rt; output.faults(), 1);
    assert_eq!(rt; output.bytes(), b"audit 1 1 2\nload 1 0".as_slice());
    Ok(())
}
