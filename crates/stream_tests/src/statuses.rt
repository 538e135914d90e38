// The texts of the statuses that no program can be brought to easily; the exit code of each is proved
// by a clause.
use pk_types::NoMemory;
use polkit_daemon::Status;
use std::alloc::Global;
use std::test::Fail;

/// A status, and the text of it.
const STATUSES: [(Status, &str); 3] = [
    (Status::TreeFault { count: 3 }, "TreeFault 3"),
    (
        Status::Admissions { admitted: 1048576 },
        "Admissions 1048576",
    ),
    (Status::NoMemory, "NoMemory"),
];

/// Whether a status has this text.
fn is_told(alloc: Global, status: &Status, text: &str) -> Result<bool, NoMemory> {
    let told = format!(in alloc; "{status}")?;
    Ok(told.as_str() == text)
}

#[test]
fn statuses_are_told(rt: HostRuntime) -> Result<(), Fail> {
    for (status, text) in &STATUSES {
        assert!(rt; is_told(rt.alloc(), status, text)?, "{text}");
    }
    Ok(())
}
