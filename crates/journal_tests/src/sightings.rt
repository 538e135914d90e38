// A journal in which the sighter of a connection takes a process out of the last load, and what other
// loads, lines and moments make of it.
use authority_model::{
    Entry, EntryList, Event, FileFault, Group, History, Loaded, LoadedList, Process, ProcessList,
    Session, User,
};
use journal_scan::{ConnectionLine, Totals, scan_journal};
use pk_types::{List, NoMemory};
use std::alloc::Global;
use std::test::Fail;
use test_values::{one, text};

/// A row of a process: its pid, its start and its user.
type Row = (u32, u64, u32);

/// The processes of the first load. The process 7 with start 100 has two rows.
const ROWS: [Row; 4] = [(7, 100, 1000), (7, 200, 1000), (7, 100, 0), (8, 100, 1000)];

/// Those of the second load: without the process 7 with start 100.
const WITHOUT: [Row; 2] = [(7, 200, 1000), (8, 100, 1000)];

/// Who enters the second load, and at which moment.
#[derive(Clone, Copy)]
struct Sighter {
    caller: u32,
    moment: u64,
}

const SIGHTER: Sighter = Sighter {
    caller: 3,
    moment: 5,
};

const LINE: ConnectionLine = ConnectionLine {
    number: 1,
    uid: 1000,
    sighter: Some(3),
};

fn processes(alloc: Global, rows: &[Row]) -> Result<ProcessList, NoMemory> {
    let mut processes = List::new(alloc);
    for (pid, start, uid) in rows {
        processes.try_push(Process {
            pid: *pid,
            start: *start,
            uid: *uid,
            session: Some(text(alloc, "c1")?),
        })?;
    }
    Ok(processes)
}

fn user(alloc: Global, gids: &[u32]) -> Result<User, NoMemory> {
    let name = text(alloc, "a")?;
    let label = text(alloc, "unix-user:a")?;
    let gids = List::try_from_slice(alloc, gids)?;
    Ok(User {
        uid: 1000,
        name,
        label,
        gids,
    })
}

fn group(alloc: Global, gid: u32) -> Result<Group, NoMemory> {
    let name = text(alloc, "w")?;
    let label = text(alloc, "unix-group:w")?;
    Ok(Group { gid, name, label })
}

fn session(alloc: Global, active: bool) -> Result<Session, NoMemory> {
    let id = text(alloc, "c1")?;
    Ok(Session {
        id,
        uid: 1000,
        local: true,
        active,
    })
}

fn fault(alloc: Global) -> Result<FileFault, NoMemory> {
    let file = text(alloc, "/etc/a.policy")?;
    let kind = text(alloc, "Spacing")?;
    Ok(FileFault { file, kind, at: 4 })
}

/// A load of these processes, with one row of each other kind and without faults.
fn load(alloc: Global, rows: &[Row]) -> Result<Loaded, NoMemory> {
    let mut load = Loaded::empty(alloc);
    load.policy.admins = one(alloc, text(alloc, "unix-group:w")?)?;
    load.world.users = one(alloc, user(alloc, &[100, 10])?)?;
    load.world.groups = one(alloc, group(alloc, 10)?)?;
    load.world.sessions = one(alloc, session(alloc, true)?)?;
    load.world.processes = processes(alloc, rows)?;
    Ok(load)
}

/// The first load, in which something was skipped.
fn first_load(alloc: Global) -> Result<Loaded, NoMemory> {
    let mut load = load(alloc, &ROWS)?;
    load.faults = one(alloc, fault(alloc)?)?;
    Ok(load)
}

/// The loader's first load, the Connect of connection 1 at moment 5, and this entry.
fn entries(alloc: Global, sighter: Sighter, event: Event) -> Result<EntryList, NoMemory> {
    let mut entries = List::new(alloc);
    let begins = [
        (0, 0, Event::Load { load: 1 }),
        (1, 5, Event::Connect { uid: 1000 }),
        (sighter.caller, sighter.moment, event),
    ];
    for (caller, moment, event) in begins {
        entries.try_push(Entry {
            caller,
            moment,
            salt: 0,
            event,
            outputs: List::new(alloc),
        })?;
    }
    Ok(entries)
}

/// What is counted of a journal with this second load, and nothing where it is not in order.
fn totals(
    alloc: Global,
    second: Loaded,
    sighter: Sighter,
    lines: &[ConnectionLine],
) -> Result<Option<Totals>, NoMemory> {
    let mut loads: LoadedList = List::new(alloc);
    loads.try_push(first_load(alloc)?)?;
    loads.try_push(second)?;
    let entries = entries(alloc, sighter, Event::Load { load: 2 })?;
    let history = History { entries, loads };
    let found = scan_journal(alloc, &history, lines)?;
    Ok(found.map(|counts| counts.totals))
}

/// Whether the journal with this second load is in order.
fn is_orderly(alloc: Global, second: Loaded) -> Result<bool, NoMemory> {
    Ok(totals(alloc, second, SIGHTER, &[LINE])?.is_some())
}

#[test]
fn counts_a_sighting(rt: HostRuntime) -> Result<(), Fail> {
    let wanted = Totals {
        entries: 3,
        loads: 2,
        unlisted: 1,
        refused: 0,
        wanted: 0,
    };
    let second = load(rt.alloc(), &WITHOUT)?;
    let found = totals(rt.alloc(), second, SIGHTER, &[LINE])?;
    assert_eq!(rt; found, Some(wanted));
    Ok(())
}

/// The processes of a second load, and whether it is a sighting.
const LOADS: [(&str, &[Row], bool); 10] = [
    ("the process with both rows", &WITHOUT, true),
    (
        "another process",
        &[(7, 100, 1000), (7, 100, 0), (8, 100, 1000)],
        true,
    ),
    (
        "the last row",
        &[(7, 100, 1000), (7, 200, 1000), (7, 100, 0)],
        true,
    ),
    ("no process", &ROWS, false),
    (
        "one row of two",
        &[(7, 200, 1000), (7, 100, 0), (8, 100, 1000)],
        false,
    ),
    ("each process with the pid", &[(8, 100, 1000)], false),
    ("two processes", &[(7, 200, 1000)], false),
    ("the order too", &[(8, 100, 1000), (7, 200, 1000)], false),
    (
        "the user of a row too",
        &[(7, 200, 1000), (8, 100, 1001)],
        false,
    ),
    (
        "a row that was not there",
        &[(7, 200, 1000), (8, 100, 1000), (9, 1, 0)],
        false,
    ),
];

#[test]
fn finds_which_processes_a_load_lacks(rt: HostRuntime) -> Result<(), Fail> {
    for (caption, rows, orderly) in &LOADS {
        let second = load(rt.alloc(), *rows)?;
        let found = is_orderly(rt.alloc(), second)?;
        assert_eq!(rt; found, *orderly, "{caption}");
    }
    Ok(())
}

/// What a second load has beside the processes of a sighting.
#[derive(Clone, Copy)]
enum Change {
    Nothing,
    Faults,
    Admins,
    Users,
    Groups,
    Sessions,
}

/// The load of a sighting with this change.
fn changed(alloc: Global, change: Change) -> Result<Loaded, NoMemory> {
    let mut load = load(alloc, &WITHOUT)?;
    match change {
        Change::Nothing => {}
        Change::Faults => load.faults = one(alloc, fault(alloc)?)?,
        Change::Admins => load.policy.admins = one(alloc, text(alloc, "unix-group:v")?)?,
        Change::Users => load.world.users = one(alloc, user(alloc, &[100])?)?,
        Change::Groups => load.world.groups = one(alloc, group(alloc, 11)?)?,
        Change::Sessions => load.world.sessions = one(alloc, session(alloc, false)?)?,
    }
    Ok(load)
}

const CHANGES: [(&str, Change, bool); 6] = [
    ("nothing", Change::Nothing, true),
    ("faults that stay", Change::Faults, false),
    ("another administrator", Change::Admins, false),
    ("another group of a user", Change::Users, false),
    ("another group", Change::Groups, false),
    ("another session", Change::Sessions, false),
];

#[test]
fn finds_what_else_a_load_changes(rt: HostRuntime) -> Result<(), Fail> {
    for (caption, change, orderly) in &CHANGES {
        let second = changed(rt.alloc(), *change)?;
        let found = is_orderly(rt.alloc(), second)?;
        assert_eq!(rt; found, *orderly, "{caption}");
    }
    Ok(())
}

/// Whether the journal with the load of a sighting is in order.
fn fits(alloc: Global, sighter: Sighter, lines: &[ConnectionLine]) -> Result<bool, NoMemory> {
    let second = load(alloc, &WITHOUT)?;
    Ok(totals(alloc, second, sighter, lines)?.is_some())
}

/// Who enters the load of a sighting and when, and whether that is in order.
const WHO: [(&str, u32, u64, bool); 5] = [
    ("the sighter of the line", 3, 5, true),
    ("a moment of its own", 3, 6, false),
    ("a caller that is no sighter", 4, 5, false),
    ("the connection itself", 1, 5, false),
    ("the loader, which nothing asked", 0, 5, false),
];

#[test]
fn finds_who_enters_a_load(rt: HostRuntime) -> Result<(), Fail> {
    for (caption, caller, moment, orderly) in &WHO {
        let sighter = Sighter {
            caller: *caller,
            moment: *moment,
        };
        let found = fits(rt.alloc(), sighter, &[LINE])?;
        assert_eq!(rt; found, *orderly, "{caption}");
    }
    Ok(())
}

/// The number of a connection, and that of its sighter.
type Numbers = (u32, Option<u32>);

fn line(numbers: Numbers) -> ConnectionLine {
    ConnectionLine {
        number: numbers.0,
        uid: 1000,
        sighter: numbers.1,
    }
}

/// Two lines, and whether the load of sighter 3 is in order with them.
const LINES: [(&str, Numbers, Numbers, bool); 7] = [
    ("two sighters", (1, Some(3)), (2, Some(4)), true),
    ("no sighter", (1, None), (2, None), false),
    (
        "the number of its connection",
        (1, Some(3)),
        (2, Some(2)),
        false,
    ),
    ("a sighter of both", (1, Some(3)), (2, Some(3)), false),
    ("the number of a later line", (1, Some(3)), (3, None), false),
    (
        "the number of a line before",
        (3, None),
        (1, Some(3)),
        false,
    ),
    (
        "the number of the loader",
        (1, Some(3)),
        (2, Some(0)),
        false,
    ),
];

#[test]
fn finds_sighters_that_do_not_fit(rt: HostRuntime) -> Result<(), Fail> {
    for (caption, first, second, orderly) in &LINES {
        let lines = [line(*first), line(*second)];
        let found = fits(rt.alloc(), SIGHTER, &lines)?;
        assert_eq!(rt; found, *orderly, "{caption}");
    }
    Ok(())
}

#[test]
fn a_sighter_does_nothing_else(rt: HostRuntime) -> Result<(), Fail> {
    let alloc = rt.alloc();
    let entries = entries(alloc, SIGHTER, Event::Collect { of: 1 })?;
    let loads = one(alloc, first_load(alloc)?)?;
    let history = History { entries, loads };
    assert!(rt;
        scan_journal(alloc, &history, &[LINE])?.is_none(),
        "a Collect"
    );
    Ok(())
}

#[test]
fn a_load_without_a_value_is_no_sighting(rt: HostRuntime) -> Result<(), Fail> {
    let alloc = rt.alloc();
    let entries = entries(alloc, SIGHTER, Event::Load { load: 2 })?;
    let loads = one(alloc, first_load(alloc)?)?;
    let history = History { entries, loads };
    assert!(rt; scan_journal(alloc, &history, &[LINE])?.is_none());
    Ok(())
}
