// Copies with ample memory, and what flags, events and offers are.
use authority_model::{
    ALLOW_USER_INTERACTION, Action, Event, FileFault, Group, Loaded, Localized, Process, RuleEntry,
    Session, User, allows_interaction, offers,
};
use pk_types::{Identity, Implicit, List, NoMemory, TextList, TryCopy};
use std::alloc::Global;
use std::test::Fail;
use test_values::{action_id, one, text};

fn texts(alloc: Global, bytes: &str) -> Result<TextList, NoMemory> {
    one(alloc, text(alloc, bytes)?)
}

fn localized_text(alloc: Global, lang: &str, words: &str) -> Result<Localized, NoMemory> {
    let lang = text(alloc, lang)?;
    let text = text(alloc, words)?;
    Ok(Localized { lang, text })
}

/// An action without texts of its own.
fn plain(alloc: Global) -> Result<Action, NoMemory> {
    let id = action_id(alloc, "a.yes")?;
    Ok(Action::plain(alloc, id, Implicit::Yes, Implicit::No, Implicit::AuthSelf))
}

fn action(alloc: Global) -> Result<Action, NoMemory> {
    let descriptions = one(alloc, localized_text(alloc, "de", "Uhr stellen")?)?;
    let vendor = text(alloc, "v")?;
    let icon = text(alloc, "i")?;
    let mut action = plain(alloc)?;
    action.descriptions = descriptions;
    action.vendor = vendor;
    action.icon = icon;
    Ok(action)
}

fn rule(alloc: Global) -> Result<RuleEntry, NoMemory> {
    let identities = texts(alloc, "unix-user:a")?;
    let actions = texts(alloc, "a.*")?;
    Ok(RuleEntry {
        identities,
        actions,
        any: None,
        inactive: None,
        active: Some(Implicit::Yes),
        pairs: List::new(alloc),
    })
}

fn load(alloc: Global) -> Result<Loaded, NoMemory> {
    let actions = one(alloc, action(alloc)?)?;
    let entries = one(alloc, rule(alloc)?)?;
    let admins = texts(alloc, "unix-group:wheel")?;
    let mut load = Loaded::empty(alloc);
    load.policy.actions = actions;
    load.policy.entries = entries;
    load.policy.admins = admins;
    Ok(load)
}

fn alice(alloc: Global) -> Result<User, NoMemory> {
    let name = text(alloc, "a")?;
    let label = text(alloc, "unix-user:a")?;
    let gids = List::try_from_slice(alloc, &[100, 10])?;
    Ok(User {
        uid: 1000,
        name,
        label,
        gids,
    })
}

fn group(alloc: Global) -> Result<Group, NoMemory> {
    let name = text(alloc, "w")?;
    let label = text(alloc, "unix-group:w")?;
    Ok(Group {
        gid: 10,
        name,
        label,
    })
}

fn session(alloc: Global) -> Result<Session, NoMemory> {
    Ok(Session {
        id: text(alloc, "s1")?,
        uid: 1000,
        local: true,
        active: false,
    })
}

fn process(alloc: Global) -> Result<Process, NoMemory> {
    Ok(Process {
        pid: 50,
        start: 7,
        uid: 1000,
        session: Some(text(alloc, "s1")?),
    })
}

fn fault(alloc: Global) -> Result<FileFault, NoMemory> {
    let file = text(alloc, "/f")?;
    let kind = text(alloc, "TooLong")?;
    Ok(FileFault { file, kind, at: 3 })
}

/// How many groups a copy of a user has.
fn copied_gids(alloc: Global) -> Result<usize, NoMemory> {
    let copy = alice(alloc)?.try_copy()?;
    Ok(copy.gids.len())
}

/// Whether a copy of a group has its label.
fn group_is_copied(alloc: Global) -> Result<bool, NoMemory> {
    let copy = group(alloc)?.try_copy()?;
    Ok(copy.label.bytes() == b"unix-group:w".as_slice())
}

/// Whether a copy of a session has its id.
fn session_is_copied(alloc: Global) -> Result<bool, NoMemory> {
    let copy = session(alloc)?.try_copy()?;
    Ok(copy.id.bytes() == b"s1".as_slice())
}

/// Whether a copy of a process has a session.
fn process_is_copied(alloc: Global) -> Result<bool, NoMemory> {
    let copy = process(alloc)?.try_copy()?;
    Ok(copy.session.is_some())
}

/// The place of a copy of a fault.
fn copied_place(alloc: Global) -> Result<u64, NoMemory> {
    let copy = fault(alloc)?.try_copy()?;
    Ok(copy.at)
}

#[test]
fn rows_are_copied(rt: HostRuntime) -> Result<(), Fail> {
    let alloc = rt.alloc();
    assert_eq!(rt; copied_gids(alloc)?, 2);
    assert!(rt; group_is_copied(alloc)?);
    assert!(rt; session_is_copied(alloc)?);
    assert!(rt; process_is_copied(alloc)?);
    assert_eq!(rt; copied_place(alloc)?, 3);
    Ok(())
}

/// How many actions, rules, names of administrators and processes a load has.
fn sizes(load: &Loaded) -> [usize; 4] {
    [
        load.policy.actions.len(),
        load.policy.entries.len(),
        load.policy.admins.len(),
        load.world.processes.len(),
    ]
}

/// The sizes of a copy of a load.
fn copied_sizes(alloc: Global) -> Result<[usize; 4], NoMemory> {
    let copy = load(alloc)?.try_copy()?;
    Ok(sizes(&copy))
}

#[test]
fn loads_are_copied(rt: HostRuntime) -> Result<(), Fail> {
    assert_eq!(rt; copied_sizes(rt.alloc())?, [1, 1, 1, 0]);
    Ok(())
}

#[test]
fn flags_and_events_are_told_apart(rt: HostRuntime) {
    assert!(rt; allows_interaction(ALLOW_USER_INTERACTION) && allows_interaction(7));
    assert!(rt; !allows_interaction(0) && !allows_interaction(6));
    assert!(rt; Event::Stop.is_stepped() && Event::Connect { uid: 0 }.is_stepped());
    assert!(rt; !Event::Load { load: 1 }.is_stepped() && !Event::Collect { of: 1 }.is_stepped());
    let offered = [Identity::User(5), Identity::Group(6)];
    assert!(rt; offers(&offered, Identity::Group(6)) && !offers(&offered, Identity::User(6)));
}
