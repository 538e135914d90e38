// The world of the four tables.
ghost use Rattle.std.specs.Prelude.{◌≡◌, Some};
ghost use Rattle.pk_types.specs.Text.{IsText};
ghost use Rattle.pk_outside.specs.Trees.{TreeTold};
ghost use Rattle.policy_load.specs.Causes.{LoadsAs, LoadCause, IsBadTable, refusal_of};
ghost use Rattle.policy_load.specs.Loads.{table, users_in, groups_in, sessions_in, processes_in, world_in};

use crate::order::{below, read_at};
use crate::refused::LoadRefused;
use authority_model::{GroupList, ProcessList, SessionList, UserList, World};
use pk_outside::{FileBytes, Tree, TreeRefused};
use pk_types::{ByteList, Text, TextFault};
use std::alloc::Global;
use table_files::{MAX_FILE, TableFault, read_group, read_passwd, read_processes, read_sessions};

/// Users.
const PASSWD: &[u8] = b"etc/passwd";

/// Groups.
const GROUP: &[u8] = b"etc/group";

/// Sessions.
const SESSIONS: &[u8] = b"tables/sessions";

/// Processes.
const PROCESSES: &[u8] = b"tables/processes";

/// The load's refusal for a refusal of the tree.
pub fn refused_by<T: Tree>(tree: &T, why: TreeRefused) -> LoadRefused
    ensures refused { result ≡ refusal_of (T.faults tree.now) why }
{
    match why {
        TreeRefused::Failed => LoadRefused::TreeFault {
            count: tree.faults(),
        },
        TreeRefused::NoMemory => LoadRefused::NoMemory,
    }
}

/// The refusal of a table for its fault.
fn bad_table(alloc: Global, name: &[u8], fault: TableFault) -> LoadRefused
    requires { IsText name.now }
    ensures refused { IsBadTable name.now fault result }
{
    if let TableFault::NoMemory = fault {
        return LoadRefused::NoMemory;
    }
    match Text::try_from_bytes(alloc, name) {
        Ok(file) => LoadRefused::BadTable { file, fault },
        Err(TextFault::NoMemory) => LoadRefused::NoMemory,
        Err(_) => unreachable!(),
    }
}

/// The bytes of the table at this path below the root; an absent table is empty.
fn table<T: Tree>(
    alloc: Global,
    tree: &mut T,
    root: &Text,
    name: &[u8],
) -> Result<ByteList, LoadRefused>
    requires { IsText name.now }
    ensures bytes { (told : TreeTold) → T.told tree.old ≡ Some told → LoadsAs (table told root.now name.now) result }
    ensures same { T.told tree.new ≡ T.told tree.old }
    ensures cause { LoadCause (T.faults tree.old) (T.faults tree.new) result }
{
    let path = below(alloc, root, name)?;
    match read_at(tree, &path, MAX_FILE as u64) {
        Ok(FileBytes::Bytes(bytes)) => Ok(bytes),
        Ok(FileBytes::Absent) => Ok(ByteList::new(alloc)),
        Ok(FileBytes::TooLong) => Err(bad_table(alloc, name, TableFault::TooLong)),
        Err(why) => Err(refused_by(tree, why)),
    }
}

/// The users.
fn users_in<T: Tree>(alloc: Global, tree: &mut T, root: &Text) -> Result<UserList, LoadRefused>
    ensures loads { (told : TreeTold) → T.told tree.old ≡ Some told → LoadsAs (users_in told root.now) result }
    ensures same { T.told tree.new ≡ T.told tree.old }
    ensures cause { LoadCause (T.faults tree.old) (T.faults tree.new) result }
{
    let bytes = table(alloc, tree, root, PASSWD)?;
    match read_passwd(alloc, bytes.as_slice()) {
        Ok(users) => Ok(users),
        Err(fault) => Err(bad_table(alloc, PASSWD, fault)),
    }
}

/// The groups, and the users with their memberships.
fn groups_in<T: Tree>(
    alloc: Global,
    tree: &mut T,
    root: &Text,
    users: UserList,
) -> Result<(GroupList, UserList), LoadRefused>
    ensures loads { (told : TreeTold) → T.told tree.old ≡ Some told → LoadsAs (groups_in told root.now users) result }
    ensures same { T.told tree.new ≡ T.told tree.old }
    ensures cause { LoadCause (T.faults tree.old) (T.faults tree.new) result }
{
    let bytes = table(alloc, tree, root, GROUP)?;
    let mut users = users;
    match read_group(alloc, bytes.as_slice(), &mut users) {
        Ok(groups) => Ok((groups, users)),
        Err(fault) => Err(bad_table(alloc, GROUP, fault)),
    }
}

/// The sessions.
fn sessions_in<T: Tree>(
    alloc: Global,
    tree: &mut T,
    root: &Text,
) -> Result<SessionList, LoadRefused>
    ensures loads { (told : TreeTold) → T.told tree.old ≡ Some told → LoadsAs (sessions_in told root.now) result }
    ensures same { T.told tree.new ≡ T.told tree.old }
    ensures cause { LoadCause (T.faults tree.old) (T.faults tree.new) result }
{
    let bytes = table(alloc, tree, root, SESSIONS)?;
    match read_sessions(alloc, bytes.as_slice()) {
        Ok(sessions) => Ok(sessions),
        Err(fault) => Err(bad_table(alloc, SESSIONS, fault)),
    }
}

/// The processes, where these sessions are listed.
fn processes_in<T: Tree>(
    alloc: Global,
    tree: &mut T,
    root: &Text,
    sessions: &SessionList,
) -> Result<ProcessList, LoadRefused>
    ensures loads { (told : TreeTold) → T.told tree.old ≡ Some told → LoadsAs (processes_in told root.now sessions.now) result }
    ensures same { T.told tree.new ≡ T.told tree.old }
    ensures cause { LoadCause (T.faults tree.old) (T.faults tree.new) result }
{
    let bytes = table(alloc, tree, root, PROCESSES)?;
    match read_processes(alloc, bytes.as_slice(), sessions) {
        Ok(processes) => Ok(processes),
        Err(fault) => Err(bad_table(alloc, PROCESSES, fault)),
    }
}

/// The world of the four tables, or the first of these faults.
pub fn world<T: Tree>(alloc: Global, tree: &mut T, root: &Text) -> Result<World, LoadRefused>
    ensures loads { (told : TreeTold) → T.told tree.old ≡ Some told → LoadsAs (world_in told root.now) result }
    ensures same { T.told tree.new ≡ T.told tree.old }
    ensures cause { LoadCause (T.faults tree.old) (T.faults tree.new) result }
{
    let users = users_in(alloc, tree, root)?;
    let (groups, users) = groups_in(alloc, tree, root, users)?;
    let sessions = sessions_in(alloc, tree, root)?;
    let processes = processes_in(alloc, tree, root, &sessions)?;
    Ok(World {
        users,
        groups,
        sessions,
        processes,
    })
}
