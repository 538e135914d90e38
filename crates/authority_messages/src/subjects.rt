// Subjects and identities: a kind, and a dictionary `a{sv}` of what it is known by.
ghost use Rattle.std.specs.Prelude.{◌≡◌, false, true, [], ◌∷◌, List, Some, map, codes, IsTrue, IfOk};
ghost use Rattle.dbus_values.specs.Trees.{Tree, type_of};
ghost use Rattle.dbus_values.specs.Signatures.{after_type, is_signature};
ghost use Rattle.authority_messages.specs.Plain.{is_plain};
ghost use Rattle.authority_messages.specs.Values.{string, uint32, uint64, keyed as keyed_tree, known_by as known_tree, subject as subject_tree, identity as identity_tree};
ghost use Rattle.authority_messages.specs.Built.{Builds, Items};

use crate::containers::{array, entry, structure, variant};
use crate::texts::plain;
use crate::values::{add, add_plain, no_values, string as string_value};
use authority_model::Key;
use dbus_values::{Value, ValueList};
use pk_types::{Identity, NoMemory, Text};
use std::alloc::Global;

/// An entry of a dictionary `a{sv}`: a key, and a value of a basic type.
fn keyed(alloc: Global, key: &str, value: Value) -> Result<Value, NoMemory>
    requires plain { IsTrue (is_plain key.now) }
    ensures entry { IfOk result (λ v. (t : Tree) → is_signature (type_of t) ≡ true → after_type (type_of t) ≡ Some [] → Builds false 0 value t → Builds true 2 v (keyed_tree key.now t)) }
{
    let text = plain(alloc, key)?;
    let key = string_value(alloc, &text)?;
    let value = variant(alloc, value)?;
    entry(alloc, key, value)
}

/// A kind, and what it is known by.
fn known_by(alloc: Global, kind: &str, entries: ValueList) -> Result<Value, NoMemory>
    requires plain { IsTrue (is_plain kind.now) }
    ensures value { IfOk result (λ v. (ts : List Tree) → Items 2 (codes "{sv}") entries ts → Builds false 4 v (known_tree kind.now ts)) }
{
    let dictionary = array(alloc, "{sv}", entries)?;
    let mut members = no_values(alloc);
    add_plain(alloc, &mut members, kind)?;
    add(&mut members, dictionary)?;
    Ok(structure(members))
}

/// A kind that is known by one entry.
pub fn known_by_one(alloc: Global, kind: &str, key: &str, value: Value) -> Result<Value, NoMemory>
    requires kind { IsTrue (is_plain kind.now) }
    requires key { IsTrue (is_plain key.now) }
    ensures value { IfOk result (λ v. (t : Tree) → is_signature (type_of t) ≡ true → after_type (type_of t) ≡ Some [] → Builds false 0 value t → Builds false 4 v (known_tree kind.now (keyed_tree key.now t ∷ []))) }
{
    let mut entries = ValueList::new(alloc);
    let entry = keyed(alloc, key, value)?;
    entries.try_push(entry)?;
    known_by(alloc, kind, entries)
}

/// A process, by its pid and its start time.
pub fn process(alloc: Global, pid: u32, start: u64) -> Result<Value, NoMemory>
    ensures value { IfOk result (λ v. Builds false 4 v (known_tree (codes "unix-process") (keyed_tree (codes "pid") (uint32 pid) ∷ keyed_tree (codes "start-time") (uint64 start) ∷ []))) }
{
    let mut entries = ValueList::new(alloc);
    let pid = keyed(alloc, "pid", Value::U32(pid))?;
    entries.try_push(pid)?;
    let start = keyed(alloc, "start-time", Value::U64(start))?;
    entries.try_push(start)?;
    known_by(alloc, "unix-process", entries)
}

/// A session, by its id.
pub fn session(alloc: Global, id: &Text) -> Result<Value, NoMemory>
    ensures value { IfOk result (λ v. Builds false 4 v (known_tree (codes "unix-session") (keyed_tree (codes "session-id") (string id.now) ∷ []))) }
{
    let id = string_value(alloc, id)?;
    known_by_one(alloc, "unix-session", "session-id", id)
}

/// The subject of a key (Subject in the reference manual).
pub fn subject(alloc: Global, key: &Key) -> Result<Value, NoMemory>
    ensures value { IfOk result (λ v. Builds false 4 v (subject_tree key.now)) }
{
    match key {
        Key::Process { pid, start, uid: _ } => process(alloc, *pid, *start),
        Key::Session { id, uid: _ } => session(alloc, id),
    }
}

/// A user, by its uid.
fn user(alloc: Global, uid: u32) -> Result<Value, NoMemory>
    ensures value { IfOk result (λ v. Builds false 4 v (known_tree (codes "unix-user") (keyed_tree (codes "uid") (uint32 uid) ∷ []))) }
{
    known_by_one(alloc, "unix-user", "uid", Value::U32(uid))
}

/// A group, by its gid.
fn group(alloc: Global, gid: u32) -> Result<Value, NoMemory>
    ensures value { IfOk result (λ v. Builds false 4 v (known_tree (codes "unix-group") (keyed_tree (codes "gid") (uint32 gid) ∷ []))) }
{
    known_by_one(alloc, "unix-group", "gid", Value::U32(gid))
}

/// A user or a group (Identity in the reference manual).
pub fn identity(alloc: Global, from: Identity) -> Result<Value, NoMemory>
    ensures value { IfOk result (λ v. Builds false 4 v (identity_tree from)) }
{
    match from {
        Identity::User(uid) => user(alloc, uid),
        Identity::Group(gid) => group(alloc, gid),
    }
}

/// Users and groups, in their order.
pub fn identity_items(alloc: Global, from: &[Identity]) -> Result<ValueList, NoMemory>
    ensures items { IfOk result (λ list. Items 4 (codes "(sa{sv})") list (map identity_tree from.now)) }
{
    let mut items = ValueList::new(alloc);
    for one in from {
        let item = identity(alloc, *one)?;
        items.try_push(item)?;
    }
    Ok(items)
}
