// How long the lines of an audit text are.
ghost use Rattle.std.specs.Prelude.{◌≤◌, All};
ghost use Rattle.std.specs.List.{flat_map};
ghost use Rattle.audit_text.specs.Lines.{line};
ghost use Rattle.audit_text.specs.Writes.{IsWithin, history_lines, item_lines, load_lines};

use crate::heads::{LoadHead, TextHead};
use crate::putting::put_line;
use audit_values::Spell;
use audit_words::LineBuffer;
use authority_model::{History, Loaded, LoadedList};
use pk_types::List;
use std::alloc::Global;

/// The length of the line of a value, or the length so far where that is greater.
fn longer<T: Spell>(counter: &mut LineBuffer, word: &[u8], value: &T, most: usize) -> usize
    ensures within { IsWithin result ((line word.now T.codec).spell value.now) }
    ensures more { most ≤ result }
{
    counter.clear();
    put_line(counter, word, value);
    most.max(counter.count())
}

/// The length of the longest line of these values, or the length so far where that is greater.
fn longest<T: Spell>(
    counter: &mut LineBuffer,
    word: &[u8],
    values: &List<T>,
    so_far: usize,
) -> usize
    ensures within { All (IsWithin result) (item_lines (line word.now T.codec) values.now) }
    ensures more { so_far ≤ result }
{
    let mut most = so_far;
    let items = values.as_slice();
    for value in items {
        most = longer(counter, word, value, most);
    }
    most
}

/// The length of the longest line of a load, or the length so far where that is greater.
fn longest_of_load(counter: &mut LineBuffer, load: &Loaded, so_far: usize) -> usize
    ensures within { All (IsWithin result) (load_lines load.now) }
    ensures more { so_far ≤ result }
{
    let head = longer(counter, b"load", &LoadHead::of(load), so_far);
    let actions = longest(counter, b"action", &load.policy.actions, head);
    let rules = longest(counter, b"rule", &load.policy.entries, actions);
    let admins = longest(counter, b"admin", &load.policy.admins, rules);
    let users = longest(counter, b"user", &load.world.users, admins);
    let groups = longest(counter, b"group", &load.world.groups, users);
    let sessions = longest(counter, b"session", &load.world.sessions, groups);
    let processes = longest(counter, b"process", &load.world.processes, sessions);
    longest(counter, b"fault", &load.faults, processes)
}

/// The length of the longest line of these loads, or the length so far where that is greater.
fn longest_of_loads(counter: &mut LineBuffer, loads: &LoadedList, so_far: usize) -> usize
    ensures within { All (IsWithin result) (flat_map load_lines loads.now) }
    ensures more { so_far ≤ result }
{
    let mut most = so_far;
    let items = loads.as_slice();
    for load in items {
        most = longest_of_load(counter, load, most);
    }
    most
}

/// The length of the longest line of an audit text. It takes no memory.
pub fn longest_line(alloc: Global, history: &History) -> usize
    ensures within { All (IsWithin result) (history_lines history.now) }
{
    let mut counter = LineBuffer::counter(alloc);
    let head = longer(&mut counter, b"audit", &TextHead::of(history), 0);
    let loads = longest_of_loads(&mut counter, &history.loads, head);
    longest(&mut counter, b"entry", &history.entries, loads)
}
