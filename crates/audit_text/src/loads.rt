// Values and loads, line by line.
ghost use Rattle.audit_text.specs.Audit.{load};
ghost use Rattle.audit_text.specs.Lines.{line, take_items};
ghost use Rattle.audit_text.specs.Takes.{stand, Takes};

use crate::fault::Stop;
use crate::heads::LoadHead;
use crate::lines::Lines;
use audit_values::Spell;
use authority_model::{Loaded, LoadedList, Policy, World};
use pk_outside::Source;
use pk_types::List;

/// The values of as many lines as are told, each of which begins with this word. Nothing is reserved by their
/// number, which was read.
pub fn next_items<T: Spell, I: Source>(
    lines: &mut Lines,
    input: &mut I,
    word: &[u8],
    count: u64,
) -> Result<List<T>, Stop>
    ensures taken { Takes (stand lines.old.number lines.old.buffer (I.left input.old) (I.faults input.old) (I.ended input.old))
        (stand lines.new.number lines.new.buffer (I.left input.new) (I.faults input.new) (I.ended input.new)) result
        (take_items (line word.now T.codec) count) }
{
    let mut items = List::new(lines.alloc);
    for _ in 0..count {
        let item = lines.item(input, word)?;
        items.try_push(item)?;
    }
    Ok(items)
}

/// The next load: its eight lengths, and then a line for each item.
fn next_load<I: Source>(lines: &mut Lines, input: &mut I) -> Result<Loaded, Stop>
    ensures taken { Takes (stand lines.old.number lines.old.buffer (I.left input.old) (I.faults input.old) (I.ended input.old))
        (stand lines.new.number lines.new.buffer (I.left input.new) (I.faults input.new) (I.ended input.new)) result
        load.take }
{
    let head: LoadHead = lines.item(input, b"load")?;
    let actions = next_items(lines, input, b"action", head.actions)?;
    let entries = next_items(lines, input, b"rule", head.rules)?;
    let admins = next_items(lines, input, b"admin", head.admins)?;
    let users = next_items(lines, input, b"user", head.users)?;
    let groups = next_items(lines, input, b"group", head.groups)?;
    let sessions = next_items(lines, input, b"session", head.sessions)?;
    let processes = next_items(lines, input, b"process", head.processes)?;
    let faults = next_items(lines, input, b"fault", head.faults)?;
    Ok(Loaded {
        policy: Policy {
            actions,
            entries,
            admins,
        },
        world: World {
            users,
            groups,
            sessions,
            processes,
        },
        faults,
    })
}

/// As many loads as are told.
pub fn next_loads<I: Source>(
    lines: &mut Lines,
    input: &mut I,
    count: u64,
) -> Result<LoadedList, Stop>
    ensures taken { Takes (stand lines.old.number lines.old.buffer (I.left input.old) (I.faults input.old) (I.ended input.old))
        (stand lines.new.number lines.new.buffer (I.left input.new) (I.faults input.new) (I.ended input.new)) result
        (take_items load count) }
{
    let mut loads = List::new(lines.alloc);
    for _ in 0..count {
        let load = next_load(lines, input)?;
        loads.try_push(load)?;
    }
    Ok(loads)
}
