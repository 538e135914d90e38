// The lines of one item of a history.
ghost use Rattle.std.specs.Prelude.{◌≡◌, ◌++◌, OnOk};
ghost use Rattle.audit_text.specs.Audit.{load};
ghost use Rattle.audit_text.specs.Lines.{line, spell_items};
ghost use Rattle.audit_text.specs.Pieces.{item_text, load_text};

use crate::heads::LoadHead;
use crate::putting::put_line;
use audit_values::Spell;
use audit_words::LineBuffer;
use authority_model::{Item, Loaded};
use pk_types::NoMemory;

/// Adds the line of a value, which begins with this word.
fn push_line<T: Spell>(text: &mut Vec<u8>, word: &[u8], value: &T) -> Result<(), NoMemory>
    ensures line { OnOk result (text.new.items ≡ text.old.items ++ (line word.now T.codec).spell value.now) }
{
    let alloc = *text.allocator();
    let mut counter = LineBuffer::counter(alloc);
    put_line(&mut counter, word, value);
    let mut buffer = LineBuffer::with_room(alloc, counter.count())?;
    put_line(&mut buffer, word, value);
    text.extend_from_slice(buffer.bytes())?;
    Ok(())
}

/// Adds a line for each value.
fn push_lines<T: Spell>(text: &mut Vec<u8>, word: &[u8], values: &[T]) -> Result<(), NoMemory>
    ensures lines { OnOk result (text.new.items ≡ text.old.items ++ spell_items (line word.now T.codec) values.now) }
{
    for value in values {
        push_line(text, word, value)?;
    }
    Ok(())
}

/// Adds the lines of a load.
fn push_load(text: &mut Vec<u8>, loaded: &Loaded) -> Result<(), NoMemory>
    ensures load { OnOk result (text.new.items ≡ text.old.items ++ load.spell loaded.now) }
{
    push_line(text, b"load", &LoadHead::of(loaded))?;
    push_lines(text, b"action", loaded.policy.actions.as_slice())?;
    push_lines(text, b"rule", loaded.policy.entries.as_slice())?;
    push_lines(text, b"admin", loaded.policy.admins.as_slice())?;
    push_lines(text, b"user", loaded.world.users.as_slice())?;
    push_lines(text, b"group", loaded.world.groups.as_slice())?;
    push_lines(text, b"session", loaded.world.sessions.as_slice())?;
    push_lines(text, b"process", loaded.world.processes.as_slice())?;
    push_lines(text, b"fault", loaded.faults.as_slice())?;
    Ok(())
}

/// Adds the lines of a load, where there is one.
fn push_loaded(text: &mut Vec<u8>, loaded: &Option<Loaded>) -> Result<(), NoMemory>
    ensures load { OnOk result (text.new.items ≡ text.old.items ++ load_text loaded.now) }
{
    match loaded {
        Some(loaded) => push_load(text, loaded),
        None => Ok(()),
    }
}

/// Adds the lines of an item: those of its load, where it has one, and then that of its entry.
///
/// # Errors
/// `NoMemory` alone.
pub fn push_item(text: &mut Vec<u8>, item: &Item) -> Result<(), NoMemory>
    ensures item { OnOk result (text.new.items ≡ text.old.items ++ item_text item.now) }
{
    push_loaded(text, &item.loaded)?;
    push_line(text, b"entry", &item.entry)
}
