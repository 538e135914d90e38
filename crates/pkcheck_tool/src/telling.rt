// What is written of a reply.
ghost use Rattle.std.specs.Prelude.{◌≡◌, ◌++◌, IfOk, OnOk};
ghost use Rattle.pkcheck_tool.specs.Replies.{lines_of, name_line, pair_line, pair_lines};

use crate::reply::Reply;
use pk_types::{ByteList, NoMemory, Pair, Text};
use std::alloc::Global;

/// Puts a detail at the end, as the line `KEY=VALUE`.
fn add_pair(text: &mut Vec<u8>, pair: &Pair) -> Result<(), NoMemory>
    ensures added { OnOk result (text.new.items ≡ text.old.items ++ pair_line pair.now) }
{
    text.extend_from_slice(pair.key.bytes())?;
    text.push(b'=')?;
    text.extend_from_slice(pair.value.bytes())?;
    text.push(b'\n')?;
    Ok(())
}

/// Each detail as a line.
fn pair_lines(alloc: Global, pairs: &[Pair]) -> Result<ByteList, NoMemory>
    ensures lines { IfOk result (λ text. text ≡ pair_lines pairs.now) }
{
    let mut text = Vec::new(alloc);
    for pair in pairs {
        add_pair(&mut text, pair)?;
    }
    Ok(ByteList::from_vec(text))
}

/// An error's name as a line.
fn name_line(alloc: Global, name: &Text) -> Result<ByteList, NoMemory>
    ensures line { IfOk result (λ text. text ≡ name_line name.now) }
{
    let mut text = Vec::new(alloc);
    text.extend_from_slice(name.bytes())?;
    text.push(b'\n')?;
    Ok(ByteList::from_vec(text))
}

/// The lines of a reply: its details, each as `KEY=VALUE`, or the error's name.
///
/// # Errors
/// `NoMemory` alone.
pub fn lines_of(alloc: Global, reply: &Reply) -> Result<ByteList, NoMemory>
    ensures lines { IfOk result (λ text. text ≡ lines_of reply.now) }
{
    match reply {
        Reply::Verdict { details, .. } => pair_lines(alloc, details.as_slice()),
        Reply::Error { name } => name_line(alloc, name),
    }
}
