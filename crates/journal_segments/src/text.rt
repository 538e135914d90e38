// The text of a segment.
ghost use Rattle.std.specs.Prelude.{◌≡◌, ◌++◌, IfOk, OnOk};
ghost use Rattle.audit_words.specs.Buffers.{put};
ghost use Rattle.journal_segments.specs.Text.{close_line, head_line, items_text, segment_with};

use audit_text::push_item;
use audit_words::{LineBuffer, put_number};
use authority_desk::DeskCounts;
use authority_model::Item;
use pk_types::NoMemory;
use std::alloc::Global;

/// Puts the first line: the number of the segment, the place of its first entry, and how many it has.
#[tactic(auto, using(audit_words::proofs::Putting::put_rules))]
fn put_head(line: &mut LineBuffer, number: u64, first: u64, count: u64)
    ensures line { line.new ≡ put line.old (head_line number first count) }
{
    line.put(b"segment");
    put_number(line, number);
    put_number(line, first);
    put_number(line, count);
    line.put(b"\n");
}

/// Adds the first line.
fn push_head(text: &mut Vec<u8>, number: u64, first: u64, count: u64) -> Result<(), NoMemory>
    ensures line { OnOk result (text.new.items ≡ text.old.items ++ head_line number first count) }
{
    let alloc = *text.allocator();
    let mut counter = LineBuffer::counter(alloc);
    put_head(&mut counter, number, first, count);
    let mut buffer = LineBuffer::with_room(alloc, counter.count())?;
    put_head(&mut buffer, number, first, count);
    text.extend_from_slice(buffer.bytes())?;
    Ok(())
}

/// Adds the lines of items, the oldest first.
fn push_items(text: &mut Vec<u8>, items: &[Item]) -> Result<(), NoMemory>
    ensures lines { OnOk result (text.new.items ≡ text.old.items ++ items_text items.now) }
{
    for item in items {
        push_item(text, item)?;
    }
    Ok(())
}

/// Puts the last line: how many of each kind there are.
#[tactic(auto, using(audit_words::proofs::Putting::put_rules))]
fn put_close(line: &mut LineBuffer, counts: DeskCounts)
    ensures line { line.new ≡ put line.old (close_line counts) }
{
    line.put(b"close");
    put_number(line, u64::from(counts.live));
    put_number(line, u64::from(counts.agents));
    put_number(line, u64::from(counts.pending));
    put_number(line, u64::from(counts.grants));
    line.put(b"\n");
}

/// Adds the last line.
fn push_close(text: &mut Vec<u8>, counts: DeskCounts) -> Result<(), NoMemory>
    ensures line { OnOk result (text.new.items ≡ text.old.items ++ close_line counts) }
{
    let alloc = *text.allocator();
    let mut counter = LineBuffer::counter(alloc);
    put_close(&mut counter, counts);
    let mut buffer = LineBuffer::with_room(alloc, counter.count())?;
    put_close(&mut buffer, counts);
    text.extend_from_slice(buffer.bytes())?;
    Ok(())
}

/// The text of a segment of these items, the oldest first, where so many entries stand before it and so
/// much is there after it.
pub fn text_of(
    alloc: Global,
    number: u64,
    first: u64,
    items: &[Item],
    counts: DeskCounts,
) -> Result<Vec<u8>, NoMemory>
    ensures text { IfOk result (λ text. text.items ≡ segment_with number first items.now counts) }
{
    let mut text = Vec::new(alloc);
    push_head(&mut text, number, first, items.len() as u64)?;
    push_items(&mut text, items)?;
    push_close(&mut text, counts)?;
    Ok(text)
}
