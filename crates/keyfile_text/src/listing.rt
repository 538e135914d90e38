// The items of a list value.
ghost use Rattle.std.specs.Prelude.{◌≡◌, ◌≤◌, ◌<◌, ◌∷◌, [], ◌++◌, ℕ, length, IfNone, IfOk, IfSome, OnOk};
ghost use Rattle.keyfile_text.specs.Bytes.{IsClean};
ghost use Rattle.keyfile_text.specs.Items.{kept, items_of};
ghost use Rattle.keyfile_text.specs.Runs.{IsPlain, IsSpecial, TakesEscape};

use crate::escape::unescaped;
use crate::slices::trimmed;
use pk_types::{NoMemory, Text, TextList};
use std::alloc::Global;

/// The bytes before the first `\` or `;`, that byte, and the bytes behind it.
fn next_special(bytes: &[u8]) -> Option<(&[u8], u8, &[u8])>
    ensures found { IfSome result (λ (front, special, behind). (bytes.now ≡ front.now ++ special ∷ behind.now)
        × IsPlain front.now × IsSpecial special) }
    ensures none { IfNone result (IsPlain bytes.now) }
{
    for (i, b) in bytes.iter().enumerate() {
        if *b == b'\\' || *b == b';' {
            let (front, _) = bytes.split_at(i);
            let (_, behind) = bytes.split_at(i + 1);
            return Some((front, *b, behind));
        }
    }
    None
}

/// Takes an item that has ended, unless it is empty without blanks at its ends.
fn push_item(alloc: Global, items: &mut TextList, item: &[u8]) -> Result<(), NoMemory>
    requires clean { IsClean item.now }
    requires short { length item.now ≤ 65535 }
    ensures ok { OnOk result (items.new ≡ items.old ++ kept (item.now ∷ [])) }
{
    let item = trimmed(item);
    if !item.is_empty() {
        let item = Text::of_known(alloc, item)?;
        items.try_push(item)?;
    }
    Ok(())
}

/// Takes what stands behind a `\`, and answers the rest.
fn take_escape<'a>(item: &mut Vec<u8>, behind: &'a [u8]) -> Result<&'a [u8], NoMemory>
    ensures takes { IfOk result
        (λ rest. TakesEscape behind.now rest.now item.old.items item.new.items) }
{
    let Some((first, later)) = behind.split_first() else {
        item.push(b'\\')?;
        return Ok(behind);
    };
    let Some(stands_for) = unescaped(*first) else {
        item.push(b'\\')?;
        return Ok(behind);
    };
    item.push(stands_for)?;
    Ok(later)
}

/// The items of a list value, as those of `Identity` and `Action` of a `.pkla` file.
///
/// The value is split at each `;` that is no part of an escape, and then the escapes `\s`, `\n`,
/// `\t`, `\r`, `\\` and `\;` are decoded; a `\` that begins no escape stands for itself. Blanks at
/// both ends of an item are no part of it, and empty items are left out.
pub fn items(alloc: Global, value: &Text) -> Result<TextList, NoMemory>
    ensures items { IfOk result (λ items. items ≡ items_of value.now) }
{
    let mut items = TextList::new(alloc);
    let mut item = Vec::new(alloc);
    let mut rest = value.bytes();
    while let Some((plain, special, behind)) = next_special(rest) {
        item.extend_from_slice(plain)?;
        if special == b';' {
            push_item(alloc, &mut items, item.as_slice())?;
            item.clear();
            rest = behind;
        } else {
            rest = take_escape(&mut item, behind)?;
        }
    }
    item.extend_from_slice(rest)?;
    push_item(alloc, &mut items, item.as_slice())?;
    Ok(items)
}
