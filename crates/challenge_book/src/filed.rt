// A challenge as it is stored, and the texts that it is indexed by.
ghost use Rattle.std.specs.Prelude.{◌≡◌, IfOk, string_bytes};
ghost use Rattle.std.specs.Cow.{cow_slice_items};
ghost use Rattle.authority_model.specs.Cookies.{cookie_text};
ghost use Rattle.challenge_book.specs.Ready.{AreKeysOf};

use authority_model::{Cookie, Pending};
use pk_types::NoMemory;
use std::alloc::Global;
use std::borrow::CowSlice;

/// A text as a key of an index: owned in the index, borrowed in a look-up.
pub type TextKey<'a> = CowSlice<'a, u8, Global>;

/// A challenge with the text of its cookie, by which its index forgets it without memory.
#[derive(Drop)]
pub struct Filed {
    /// The challenge.
    pub row: Pending,
    /// The text of its cookie.
    pub cookie_text: String,
}

/// The texts that a challenge is indexed by, written before it is put in.
#[derive(Drop)]
pub struct RowKeys {
    /// The text of its cookie, to stand beside it.
    pub cookie_text: String,
    /// That text as a key.
    pub cookie: TextKey<'static>,
    /// Its cancellation id as a key; empty for none.
    pub cancel: TextKey<'static>,
}

/// A copy of a text as a key.
fn key_of(alloc: Global, bytes: &[u8]) -> Result<TextKey<'static>, NoMemory>
    ensures key { IfOk result (λ key. cow_slice_items key ≡ bytes.now) }
{
    Ok(CowSlice::Owned(bytes.to_vec(alloc)?))
}

/// The text of a cookie.
fn text_of(alloc: Global, cookie: Cookie) -> Result<String, NoMemory>
    ensures text { IfOk result (λ text. string_bytes text ≡ cookie_text cookie) }
{
    let mut text = String::new(alloc);
    cookie.push_text(&mut text)?;
    Ok(text)
}

impl RowKeys {
    /// The keys of a challenge.
    pub fn of(alloc: Global, row: &Pending) -> Result<RowKeys, NoMemory>
        ensures keys { IfOk result (AreKeysOf row.now) }
    {
        let cookie_text = text_of(alloc, row.cookie)?;
        let cookie = key_of(alloc, cookie_text.as_bytes())?;
        let cancel = key_of(alloc, row.cancel.bytes())?;
        Ok(RowKeys {
            cookie_text,
            cookie,
            cancel,
        })
    }
}
