// Values that words spell.
ghost use Rattle.std.specs.Prelude.{◌≡◌, ◌∷◌, length};
ghost use Rattle.audit_words.specs.Buffers.{put};
ghost use Rattle.audit_words.specs.Codecs.{Codec, Numeral, number, boolean, option, list, take_items, spell_items};
ghost use Rattle.audit_words.specs.Escapes.{text, action_id};
ghost use Rattle.audit_words.specs.Lines.{written};
ghost use Rattle.audit_words.specs.Reads.{Gives};
ghost use Rattle.audit_words.specs.Salts.{salt, cookie};

use audit_words::{
    Kind, LineBuffer, Stop, Words, put_boolean, put_cookie, put_number, put_plain, put_salt,
    put_text,
};
use authority_model::Cookie;
use pk_types::{ActionId, List, Text};

/// A value that words spell.
pub trait Spell: Drop + Sized {
    /// Which words they are.
    ghost codec: { Codec Self };

    /// Puts the words of the value behind the others, each behind a space. It takes no memory.
    fn put_words(&self, line: &mut LineBuffer)
        ensures words { line.new ≡ put line.old (written (codec.spell self.now)) };

    /// Takes a value from the front of the words.
    ///
    /// # Errors
    /// `Fault` with the kind of the first word that is not in place, or `Memory`.
    fn take_from(words: &mut Words) -> Result<Self, Stop>
        ensures taken { Gives result words.new (codec.take words.old) };
}

impl Spell for u32 {
    ghost codec = { number 32 };

    fn put_words(&self, line: &mut LineBuffer) {
        put_number(line, u64::from(*self));
    }

    fn take_from(words: &mut Words) -> Result<u32, Stop> {
        words.u32()
    }
}

impl Spell for u64 {
    ghost codec = { number 64 };

    fn put_words(&self, line: &mut LineBuffer) {
        put_number(line, *self);
    }

    fn take_from(words: &mut Words) -> Result<u64, Stop> {
        words.u64()
    }
}

impl Spell for u128 {
    ghost codec = { salt };

    fn put_words(&self, line: &mut LineBuffer) {
        put_salt(line, *self);
    }

    fn take_from(words: &mut Words) -> Result<u128, Stop> {
        words.salt()
    }
}

impl Spell for bool {
    ghost codec = { boolean };

    fn put_words(&self, line: &mut LineBuffer) {
        put_boolean(line, *self);
    }

    fn take_from(words: &mut Words) -> Result<bool, Stop> {
        words.boolean()
    }
}

impl Spell for Text {
    ghost codec = { text };

    fn put_words(&self, line: &mut LineBuffer) {
        put_text(line, self);
    }

    fn take_from(words: &mut Words) -> Result<Text, Stop> {
        words.text()
    }
}

impl Spell for ActionId {
    ghost codec = { action_id };

    fn put_words(&self, line: &mut LineBuffer) {
        put_text(line, self.text());
    }

    fn take_from(words: &mut Words) -> Result<ActionId, Stop> {
        words.action_id()
    }
}

impl Spell for Cookie {
    ghost codec = { cookie };

    fn put_words(&self, line: &mut LineBuffer) {
        put_cookie(line, *self);
    }

    fn take_from(words: &mut Words) -> Result<Cookie, Stop> {
        words.cookie()
    }
}

impl<T: Spell> Spell for Option<T> {
    ghost codec = { option T.codec };

    #[tactic(auto, using(audit_words::proofs::Putting::put_rules))]
    fn put_words(&self, line: &mut LineBuffer) {
        match self {
            None => put_plain(line, b"-"),
            Some(value) => {
                put_plain(line, b"+");
                value.put_words(line);
            }
        }
    }

    fn take_from(words: &mut Words) -> Result<Option<T>, Stop> {
        let sign = words.name()?;
        if sign == b"-".as_slice() {
            Ok(None)
        } else if sign == b"+".as_slice() {
            let value = T::take_from(words)?;
            Ok(Some(value))
        } else {
            Err(Stop::Fault(Kind::Value))
        }
    }
}

/// As many items as are asked for, one after the other.
fn take_all<T: Spell>(words: &mut Words, count: u32) -> Result<List<T>, Stop>
    ensures taken { Gives result words.new (take_items T.codec count words.old) }
{
    let mut items = List::new(words.allocator());
    for _ in 0..count {
        let item = T::take_from(words)?;
        items.try_push(item)?;
    }
    Ok(items)
}

/// Puts the number of items, and then the words of each of them.
fn put_all<T: Spell>(line: &mut LineBuffer, items: &[T])
    ensures words { line.new ≡ put line.old (written (Numeral (length items.now) ∷ spell_items T.codec items.now)) }
{
    put_number(line, items.len() as u64);
    for item in items {
        item.put_words(line);
    }
}

impl<T: Spell> Spell for List<T> {
    ghost codec = { list T.codec };

    fn put_words(&self, line: &mut LineBuffer) {
        put_all(line, self.as_slice());
    }

    fn take_from(words: &mut Words) -> Result<List<T>, Stop> {
        let count = words.u32()?;
        take_all(words, count)
    }
}
