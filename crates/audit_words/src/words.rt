// The words of a line that are left. Contracts see them as a list.
ghost use Rattle.std.specs.Prelude.{◌≡◌, ◌∷◌, [], ◌<◌, ◌^◌, ◌-◌, ◌≤◌, length, IfSome, IfNone, IfOk, IfErr, OnErr};
ghost use Rattle.pk_types.specs.Pieces.{pieces_of};
ghost use Rattle.audit_words.specs.Escapes.{text, short_text, action_id};
ghost use Rattle.audit_words.specs.Salts.{salt, cookie};
ghost use Rattle.audit_words.specs.Codecs.{number, boolean, is_done};
ghost use Rattle.audit_words.specs.Reads.{Gives};
ghost use Rattle.audit_words.specs.declared.fault.Kind.TheVariants.{Count};
ghost use Rattle.audit_words.specs.declared.texts.TheConstants.{MAX_NAME};

use crate::fault::{Kind, Stop};
use crate::salts::{read_cookie, read_salt};
use crate::texts::{read_action_id, read_short_text, read_text};
use authority_model::Cookie;
use pk_types::{ActionId, Text, cut, number_up_to};
use std::alloc::Global;
use std::marker::Model;

/// The words of a line that are left.
#[derive(Drop)]
pub struct Words<'a> {
    alloc: Global,
    rest: &'a [u8],
    more: bool,
}

impl<'a> Model for Words<'a> {
    ghost use Rattle.std.specs.Prelude.{ℕ, List};
    ghost use Rattle.audit_words.specs.Lines.{words_left};

    ghost Value = { List (List ℕ) };

    ghost view = { λ w. words_left w.more w.rest.now };
}

impl<'a> Words<'a> {
    /// All words of a line: what stands between its spaces.
    pub fn new(alloc: Global, line: &'a [u8]) -> Self
        ensures words { result ≡ pieces_of 32 line.now }
    {
        Words {
            alloc,
            rest: line,
            more: true,
        }
    }

    /// Where memory for values is taken.
    pub fn allocator(&self) -> Global {
        self.alloc
    }

    /// The next word, and `None` exactly where none is left.
    pub fn next(&mut self) -> Option<&'a [u8]>
        ensures some { IfSome result (λ word. self.old ≡ word.now ∷ self.new) }
        ensures none { IfNone result (self.old ≡ []) }
    {
        if !self.more {
            return None;
        }
        match cut(self.rest, b' ') {
            Some((word, rest)) => {
                self.rest = rest;
                Some(word)
            }
            None => {
                self.more = false;
                Some(self.rest)
            }
        }
    }

    /// A number below 2^32.
    pub fn u32(&mut self) -> Result<u32, Stop>
        ensures taken { Gives result self.new ((number 32).take self.old) }
    {
        match self.next() {
            None => Err(Stop::Fault(Kind::Count)),
            Some(word) => match number_up_to(word, 4_294_967_295) {
                Some(n) => Ok(n as u32),
                None => Err(Stop::Fault(Kind::Number)),
            },
        }
    }

    /// A number below 2^64.
    pub fn u64(&mut self) -> Result<u64, Stop>
        ensures taken { Gives result self.new ((number 64).take self.old) }
    {
        match self.next() {
            None => Err(Stop::Fault(Kind::Count)),
            Some(word) => match number_up_to(word, u64::MAX) {
                Some(n) => Ok(n),
                None => Err(Stop::Fault(Kind::Number)),
            },
        }
    }

    /// A boolean.
    pub fn boolean(&mut self) -> Result<bool, Stop>
        ensures taken { Gives result self.new (boolean.take self.old) }
    {
        match self.next() {
            None => Err(Stop::Fault(Kind::Count)),
            Some(word) => {
                if word == b"1".as_slice() {
                    Ok(true)
                } else if word == b"0".as_slice() {
                    Ok(false)
                } else {
                    Err(Stop::Fault(Kind::Value))
                }
            }
        }
    }

    /// A text.
    pub fn text(&mut self) -> Result<Text, Stop>
        ensures taken { Gives result self.new (text.take self.old) }
    {
        match self.next() {
            None => Err(Stop::Fault(Kind::Count)),
            Some(word) => read_text(self.alloc, word),
        }
    }

    /// The name of a user or a group.
    pub fn short_text(&mut self) -> Result<Text, Stop>
        ensures taken { Gives result self.new (short_text.take self.old) }
        ensures short { IfOk result (λ name. length name ≤ MAX_NAME) }
    {
        match self.next() {
            None => Err(Stop::Fault(Kind::Count)),
            Some(word) => read_short_text(self.alloc, word),
        }
    }

    /// An action id.
    pub fn action_id(&mut self) -> Result<ActionId, Stop>
        ensures taken { Gives result self.new (action_id.take self.old) }
    {
        match self.next() {
            None => Err(Stop::Fault(Kind::Count)),
            Some(word) => read_action_id(self.alloc, word),
        }
    }

    /// A random word.
    pub fn salt(&mut self) -> Result<u128, Stop>
        ensures taken { Gives result self.new (salt.take self.old) }
    {
        match self.next() {
            None => Err(Stop::Fault(Kind::Count)),
            Some(word) => read_salt(word),
        }
    }

    /// A cookie.
    pub fn cookie(&mut self) -> Result<Cookie, Stop>
        ensures taken { Gives result self.new (cookie.take self.old) }
    {
        match self.next() {
            None => Err(Stop::Fault(Kind::Count)),
            Some(word) => read_cookie(word),
        }
    }

    /// The next word, which is a name.
    pub fn name(&mut self) -> Result<&'a [u8], Stop>
        ensures some { IfOk result (λ word. self.old ≡ word.now ∷ self.new) }
        ensures none { OnErr result (self.old ≡ []) }
        ensures count { IfErr result (λ stop. stop ≡ Stop.Fault Count) }
    {
        match self.next() {
            None => Err(Stop::Fault(Kind::Count)),
            Some(word) => Ok(word),
        }
    }

    /// No more words.
    pub fn is_done(&self) -> bool
        ensures done { result ≡ is_done self.now }
    {
        !self.more
    }
}
