// A row under way: the words that are left, the answer so far, and what is wrong with the row.
//
// A word that is missing or out of its form is marked, and the call is made with an empty one; the
// answer is then what is wrong. So a call reads its words one after another, without a `?`.
use pk_types::{Pair, Text, TextList, number_up_to};
use std::alloc::Global;
use std::fmt::{Debug, Write};
use std::str;

/// What is wrong with a row.
#[derive(Clone, Copy, Debug, PartialEq, Eq)]
pub enum Wrong {
    /// A quote or an escape is not ended.
    Quotes,
    /// There is no such call.
    Call,
    /// A word is missing.
    TooFew,
    /// A word is left over.
    TooMany,
    /// A word is not a text.
    Text,
    /// A word is not a number in its range.
    Number,
    /// A word is none of those that may stand there.
    Word,
    /// Memory was refused.
    NoMemory,
}

/// A row under way.
#[derive(Drop)]
pub struct Row<'a> {
    pub alloc: Global,
    words: &'a [Vec<u8>],
    wrong: Option<Wrong>,
    answer: String,
}

impl<'a> Row<'a> {
    /// A row of these words.
    pub fn new(alloc: Global, words: &'a [Vec<u8>]) -> Row<'a> {
        Row {
            alloc,
            words,
            wrong: None,
            answer: String::new(alloc),
        }
    }

    /// Marks what is wrong; the first counts.
    pub fn mark(&mut self, wrong: Wrong) {
        if self.wrong.is_none() {
            self.wrong = Some(wrong);
        }
    }

    /// Whether a word is left.
    pub fn has_more(&self) -> bool {
        !self.words.is_empty()
    }

    /// Whether another item of a list is left. A `]` ends it, and is taken.
    pub fn has_item(&mut self) -> bool {
        match self.words.split_first() {
            Some((word, rest)) if word.as_slice() == b"]".as_slice() => {
                self.words = rest;
                false
            }
            Some(_) => true,
            None => false,
        }
    }

    /// The next word.
    pub fn bytes(&mut self) -> &'a [u8] {
        match self.words.split_first() {
            Some((word, rest)) => {
                self.words = rest;
                word.as_slice()
            }
            None => {
                self.mark(Wrong::TooFew);
                &[]
            }
        }
    }

    /// The next word, which is a text.
    pub fn text(&mut self) -> Text {
        match Text::try_from_bytes(self.alloc, self.bytes()) {
            Ok(text) => text,
            Err(_) => {
                self.mark(Wrong::Text);
                Text::new(self.alloc)
            }
        }
    }

    /// The next word, which is a number up to this one.
    pub fn number(&mut self, greatest: u64) -> u64 {
        match number_up_to(self.bytes(), greatest) {
            Some(number) => number,
            None => {
                self.mark(Wrong::Number);
                0
            }
        }
    }

    /// The texts of a list, which runs to a `]` or to the end of the line.
    pub fn text_list(&mut self) -> TextList {
        let mut texts = TextList::new(self.alloc);
        for _ in 0..u64::MAX {
            if !self.has_item() {
                break;
            }
            if texts.try_push(self.text()).is_err() {
                self.mark(Wrong::NoMemory);
            }
        }
        texts
    }

    /// The next word, which is a number of 32 bits.
    pub fn number_32(&mut self) -> u32 {
        match u32::try_from(self.number(u64::from(u32::MAX))) {
            Ok(number) => number,
            Err(_) => {
                self.mark(Wrong::Number);
                0
            }
        }
    }

    /// Adds to the answer.
    fn add(&mut self, word: &str) {
        if self.answer.push_str(word).is_err() {
            self.mark(Wrong::NoMemory);
        }
    }

    /// Adds a word after a space.
    pub fn word(&mut self, word: &str) {
        self.add(" ");
        self.add(word);
    }

    /// Adds a value as `{:?}` writes it, after a space.
    pub fn show<T: Debug>(&mut self, value: &T) {
        if write!(self.answer, " {value:?}").is_err() {
            self.mark(Wrong::NoMemory);
        }
    }

    /// Adds a name and its value.
    pub fn field<T: Debug>(&mut self, name: &str, value: &T) {
        if write!(self.answer, " {name}={value:?}").is_err() {
            self.mark(Wrong::NoMemory);
        }
    }

    /// Adds a byte of a text.
    fn quote_byte(&mut self, b: u8) {
        let done = match b {
            b'"' => self.answer.push_str("\\\""),
            b'\\' => self.answer.push_str("\\\\"),
            b'\n' => self.answer.push_str("\\n"),
            b'\t' => self.answer.push_str("\\t"),
            b'\r' => self.answer.push_str("\\r"),
            b' '..=b'~' => self.answer.push(char::from(b)),
            _ => write!(self.answer, "\\x{b:02x}"),
        };
        if done.is_err() {
            self.mark(Wrong::NoMemory);
        }
    }

    /// Adds bytes in quotes.
    fn add_quoted(&mut self, bytes: &[u8]) {
        self.add("\"");
        for b in bytes {
            self.quote_byte(*b);
        }
        self.add("\"");
    }

    /// Adds bytes in quotes, after a space.
    pub fn quote(&mut self, bytes: &[u8]) {
        self.add(" ");
        self.add_quoted(bytes);
    }

    /// Adds a name and its bytes.
    pub fn named(&mut self, name: &str, bytes: &[u8]) {
        self.word(name);
        self.add("=");
        self.add_quoted(bytes);
    }

    /// Adds a key and its value, both in quotes.
    pub fn pair(&mut self, key: &[u8], value: &[u8]) {
        self.quote(key);
        self.add("=");
        self.add_quoted(value);
    }

    /// Adds a text in quotes and its value.
    pub fn field_of<T: Debug>(&mut self, key: &[u8], value: &T) {
        self.quote(key);
        if write!(self.answer, "={value:?}").is_err() {
            self.mark(Wrong::NoMemory);
        }
    }

    /// Adds a list of bytes.
    pub fn parts(&mut self, parts: &[&[u8]]) {
        self.word("[");
        for part in parts {
            self.quote(*part);
        }
        self.add(" ]");
    }

    /// Adds a name and the texts of a list.
    pub fn texts(&mut self, name: &str, texts: &[Text]) {
        self.word(name);
        self.add("=[");
        for text in texts {
            self.quote(text.bytes());
        }
        self.add(" ]");
    }

    /// Adds a name and the pairs of a list.
    pub fn pairs(&mut self, name: &str, pairs: &[Pair]) {
        self.word(name);
        self.add("=[");
        for pair in pairs {
            self.pair(pair.key.bytes(), pair.value.bytes());
        }
        self.add(" ]");
    }

    /// Adds a refusal.
    pub fn refuse<T: Debug>(&mut self, fault: &T) {
        self.word("Err");
        self.show(fault);
    }

    /// The answer, or what is wrong.
    pub fn finish(mut self) -> String {
        if self.has_more() {
            self.mark(Wrong::TooMany);
        }
        if let Some(wrong) = self.wrong {
            self.answer.clear();
            let _ = write!(self.answer, "? {wrong:?}");
        }
        self.answer
    }
}
