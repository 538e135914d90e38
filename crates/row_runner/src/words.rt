// The words of a line.
use pk_types::NoMemory;
use std::alloc::Global;

/// Where a byte of a line stands.
#[derive(Clone, Copy, PartialEq, Eq)]
enum Place {
    /// Between words.
    Between,
    /// In a word.
    Bare,
    /// Between quotes.
    Quoted,
    /// After a `\`.
    Escape,
    /// After `\x`.
    High,
    /// After `\x` and a digit of this value.
    Low(u8),
    /// After a `\` that begins no escape.
    Bad,
}

/// The words of a line up to some byte.
#[derive(Drop)]
struct Reading {
    words: Vec<Vec<u8>>,
    word: Vec<u8>,
    place: Place,
}

/// The value of a hexadecimal digit.
fn digit(b: u8) -> Option<u8> {
    match b {
        b'0'..=b'9' => Some(b - b'0'),
        b'a'..=b'f' => Some(b - b'a' + 10),
        _ => None,
    }
}

/// What an escape of one letter stands for.
fn escape(b: u8) -> Option<u8> {
    match b {
        b'n' => Some(b'\n'),
        b't' => Some(b'\t'),
        b'r' => Some(b'\r'),
        b'"' => Some(b'"'),
        b'\\' => Some(b'\\'),
        _ => None,
    }
}

impl Reading {
    /// Ends the word.
    fn end(&mut self, alloc: Global) -> Result<(), NoMemory> {
        let word = self.word.as_slice().to_vec(alloc)?;
        self.words.push(word)?;
        self.word.clear();
        Ok(())
    }

    /// Takes a byte of the word.
    fn keep(&mut self, b: u8, place: Place) -> Result<(), NoMemory> {
        self.place = place;
        self.word.push(b)?;
        Ok(())
    }

    /// Takes a byte that stands outside of quotes.
    fn bare(&mut self, alloc: Global, b: u8) -> Result<(), NoMemory> {
        if b == b'"' {
            self.place = Place::Quoted;
            return Ok(());
        }
        if b != b' ' {
            return self.keep(b, Place::Bare);
        }
        if self.place == Place::Bare {
            self.place = Place::Between;
            return self.end(alloc);
        }
        Ok(())
    }

    /// Takes a byte that stands in quotes.
    fn quoted(&mut self, b: u8) -> Result<(), NoMemory> {
        if b == b'"' {
            self.place = Place::Bare;
            return Ok(());
        }
        if b == b'\\' {
            self.place = Place::Escape;
            return Ok(());
        }
        self.keep(b, Place::Quoted)
    }

    /// Takes the byte after a `\`.
    fn escaped(&mut self, b: u8) -> Result<(), NoMemory> {
        if b == b'x' {
            self.place = Place::High;
            return Ok(());
        }
        match escape(b) {
            Some(byte) => self.keep(byte, Place::Quoted),
            None => {
                self.place = Place::Bad;
                Ok(())
            }
        }
    }

    /// Takes the first digit of a byte.
    fn high(&mut self, b: u8) {
        self.place = match digit(b) {
            Some(value) => Place::Low(value),
            None => Place::Bad,
        };
    }

    /// Takes the second digit of a byte.
    fn low(&mut self, high: u8, b: u8) -> Result<(), NoMemory> {
        match digit(b) {
            Some(value) => self.keep((high << 4) | value, Place::Quoted),
            None => {
                self.place = Place::Bad;
                Ok(())
            }
        }
    }

    /// Takes the next byte.
    fn take(&mut self, alloc: Global, b: u8) -> Result<(), NoMemory> {
        match self.place {
            Place::Between | Place::Bare => self.bare(alloc, b),
            Place::Quoted => self.quoted(b),
            Place::Escape => self.escaped(b),
            Place::High => {
                self.high(b);
                Ok(())
            }
            Place::Low(high) => self.low(high, b),
            Place::Bad => Ok(()),
        }
    }
}

/// The words of a line, and `None` where a quote or an escape is not ended.
pub fn words(alloc: Global, line: &[u8]) -> Result<Option<Vec<Vec<u8>>>, NoMemory> {
    let mut reading = Reading {
        words: Vec::new(alloc),
        word: Vec::new(alloc),
        place: Place::Between,
    };
    for b in line {
        reading.take(alloc, *b)?;
    }
    match reading.place {
        Place::Between => Ok(Some(reading.words)),
        Place::Bare => {
            reading.end(alloc)?;
            Ok(Some(reading.words))
        }
        _ => Ok(None),
    }
}
