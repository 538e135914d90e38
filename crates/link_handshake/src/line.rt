// A line that is still open, and the text of a line.
ghost use Rattle.std.specs.Prelude.{◌≡◌, ◌≢◌, ◌<◌, ◌∷◌, [], ◌++◌, length, MatchBool};
ghost use Rattle.std.specs.Option.{option_map};
ghost use Rattle.link_handshake.specs.Lines.{IsOpenLine, text_of};

use arrayvec::ArrayVec;
use std::marker::Model;

/// The greatest number of bytes of a line, its end among them.
pub const MAX_LINE: usize = 512;

/// The bytes of a line that has not ended.
#[derive(Drop)]
pub struct OpenLine {
    bytes: ArrayVec<u8, MAX_LINE>,
}

impl Model for OpenLine {
    ghost use Rattle.std.specs.Prelude.{ℕ, List};
    ghost use Rattle.link_handshake.specs.Lines.{IsOpenLine};

    ghost Value = { List ℕ };

    ghost view = { λ line. line.bytes.items };

    ghost invariant = { λ line. IsOpenLine line.bytes.items };
}

impl OpenLine {
    /// The line of which nothing has come.
    pub fn new() -> Self
        ensures empty { result ≡ [] }
    {
        OpenLine {
            bytes: ArrayVec::new(),
        }
    }

    /// The bytes that have come.
    pub fn bytes(&self) -> &[u8]
        ensures bytes { result.now ≡ self.now }
        ensures line { IsOpenLine self.now }
    {
        self.bytes.as_slice()
    }

    /// Whether it has as many bytes as a line may have.
    pub fn is_full(&self) -> bool
        ensures full { MatchBool result (length self.now ≡ MAX_LINE) (length self.now < MAX_LINE) }
        ensures line { IsOpenLine self.now }
    {
        self.bytes.is_full()
    }

    /// Takes one byte more, which is not the end of the line.
    pub fn push(&mut self, byte: u8)
        requires room { length self.old < MAX_LINE }
        requires open { byte ≢ 10 }
        ensures byte { self.new ≡ self.old ++ byte ∷ [] }
        ensures line { IsOpenLine self.new }
    {
        self.bytes.push(byte);
    }

    /// Begins the next line.
    pub fn clear(&mut self)
        ensures empty { self.new ≡ [] }
    {
        self.bytes.clear();
    }
}

/// The text of a line, which is the line without its last byte, a CR.
pub fn text(line: &[u8]) -> Option<&[u8]>
    ensures text { option_map (λ text. text.now) result ≡ text_of line.now }
{
    let (last, text) = line.split_last()?;
    if *last != b'\r' {
        return None;
    }
    Some(text)
}
