// The next line.
ghost use Rattle.std.specs.Prelude.{◌≡◌, ◌+◌, ◌<◌, ◌≤◌, ◌++◌, ℕ, List, length, IfOk, OnErr};
ghost use Rattle.pk_outside.specs.Streams.{Gave};
ghost use Rattle.source_buffer.specs.Faults.{LineFaults};
ghost use Rattle.source_buffer.specs.Reading.{Takes, TakesPiece};

use crate::buffer::{SourceBuffer, Unread};
use pk_outside::Source;
use pk_types::{NoMemory, cut};

/// What a call for the next line got.
#[derive(Clone, Copy, Debug, PartialEq, Eq)]
pub enum LineRead {
    /// A line that LF ended.
    Line,
    /// A last line that has bytes and that the end of the source ended.
    Last,
    /// The source ended, and no byte of a line was left.
    End,
    /// The line is longer than the maximum.
    TooLong,
    /// The last read of the source failed, and counted one fault.
    ReadFault,
    /// Memory for the line or for a read was refused.
    NoMemory,
}

/// How far the bytes at hand bring a line.
#[derive(Clone, Copy)]
enum Piece {
    /// To its LF.
    Ended,
    /// To one byte above the maximum.
    TooLong,
    /// To the end of the bytes at hand.
    Open,
}

impl SourceBuffer {
    /// Adds to the line what stands before the next LF, up to one byte above the maximum.
    fn take_piece(&mut self, line: &mut Vec<u8>, max: usize) -> Result<Piece, NoMemory>
        requires { length line.old.items ≤ max }
        ensures taken { IfOk result (TakesPiece max self.old self.new line.old.items line.new.items) }
        ensures same { OnErr result (self.new ≡ self.old) }
        ensures line { OnErr result (line.new.items ≡ line.old.items) }
    {
        let room = (max - line.len()).saturating_add(1);
        let pending = self.bytes();
        let (window, _) = pending.split_at(pending.len().min(room));
        match cut(window, b'\n') {
            Some((piece, _)) => {
                line.extend_from_slice(piece)?;
                let count = piece.len() + 1;
                self.take(count);
                Ok(Piece::Ended)
            }
            None => {
                line.extend_from_slice(window)?;
                let count = window.len();
                self.take(count);
                if line.len() > max {
                    return Ok(Piece::TooLong);
                }
                Ok(Piece::Open)
            }
        }
    }

    /// Takes the next line into `line`, without its LF and in place of what stood there.
    ///
    /// A line of more than `max` bytes is `TooLong` as soon as one byte above the maximum was seen,
    /// whether it goes on or not. Every answer but `ReadFault` leaves the source's count of faults;
    /// behind a read that failed no other read is made.
    pub fn next_line<I: Source>(
        &mut self,
        input: &mut I,
        line: &mut Vec<u8>,
        max: usize,
    ) -> LineRead
        ensures takes { (read : List ℕ) × Gave (I.left input.old) (I.left input.new) read
            × Takes max (I.ended input.new) (self.old ++ read) self.new line.new.items result }
        ensures faults { LineFaults I.left I.faults input.old input.new result }
        ensures later { I.faults input.old ≤ I.faults input.new }
        ensures fewer { result ≡ LineRead.Line →
            I.budget input.new + length self.new < I.budget input.old + length self.old }
    {
        line.clear();
        'pieces: loop {
            match self.take_piece(line, max) {
                Err(NoMemory) => return LineRead::NoMemory,
                Ok(Piece::Ended) => return LineRead::Line,
                Ok(Piece::TooLong) => return LineRead::TooLong,
                Ok(Piece::Open) => {}
            }
            match self.read_once(input, 1) {
                Err(Unread::Failed) => return LineRead::ReadFault,
                Err(Unread::NoMemory) => return LineRead::NoMemory,
                Ok(0) => {
                    let taken = line.as_slice();
                    return if taken.is_empty() {
                        LineRead::End
                    } else {
                        LineRead::Last
                    };
                }
                Ok(_) => {}
            }
        }
    }
}
