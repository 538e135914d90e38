// The lines of a text, as a source gives them.
ghost use Rattle.std.specs.Prelude.{◌≡◌, ◌≤◌, ℕ, List, IsTrue, [], length, IfOk, IfErr, Bool};
ghost use Rattle.pk_outside.specs.Causes.{Rose};
ghost use Rattle.pk_outside.specs.Streams.{Gave};
ghost use Rattle.pk_types.specs.Pieces.{pieces_of};
ghost use Rattle.audit_words.specs.Codecs.{whole};
ghost use Rattle.audit_words.specs.Reads.{GivesAll};
ghost use Rattle.audit_text.specs.Lines.{kind_of_words, line, value_of};
ghost use Rattle.audit_text.specs.Reads.{LineGives};
ghost use Rattle.audit_text.specs.Takes.{stand, Takes, TakesLine, IsLeft, Closes};

use crate::fault::{AuditReadRefused, LineKind, LineStop, Stop};
use audit_values::Spell;
use audit_words::{Kind, Stop as WordStop, Words};
use pk_outside::Source;
use pk_types::NoMemory;
use source_buffer::{Filled, LineRead, SourceBuffer};
use std::alloc::Global;

/// The lines of a text, of which one is in memory at a time.
#[derive(Drop)]
pub struct Lines {
    pub alloc: Global,
    /// What was read, and is not taken yet.
    pub buffer: SourceBuffer,
    /// The line that was taken last, without its LF.
    pub line: Vec<u8>,
    /// The number of the next line, counted from 1.
    pub number: u64,
}

/// The kind of line of a kind of word.
fn line_kind(kind: Kind) -> LineKind
    ensures kind { result ≡ kind_of_words kind }
{
    match kind {
        Kind::Count => LineKind::Count,
        Kind::Number => LineKind::Number,
        Kind::Value => LineKind::Value,
    }
}

/// All words that are left, as a value.
fn all_words<T: Spell>(words: &mut Words) -> Result<T, WordStop>
    ensures whole { GivesAll result (whole T.codec words.old) }
{
    let value = T::take_from(words)?;
    if words.is_done() {
        Ok(value)
    } else {
        Err(WordStop::Fault(Kind::Count))
    }
}

/// The value that a line spells: its first word is the one that is due, and the others are the value's, all of
/// them.
fn value_of_line<T: Spell>(alloc: Global, word: &[u8], line: &[u8]) -> Result<T, LineStop>
    ensures value { LineGives result (value_of word.now T.codec (pieces_of 32 line.now)) }
{
    let mut words = Words::new(alloc, line);
    let Some(first) = words.next() else {
        return Err(LineStop::Bad(LineKind::Word));
    };
    if first != word {
        return Err(LineStop::Bad(LineKind::Word));
    }
    match all_words(&mut words) {
        Ok(value) => Ok(value),
        Err(WordStop::Memory) => Err(LineStop::Memory),
        Err(WordStop::Fault(kind)) => Err(LineStop::Bad(line_kind(kind))),
    }
}

impl Lines {
    /// The lines of a source of which nothing was read.
    pub fn new(alloc: Global) -> Result<Self, NoMemory>
        ensures first { IfOk result (λ lines. lines.number ≡ 1) }
        ensures empty { IfOk result (λ lines. lines.buffer ≡ []) }
    {
        let buffer = SourceBuffer::new(alloc)?;
        Ok(Lines {
            alloc,
            buffer,
            line: Vec::new(alloc),
            number: 1,
        })
    }

    /// Takes the next line.
    fn next<I: Source>(&mut self, input: &mut I) -> Result<(), Stop>
        ensures line { TakesLine (stand self.old.number self.old.buffer (I.left input.old) (I.faults input.old) (I.ended input.old))
            (stand self.new.number self.new.buffer (I.left input.new) (I.faults input.new) (I.ended input.new)) result self.new.line.items }
    {
        let number = self.number;
        match self.buffer.next_line(input, &mut self.line, usize::MAX) {
            LineRead::Line => {
                self.number = number.checked_add(1).ok_or(Stop::Memory)?;
                Ok(())
            }
            LineRead::Last | LineRead::End => Err(Stop::Bad {
                line: number,
                kind: LineKind::End,
            }),
            LineRead::ReadFault => Err(Stop::Failed),
            LineRead::TooLong | LineRead::NoMemory => Err(Stop::Memory),
        }
    }

    /// The value of the next line, which begins with this word.
    pub fn item<T: Spell, I: Source>(&mut self, input: &mut I, word: &[u8]) -> Result<T, Stop>
        ensures taken { Takes (stand self.old.number self.old.buffer (I.left input.old) (I.faults input.old) (I.ended input.old))
            (stand self.new.number self.new.buffer (I.left input.new) (I.faults input.new) (I.ended input.new)) result
            (line word.now T.codec).take }
    {
        let number = self.number;
        self.next(input)?;
        match value_of_line(self.alloc, word, &self.line) {
            Ok(value) => Ok(value),
            Err(LineStop::Memory) => Err(Stop::Memory),
            Err(LineStop::Bad(kind)) => Err(Stop::Bad { line: number, kind }),
        }
    }

    /// Whether no byte is left.
    pub fn is_empty<I: Source>(&mut self, input: &mut I) -> Result<bool, Stop>
        ensures empty { IsLeft (stand self.old.number self.old.buffer (I.left input.old) (I.faults input.old) (I.ended input.old))
            (stand self.new.number self.new.buffer (I.left input.new) (I.faults input.new) (I.ended input.new)) result }
    {
        match self.buffer.fill(input, 1) {
            Filled::There => Ok(false),
            Filled::End => Ok(true),
            Filled::ReadFault => Err(Stop::Failed),
            Filled::NoMemory => Err(Stop::Memory),
        }
    }

    /// The answer, once all bytes were read.
    pub fn close<I: Source>(&mut self, input: &mut I, answer: AuditReadRefused) -> AuditReadRefused
        ensures closed { Closes answer (stand self.old.number self.old.buffer (I.left input.old) (I.faults input.old) (I.ended input.old))
            (stand self.new.number self.new.buffer (I.left input.new) (I.faults input.new) (I.ended input.new)) result }
    {
        'rest: loop {
            let count = self.buffer.bytes().len();
            self.buffer.take(count);
            match self.buffer.fill(input, 1) {
                Filled::There => {}
                Filled::End => return answer,
                Filled::ReadFault => return AuditReadRefused::ReadFault,
                Filled::NoMemory => return AuditReadRefused::NoMemory,
            }
        }
    }
}
