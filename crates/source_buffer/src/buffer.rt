// Bytes that were read and are not taken yet.
ghost use Rattle.std.specs.Prelude.{◌≡◌, ◌+◌, ◌<◌, ◌≤◌, ℕ, [], List, IsTrue, drop, take, length, ◌-◌, IfOk, OnOk};
ghost use Rattle.pk_outside.specs.Causes.{HasCause};
ghost use Rattle.pk_outside.specs.Streams.{Gave, ReadGave};
ghost use Rattle.source_buffer.specs.Filling.{Brings, ReadFaults};

use pk_outside::{Failed, Source};
use pk_types::NoMemory;
use std::alloc::Global;
use std::marker::Model;

/// How many bytes are asked for at once: as many as a pipe or a socket of the system holds.
const PIECE: usize = 65_536;

/// Bytes that were read from a source and are not taken yet. Contracts see these bytes.
#[derive(Drop)]
pub struct SourceBuffer {
    /// What was read, and behind it the room into which is read.
    bytes: Vec<u8>,
    /// From here on it is not taken yet.
    start: usize,
    /// Up to here it was read.
    end: usize,
}

impl Model for SourceBuffer {
    ghost use Rattle.std.specs.Prelude.{ℕ, List, ◌≤◌, length, take, drop};

    ghost Value = { List ℕ };

    ghost view = { λ b. drop b.start (take b.end b.bytes.items) };

    ghost invariant = { λ b. (b.start ≤ b.end) × (b.end ≤ length b.bytes.items) };
}

/// Why one read brought nothing.
#[derive(Clone, Copy, Debug, PartialEq, Eq)]
pub enum Unread {
    /// The source failed, and counted it.
    Failed,
    /// Memory was refused.
    NoMemory,
}

/// Moves the bytes from a place on to the front. What stands behind them then says nothing.
fn move_rest(bytes: &mut [u8], start: usize)
    requires within { start ≤ length bytes.old }
    ensures moved { take (length bytes.old - start) bytes.new ≡ drop start bytes.old }
    ensures length { length bytes.new ≡ length bytes.old }
{
    let left = bytes.len() - start;
    if left > start {
        bytes.rotate_left(start);
        return;
    }
    let (taken, rest) = bytes.split_at_mut(start);
    let (front, _) = taken.split_at_mut(left);
    front.copy_from_slice(rest);
}

/// Moves the bytes between two places to the front.
#[tactic(auto, using(crate::proofs::Rooms::moved_front))]
fn move_to_front(bytes: &mut [u8], start: usize, end: usize)
    requires order { start ≤ end }
    requires within { end ≤ length bytes.old }
    ensures moved { take (end - start) bytes.new ≡ drop start (take end bytes.old) }
    ensures length { length bytes.new ≡ length bytes.old }
{
    let (read, _) = bytes.split_at_mut(end);
    move_rest(read, start);
}

/// Reads once into the room behind a place, which holds a piece.
fn read_piece<I: Source>(input: &mut I, bytes: &mut [u8], end: usize) -> Result<usize, Failed>
    requires room { end + PIECE ≤ length bytes.old }
    ensures kept { take end bytes.new ≡ take end bytes.old }
    ensures length { length bytes.new ≡ length bytes.old }
    ensures bound { IfOk result (λ n. end + n ≤ length bytes.new) }
    ensures bytes { ReadGave (I.left input.old) (I.left input.new) result (drop end bytes.new) }
    ensures end { IfOk result (λ n. n ≡ 0 → IsTrue (I.ended input.new)) }
    ensures same { I.origin input.new ≡ I.origin input.old }
    ensures cause { HasCause (I.faults input.old) (I.faults input.new) result }
    ensures quiet { OnOk result (I.faults input.new ≡ I.faults input.old) }
    ensures fewer { IfOk result (λ n. I.budget input.new + n ≤ I.budget input.old) }
{
    let (_, room) = bytes.split_at_mut(end);
    let (piece, _) = room.split_at_mut(PIECE);
    input.read(piece)
}

/// Makes room for a whole piece behind the bytes before a place, which stay.
fn make_room(bytes: &mut Vec<u8>, end: usize) -> Result<(), NoMemory>
    requires within { end ≤ length bytes.old.items }
    ensures room { IfOk result (λ _. end + PIECE ≤ length bytes.new.items) }
    ensures within { end ≤ length bytes.new.items }
    ensures same { take end bytes.new.items ≡ take end bytes.old.items }
{
    if bytes.len() - end < PIECE {
        bytes.resize(end + PIECE, 0)?;
    }
    Ok(())
}

impl SourceBuffer {
    /// A buffer for which nothing was read.
    pub fn new(alloc: Global) -> Result<Self, NoMemory>
        ensures empty { IfOk result (λ buffer. buffer ≡ []) }
    {
        let bytes = vec![in alloc; 0u8; PIECE]?;
        Ok(SourceBuffer {
            bytes,
            start: 0,
            end: 0,
        })
    }

    /// The bytes that are not taken yet.
    pub fn bytes(&self) -> &[u8]
        ensures bytes { result.now ≡ self.now }
    {
        let (read, _) = self.bytes.split_at(self.end);
        let (_, bytes) = read.split_at(self.start);
        bytes
    }

    /// Takes so many of the bytes.
    pub fn take(&mut self, count: usize)
        requires { count ≤ length self.old }
        ensures taken { self.new ≡ drop count self.old }
    {
        self.start += count;
    }

    /// Drops what was taken, so that its room is used again.
    fn forget_taken(&mut self)
        ensures same { self.new ≡ self.old }
    {
        let left = self.end - self.start;
        move_to_front(&mut self.bytes, self.start, self.end);
        self.start = 0;
        self.end = left;
    }

    /// Reads once, behind the bytes, since fewer of them stand than are awaited: whoever waits for an
    /// answer to what he sent is answered before more is read. Room is made before, so that nothing is
    /// lost where memory is refused. What was taken is dropped here and not at each `take`, since many
    /// lines and messages come with one read.
    pub(crate) fn read_once<I: Source>(
        &mut self,
        input: &mut I,
        _awaited: usize,
    ) -> Result<usize, Unread>
        requires fewer { length self.old < _awaited }
        ensures brings { (piece : List ℕ) × Gave (I.left input.old) (I.left input.new) piece × Brings self.old piece self.new result }
        ensures end { IfOk result (λ n. n ≡ 0 → IsTrue (I.ended input.new)) }
        ensures faults { ReadFaults I.left I.faults input.old input.new result }
        ensures later { I.faults input.old ≤ I.faults input.new }
        ensures same { I.origin input.new ≡ I.origin input.old }
        ensures fewer { IfOk result (λ n. I.budget input.new + n ≤ I.budget input.old) }
    {
        self.forget_taken();
        match make_room(&mut self.bytes, self.end) {
            Ok(()) => {}
            Err(NoMemory) => return Err(Unread::NoMemory),
        }
        match read_piece(input, &mut self.bytes, self.end) {
            Ok(count) => {
                self.end += count;
                Ok(count)
            }
            Err(Failed) => Err(Unread::Failed),
        }
    }
}
