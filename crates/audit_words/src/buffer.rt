// A buffer for the words of lines.
ghost use Rattle.std.specs.Prelude.{◌≡◌, ◌+◌, ◌≤◌, ◌++◌, length, IfOk, vec_len, vec_capacity};
ghost use Rattle.audit_words.specs.Buffers.{emptied, put};

use pk_types::NoMemory;
use std::alloc::Global;
use std::marker::Model;

/// Bytes that are put one after the other, within a room that was taken before. Where there are more of them
/// they are only counted, and none is kept. To put bytes takes no memory.
#[derive(Drop)]
pub struct LineBuffer {
    kept: Vec<u8>,
    room: usize,
    /// How many bytes were put. It stands still at its greatest value.
    count: usize,
}

impl Model for LineBuffer {
    ghost use Rattle.std.specs.Prelude.{◌<◌, ◌≤◌, ◌^◌, vec_len, vec_capacity};
    ghost use Rattle.audit_words.specs.Buffers.{Buffered};

    ghost Value = { Buffered };

    ghost view = { λ b. record { room = b.room; count = b.count; kept = b.kept.items } };

    ghost invariant = { λ b. (b.room ≤ vec_capacity b.kept) × (vec_len b.kept ≤ b.count) };
}

/// Adds bytes for which there is room.
fn append(kept: &mut Vec<u8>, bytes: &[u8])
    requires room { vec_len kept.old + length bytes.now ≤ vec_capacity kept.old }
    ensures items { kept.new.items ≡ kept.old.items ++ bytes.now }
    ensures len { vec_len kept.new ≡ vec_len kept.old + length bytes.now }
    ensures capacity { vec_capacity kept.old ≤ vec_capacity kept.new }
{
    let Ok(()) = kept.extend_from_slice(bytes) else {
        unreachable!()
    };
}

impl LineBuffer {
    /// A buffer without room, which counts.
    pub fn counter(alloc: Global) -> Self
        ensures empty { result ≡ emptied 0 }
    {
        LineBuffer {
            kept: Vec::new(alloc),
            room: 0,
            count: 0,
        }
    }

    /// A buffer with room for so many bytes.
    ///
    /// # Errors
    /// `NoMemory` alone.
    pub fn with_room(alloc: Global, room: usize) -> Result<Self, NoMemory>
        ensures empty { IfOk result (λ buffer. buffer ≡ emptied room) }
    {
        Ok(LineBuffer {
            kept: Vec::with_capacity(alloc, room)?,
            room,
            count: 0,
        })
    }

    /// Puts bytes behind the others.
    pub fn put(&mut self, bytes: &[u8])
        ensures put { self.new ≡ put self.old bytes.now }
    {
        self.count = self.count.saturating_add(bytes.len());
        if self.count <= self.room {
            append(&mut self.kept, bytes);
        } else {
            self.kept.clear();
        }
    }

    /// Drops all bytes. The room stays.
    pub fn clear(&mut self)
        ensures empty { self.new ≡ emptied self.old.room }
    {
        self.kept.clear();
        self.count = 0;
    }

    /// How many bytes were put.
    pub fn count(&self) -> usize
        ensures count { result ≡ self.now.count }
    {
        self.count
    }

    /// The bytes that are kept.
    pub fn bytes(&self) -> &[u8]
        ensures bytes { result.now ≡ self.now.kept }
    {
        &self.kept
    }
}
