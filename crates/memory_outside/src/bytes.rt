// Sources and sinks over bytes in memory, whose calls can be made to fail.
ghost use Rattle.std.specs.Prelude.{◌≡◌, ◌||◌, ◌==◌, ◌+◌, ◌-◌, ◌^◌, ◌<◌, ◌≤◌, [], ◌++◌, ℕ, Some, IsTrue, IfOk, OnOk, MatchResult, is_err, nat_le, min, length, take, drop, vec_len, vec_capacity};
ghost use Rattle.std.specs.Io.{ReadsAtMost};
ghost use Rattle.pk_outside.specs.Causes.{HasCause};
ghost use Rattle.memory_outside.specs.Memory.{fails_next, one_call};
ghost use Rattle.pk_outside.specs.Streams.{ReadGave, WriteGot};

use crate::calls::Calls;
use crate::link::ReturnedLink;
use crate::seats::Seat;
use pk_outside::{Failed, Sink, Source};
use pk_types::{NoMemory, Text};
use std::alloc::Global;

/// A source of bytes in memory, which gives them in pieces: in a call as many as the piece, the
/// buffer and the bytes left allow. A call that fails leaves them.
#[derive(Drop)]
pub struct ByteSource {
    path: Text,
    bytes: Vec<u8>,
    at: usize,
    piece: usize,
    calls: Calls,
    ghost within: { at ≤ length bytes.items },
    ghost piece_some: { 0 < piece },
    ghost size: { length bytes.items ≤ 2 ^ 62 },
}

impl ByteSource {
    ghost use Rattle.memory_outside.specs.Held.{source_left, source_path, source_bytes, source_piece, source_calls};

    /// A source of these bytes, at most `piece` of them in a call. The calls with the numbers in
    /// `failing` fail; the first call has the number 1.
    pub fn new(bytes: Vec<u8>, piece: usize, failing: Vec<u64>) -> Self
        requires some { 0 < piece }
        requires size { vec_len bytes ≤ 2 ^ 62 }
        ensures left { source_left result ≡ bytes.items }
        ensures path { source_path result ≡ [] }
        ensures bytes { source_bytes result ≡ bytes.items }
        ensures piece { source_piece result ≡ piece }
        ensures calls { source_calls result ≡ record { made = 0; faults = 0; failing = failing.items } }
    {
        ByteSource {
            path: Text::new(*bytes.allocator()),
            bytes,
            at: 0,
            piece,
            calls: Calls::failing_at(failing),
        }
    }

    /// The same source, of a link that was dialled at this path.
    pub(crate) fn dialled(mut self, path: Text) -> Self
        ensures path { result ≡ record self { path = path } }
    {
        self.path = path;
        self
    }

    /// How many calls failed.
    pub fn faults(&self) -> u64
        ensures faults { result ≡ (source_calls self.now).faults }
    {
        self.calls.faults()
    }
}

/// Copies the bytes from `at` on over the front of the buffer, at most `piece` of them, and answers
/// their number.
pub(crate) fn copy_from(bytes: &[u8], at: usize, piece: usize, buffer: &mut [u8]) -> usize
    requires within { at ≤ length bytes.now }
    ensures bytes { drop at bytes.now ≡ take result buffer.new ++ drop (at + result) bytes.now }
    ensures bound { result ≤ length buffer.new }
    ensures within { at + result ≤ length bytes.now }
    ensures most { result ≡ min (min (length buffer.new) piece) (length bytes.now - at) }
    ensures end { result ≡ 0 → 0 < piece → 0 < length buffer.old → at ≡ length bytes.now }
{
    let (_, rest) = bytes.split_at(at);
    let n = buffer.len().min(piece).min(rest.len());
    let (front, _) = rest.split_at(n);
    buffer[..n].copy_from_slice(front);
    n
}

impl Source for ByteSource {
    ghost use Rattle.std.specs.Prelude.{◌-◌, nat_eq, Some, length, drop};
    ghost use Rattle.std.proofs.Common.{rules};
    ghost use Rattle.memory_outside.specs.Memory.{used_up};
    ghost use Rattle.pk_outside.specs.Links.{Origin};
    ghost use Rattle.memory_outside.specs.Held.{source_left, source_calls, source_budget, source_ended, source_path, source_bytes, source_piece};

    ghost left = { λ s. Some (drop s.at s.bytes.items) };

    ghost origin = { λ s. Some (record { path = s.path; bytes = s.bytes.items }) };

    ghost faults = { λ s. s.calls.faults };

    ghost budget = { λ s. length s.bytes.items - s.at };

    ghost ended = { λ s. nat_eq s.at (length s.bytes.items) };

    ghost budget_bound = { λ s. Prim.search rules };

    ghost ended_is_used_up = { λ s at_end. used_up s.at s.bytes.items at_end };

    fn read(&mut self, buffer: &mut [u8]) -> Result<usize, Failed>
        requires { 0 < length buffer.old }
        ensures bound { ReadsAtMost result buffer.new }
        ensures bytes { ReadGave (Some (source_left self.old)) (Some (source_left self.new)) result buffer.new }
        ensures end { IfOk result (λ n. n ≡ 0 → IsTrue (source_ended self.new)) }
        ensures same { source_bytes self.new ≡ source_bytes self.old }
        ensures path { source_path self.new ≡ source_path self.old }
        ensures cause { HasCause (source_calls self.old).faults (source_calls self.new).faults result }
        ensures quiet { OnOk result ((source_calls self.new).faults ≡ (source_calls self.old).faults) }
        ensures fewer { MatchResult result (λ n. source_budget self.new + n ≤ source_budget self.old)
            (λ _. source_budget self.new ≤ source_budget self.old) }
        ensures most { IfOk result (λ n. n ≡ min (min (length buffer.new) (source_piece self.old)) (source_budget self.old)) }
        ensures piece { source_piece self.new ≡ source_piece self.old }
        ensures listed { is_err result ≡ fails_next (source_calls self.old) }
        ensures counted { source_calls self.new ≡ one_call (source_calls self.old) (is_err result) }
    {
        if self.calls.is_failing() {
            self.calls.fail();
            return Err(Failed);
        }
        self.calls.pass();
        let n = copy_from(&self.bytes, self.at, self.piece, buffer);
        self.at += n;
        Ok(n)
    }
}

/// A sink in memory with a stated room, which takes bytes in pieces: in a call as many as the piece
/// and the room left allow. A call that fails, and one that finds the room full, leaves what it
/// holds.
///
/// It has the seat in which its link is kept when the link comes back, so that a door and a station
/// take a link back without memory.
#[derive(Drop)]
pub struct ByteSink {
    bytes: Vec<u8>,
    room: usize,
    piece: usize,
    calls: Calls,
    seat: Seat<ReturnedLink>,
    ghost piece_some: { 0 < piece },
    ghost reserved: { room ≤ vec_capacity bytes },
}

impl ByteSink {
    ghost use Rattle.pk_outside.specs.Links.{EndsTell};
    ghost use Rattle.memory_outside.specs.Held.{source_origin, source_left, source_calls, sink_held, sink_calls, sink_piece, sink_room};
    ghost use Rattle.memory_outside.specs.HeldLink.{link_back};

    /// An empty sink with room for so many bytes, which takes at most `piece` of them in a call.
    /// The calls with the numbers in `failing` fail; the first call has the number 1.
    pub fn new(
        alloc: Global,
        room: usize,
        piece: usize,
        failing: Vec<u64>,
    ) -> Result<Self, NoMemory>
        requires some { 0 < piece }
        ensures empty { IfOk result (λ sink. sink_held sink ≡ []) }
        ensures room { IfOk result (λ sink. sink_room sink ≡ room) }
        ensures piece { IfOk result (λ sink. sink_piece sink ≡ piece) }
        ensures calls { IfOk result (λ sink. sink_calls sink ≡ record { made = 0; faults = 0; failing = failing.items }) }
    {
        let bytes = Vec::with_capacity(alloc, room)?;
        let seat = Seat::new(alloc)?;
        Ok(ByteSink {
            bytes,
            room,
            piece,
            calls: Calls::failing_at(failing),
            seat,
        })
    }

    /// The bytes that it got.
    pub fn bytes(&self) -> &[u8]
        ensures held { result.now ≡ sink_held self.now }
    {
        self.bytes.as_slice()
    }

    /// How many calls failed.
    pub fn faults(&self) -> u64
        ensures faults { result ≡ (sink_calls self.now).faults }
    {
        self.calls.faults()
    }

    /// The bytes that it got, without the sink.
    pub(crate) fn into_bytes(self) -> Vec<u8>
        ensures held { result.items ≡ sink_held self }
    {
        self.bytes
    }

    /// What this sink and the source of its link hold when the link comes back, and the seat to
    /// keep it in.
    pub(crate) fn come_back(self, input: ByteSource) -> (ReturnedLink, Seat<ReturnedLink>)
        ensures tells { let (link, seat) = result in EndsTell (source_origin input) (Some (source_left input)) (Some (sink_held self))
            (source_calls input).faults (sink_calls self).faults link.path (link_back link) }
    {
        let link = ReturnedLink {
            path: input.path,
            given: input.bytes,
            read: input.at,
            written: self.bytes,
            read_faults: input.calls.faults(),
            write_faults: self.calls.faults(),
        };
        (link, self.seat)
    }
}

impl Sink for ByteSink {
    ghost use Rattle.std.specs.Prelude.{Some};
    ghost use Rattle.memory_outside.specs.Held.{sink_held, sink_calls, sink_piece, sink_room};

    ghost held = { λ s. Some s.bytes.items };

    ghost faults = { λ s. s.calls.faults };

    fn write(&mut self, bytes: &[u8]) -> Result<usize, Failed>
        requires { 0 < length bytes.now }
        ensures bound { IfOk result (λ n. (0 < n) × (n ≤ length bytes.now)) }
        ensures bytes { WriteGot (Some (sink_held self.old)) (Some (sink_held self.new)) result bytes.now }
        ensures cause { HasCause (sink_calls self.old).faults (sink_calls self.new).faults result }
        ensures quiet { OnOk result ((sink_calls self.new).faults ≡ (sink_calls self.old).faults) }
        ensures most { IfOk result (λ n. n ≡ min (min (length bytes.now) (sink_piece self.old)) (sink_room self.old - length (sink_held self.old))) }
        ensures piece { sink_piece self.new ≡ sink_piece self.old }
        ensures room { sink_room self.new ≡ sink_room self.old }
        ensures refused { is_err result ≡ (fails_next (sink_calls self.old) || nat_le (sink_room self.old) (length (sink_held self.old))) }
        ensures counted { sink_calls self.new ≡ one_call (sink_calls self.old) (is_err result) }
    {
        let room = self.room.saturating_sub(self.bytes.len());
        let n = bytes.len().min(self.piece).min(room);
        let (front, _) = bytes.split_at(n);
        if self.calls.is_failing() || room == 0 || self.bytes.extend_from_slice(front).is_err() {
            self.calls.fail();
            return Err(Failed);
        }
        self.calls.pass();
        Ok(n)
    }
}
