// A source and a sink in memory that never fail.
ghost use Rattle.std.specs.Prelude.{◌≡◌, ◌+◌, ◌^◌, ◌<◌, ◌≤◌, Some, IsTrue, IfOk, MatchResult, length, min, vec_len};
ghost use Rattle.std.specs.Io.{ReadsAtMost};
ghost use Rattle.pk_outside.specs.Streams.{ReadGave};

use crate::bytes::copy_from;
use pk_outside::{Failed, Sink, Source};

/// A source of bytes in memory that never fails: its count of faults is always 0. It gives in a
/// call as many bytes as the piece, the buffer and the bytes left allow.
#[derive(Drop)]
pub struct SureSource {
    bytes: Vec<u8>,
    at: usize,
    piece: usize,
    ghost within: { at ≤ length bytes.items },
    ghost piece_some: { 0 < piece },
    ghost size: { length bytes.items ≤ 2 ^ 62 },
}

impl SureSource {
    ghost use Rattle.memory_outside.specs.Held.{sure_left, sure_bytes, sure_piece};

    /// A source of these bytes, at most `piece` of them in a call.
    pub fn new(bytes: Vec<u8>, piece: usize) -> Self
        requires some { 0 < piece }
        requires size { vec_len bytes ≤ 2 ^ 62 }
        ensures left { sure_left result ≡ bytes.items }
        ensures bytes { sure_bytes result ≡ bytes.items }
        ensures piece { sure_piece result ≡ piece }
    {
        SureSource {
            bytes,
            at: 0,
            piece,
        }
    }
}

impl Source for SureSource {
    ghost use Rattle.std.specs.Prelude.{◌-◌, [], Some, length, drop, nat_eq};
    ghost use Rattle.std.proofs.Common.{rules};
    ghost use Rattle.memory_outside.specs.Held.{sure_left, sure_bytes, sure_piece, sure_budget, sure_ended};
    ghost use Rattle.memory_outside.specs.Memory.{used_up};

    ghost left = { λ s. Some (drop s.at s.bytes.items) };

    ghost origin = { λ s. Some (record { path = []; bytes = s.bytes.items }) };

    ghost faults = { λ _. 0 };

    ghost budget = { λ s. length s.bytes.items - s.at };

    ghost ended = { λ s. nat_eq s.at (length s.bytes.items) };

    ghost budget_bound = { λ s. Prim.search rules };

    ghost ended_is_used_up = { λ s at_end. used_up s.at s.bytes.items at_end };

    fn read(&mut self, buffer: &mut [u8]) -> Result<usize, Failed>
        requires { 0 < length buffer.old }
        ensures bound { ReadsAtMost result buffer.new }
        ensures bytes { ReadGave (Some (sure_left self.old)) (Some (sure_left self.new)) result buffer.new }
        ensures end { IfOk result (λ n. n ≡ 0 → IsTrue (sure_ended self.new)) }
        ensures same { sure_bytes self.new ≡ sure_bytes self.old }
        ensures fewer { MatchResult result (λ n. sure_budget self.new + n ≤ sure_budget self.old)
            (λ _. sure_budget self.new ≤ sure_budget self.old) }
        ensures most { result ≡ Ok (min (min (length buffer.new) (sure_piece self.old)) (sure_budget self.old)) }
        ensures piece { sure_piece self.new ≡ sure_piece self.old }
    {
        let n = copy_from(&self.bytes, self.at, self.piece, buffer);
        self.at += n;
        Ok(n)
    }
}

/// A sink that takes all bytes and keeps none: its count of faults is always 0, and it tells
/// nothing.
#[derive(Drop)]
pub struct SureSink {}

impl SureSink {
    /// A sink, to be written to. It takes no memory.
    pub fn new() -> Self {
        SureSink {}
    }
}

impl Sink for SureSink {
    ghost use Rattle.std.specs.Prelude.{None};

    ghost held = { λ _. None };

    ghost faults = { λ _. 0 };

    fn write(&mut self, bytes: &[u8]) -> Result<usize, Failed>
        requires { 0 < length bytes.now }
        ensures all { result ≡ Ok (length bytes.now) }
    {
        Ok(bytes.len())
    }
}
