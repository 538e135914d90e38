// Any reader and any writer of std, as standard input, standard output and a file, with a count of
// the faults. They are the trusted edge: nothing is told of their content.
ghost use Rattle.std.specs.Prelude.{◌≡◌, ◌+◌, ◌≤◌, ◌<◌, ◌^◌, IsTrue, IfOk, MatchResult, length, take, OnOk};
ghost use Rattle.std.specs.Io.{ReadsAtMost};
ghost use Rattle.std.specs.Io.KnownBytes.{Appends, Consumes};
ghost use Rattle.pk_outside.specs.Causes.{HasCause};

use pk_outside::{Failed, Sink, Source};
use std::io::{ErrorKind, Read, Write};

/// How many bytes a real source can give.
const BUDGET: usize = 1 << 62;

/// How often a call is made that a signal interrupts each time.
const TRIES: u64 = 1 << 62;

/// One read. Where a signal interrupts it, it is made again.
fn read_once<R: Read>(reader: &mut R, buffer: &mut [u8]) -> Result<usize, Failed>
    ensures bound { ReadsAtMost result buffer.new }
    ensures through { IfOk result (λ n. Consumes (R.remaining reader.old) (R.remaining reader.new) (take n buffer.new)) }
{
    for _ in 0..TRIES {
        match reader.read(buffer) {
            Ok(count) => return Ok(count),
            Err(error) if error.kind() == ErrorKind::Interrupted => {}
            Err(_) => return Err(Failed),
        }
    }
    Err(Failed)
}

/// One write. Where a signal interrupts it, it is made again.
fn write_once<W: Write>(writer: &mut W, bytes: &[u8]) -> Result<usize, Failed>
    ensures bound { IfOk result (λ n. n ≤ length bytes.now) }
    ensures through { IfOk result (λ n. Appends (W.contents writer.old) (W.contents writer.new) (take n bytes.now)) }
{
    for _ in 0..TRIES {
        match writer.write(bytes) {
            Ok(count) => return Ok(count),
            Err(error) if error.kind() == ErrorKind::Interrupted => {}
            Err(_) => return Err(Failed),
        }
    }
    Err(Failed)
}

/// Reads from a reader, as standard input. A read that a signal interrupts is made again.
#[derive(Drop)]
pub struct ReadSource<R: Read> {
    inner: R,
    budget: usize,
    ended: bool,
    faults: u64,
    ghost bounded: { budget ≤ 2 ^ 62 },
}

impl<R: Read + Drop + Send> ReadSource<R> {
    ghost use Rattle.real_outside.specs.Streams.{reader_of};

    /// A source that reads from this reader. It takes no memory.
    pub fn new(inner: R) -> Self
        ensures reader { reader_of result ≡ inner }
        ensures sound { ⟦<ReadSource<R> as Source>⟧.faults result ≡ 0 }
    {
        ReadSource {
            inner,
            budget: BUDGET,
            ended: false,
            faults: 0,
        }
    }

    /// How many calls failed.
    pub fn faults(&self) -> u64
        ensures faults { result ≡ ⟦<ReadSource<R> as Source>⟧.faults self.now }
    {
        self.faults
    }
}

impl<R: Read + Drop + Send> Source for ReadSource<R> {
    ghost use Rattle.std.specs.Prelude.{None};
    ghost use Rattle.real_outside.specs.Streams.{reader_of, source_faults, source_budget, source_ended};

    ghost left = { λ _. None };

    ghost faults = { λ s. s.faults };

    ghost budget = { λ s. s.budget };

    ghost ended = { λ s. s.ended };

    ghost budget_bound = { λ s. s.bounded };

    ghost ended_is_used_up = { λ s at_end. tt };

    fn read(&mut self, buffer: &mut [u8]) -> Result<usize, Failed>
        requires { 0 < length buffer.old }
        ensures bound { ReadsAtMost result buffer.new }
        ensures end { IfOk result (λ n. n ≡ 0 → IsTrue (source_ended self.new)) }
        ensures cause { HasCause (source_faults self.old) (source_faults self.new) result }
        ensures quiet { OnOk result (source_faults self.new ≡ source_faults self.old) }
        ensures fewer { MatchResult result (λ n. source_budget self.new + n ≤ source_budget self.old)
            (λ _. source_budget self.new ≤ source_budget self.old) }
        ensures through { IfOk result (λ n. Consumes (R.remaining (reader_of self.old)) (R.remaining (reader_of self.new)) (take n buffer.new)) }
    {
        let room = buffer.len().min(self.budget);
        if room > 0 {
            if let Ok(count) = read_once(&mut self.inner, &mut buffer[..room]) {
                self.budget -= count;
                self.ended = count == 0;
                return Ok(count);
            }
        }
        self.faults = self.faults.saturating_add(1);
        Err(Failed)
    }
}

/// Writes to a writer, as standard output or a file. A write that a signal interrupts is made again.
#[derive(Drop)]
pub struct WriteSink<W: Write> {
    pub(crate) inner: W,
    pub(crate) faults: u64,
}

impl<W: Write + Drop + Send> WriteSink<W> {
    ghost use Rattle.real_outside.specs.Streams.{writer_of};

    /// A sink that writes to this writer. It takes no memory.
    pub fn new(inner: W) -> Self
        ensures writer { writer_of result ≡ inner }
        ensures sound { ⟦<WriteSink<W> as Sink>⟧.faults result ≡ 0 }
    {
        WriteSink { inner, faults: 0 }
    }

    /// How many calls failed.
    pub fn faults(&self) -> u64
        ensures faults { result ≡ ⟦<WriteSink<W> as Sink>⟧.faults self.now }
    {
        self.faults
    }
}

impl<W: Write + Drop + Send> Sink for WriteSink<W> {
    ghost use Rattle.std.specs.Prelude.{None};
    ghost use Rattle.real_outside.specs.Streams.{writer_of, sink_faults};

    ghost held = { λ _. None };

    ghost faults = { λ s. s.faults };

    fn write(&mut self, bytes: &[u8]) -> Result<usize, Failed>
        requires { 0 < length bytes.now }
        ensures bound { IfOk result (λ n. (0 < n) × (n ≤ length bytes.now)) }
        ensures cause { HasCause (sink_faults self.old) (sink_faults self.new) result }
        ensures quiet { OnOk result (sink_faults self.new ≡ sink_faults self.old) }
        ensures through { IfOk result (λ n. Appends (W.contents (writer_of self.old)) (W.contents (writer_of self.new)) (take n bytes.now)) }
    {
        match write_once(&mut self.inner, bytes) {
            Ok(count) if count > 0 => Ok(count),
            _ => {
                self.faults = self.faults.saturating_add(1);
                Err(Failed)
            }
        }
    }
}
