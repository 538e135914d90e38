// A connection, and its two directions.
ghost use Rattle.std.specs.Prelude.{◌≡◌, ◌≤◌, ◌^◌, IfOk, length};
ghost use Rattle.std.specs.Io.{ReadsAtMost};

use crate::refusal::CallRefused;
use pk_outside::{Ends, Failed, Link, Sink, Source};
use std::alloc::Global;
use std::io::{ErrorKind, Read, Write};
use std::net::Shutdown;
use std::os::unix::net::UnixStream;
use std::sync::Arc;
use std::time::Duration;

/// How long one write waits for a peer that does not read, in seconds. Then it fails.
pub const WRITE_SECONDS: u64 = 30;

/// How long one read of an accepted connection waits for a peer that says nothing, until its
/// handshake is over, in seconds. Then it fails.
pub const HANDSHAKE_SECONDS: u64 = 10;

/// How many bytes a socket can give.
const BUDGET: usize = 1 << 62;

/// How often a call is made that a signal interrupts each time.
const TRIES: u64 = 1 << 62;

/// The direction of a connection that is read.
///
/// A peer that is gone is the end, or a fault. So is one that says nothing, where there is a time limit
/// for reads.
#[derive(Drop)]
pub struct SocketSource {
    pub(crate) stream: Arc<UnixStream>,
    pub(crate) budget: usize,
    pub(crate) ended: bool,
    pub(crate) faults: u64,
    ghost bounded: { budget ≤ 2 ^ 62 },
}

/// The direction of a connection that is written.
///
/// A peer that is gone, or that reads nothing for `WRITE_SECONDS`, is a fault. Behind a fault, and
/// where the sink is closed, both directions of the connection are shut down, so that its source
/// meets the end. What was written before the peer can still read.
#[derive(Drop)]
pub struct SocketSink {
    pub(crate) stream: Arc<UnixStream>,
    pub(crate) faults: u64,
}

/// One read. Where a signal interrupts it, it is made again.
fn read_once(stream: &UnixStream, buffer: &mut [u8]) -> Result<usize, Failed>
    ensures bound { ReadsAtMost result buffer.new }
{
    for _ in 0..TRIES {
        let mut reader = stream;
        match reader.read(buffer) {
            Ok(count) => return Ok(count),
            Err(error) if error.kind() == ErrorKind::Interrupted => {}
            Err(_) => return Err(Failed),
        }
    }
    Err(Failed)
}

/// One write. Where a signal interrupts it, it is made again.
fn write_once(stream: &UnixStream, bytes: &[u8]) -> Result<usize, Failed>
    ensures bound { IfOk result (λ count. count ≤ length bytes.now) }
{
    for _ in 0..TRIES {
        let mut writer = stream;
        match writer.write(bytes) {
            Ok(count) => return Ok(count),
            Err(error) if error.kind() == ErrorKind::Interrupted => {}
            Err(_) => return Err(Failed),
        }
    }
    Err(Failed)
}

impl Source for SocketSource {
    ghost use Rattle.std.specs.Prelude.{None};

    ghost left = { λ _. None };

    ghost faults = { λ s. s.faults };

    ghost budget = { λ s. s.budget };

    ghost ended = { λ s. s.ended };

    ghost budget_bound = { λ s. s.bounded };

    ghost ended_is_used_up = { λ s at_end. tt };

    fn read(&mut self, buffer: &mut [u8]) -> Result<usize, Failed> {
        let room = buffer.len().min(self.budget);
        if room > 0 {
            if let Ok(count) = read_once(&self.stream, &mut buffer[..room]) {
                self.budget -= count;
                self.ended = count == 0;
                return Ok(count);
            }
        }
        self.faults = self.faults.saturating_add(1);
        Err(Failed)
    }

    fn lift_time_limit(&mut self) {
        let _ = self.stream.set_read_timeout(None);
    }
}

impl Sink for SocketSink {
    ghost use Rattle.std.specs.Prelude.{None};

    ghost held = { λ _. None };

    ghost faults = { λ s. s.faults };

    fn write(&mut self, bytes: &[u8]) -> Result<usize, Failed> {
        match write_once(&self.stream, bytes) {
            Ok(count) if count > 0 => Ok(count),
            _ => {
                let _ = self.stream.shutdown(Shutdown::Both);
                self.faults = self.faults.saturating_add(1);
                Err(Failed)
            }
        }
    }

    fn close(&mut self) {
        let _ = self.stream.shutdown(Shutdown::Both);
    }
}

/// A connection that was accepted or dialled. It is closed when its two directions are dropped.
#[derive(Drop)]
pub struct SocketLink {
    pub(crate) input: SocketSource,
    pub(crate) output: SocketSink,
    ghost unread: { input.faults ≡ 0 },
    ghost unwritten: { output.faults ≡ 0 },
}

impl SocketLink {
    /// The connection over a socket that was accepted: until its handshake is over a read waits at
    /// most `HANDSHAKE_SECONDS`.
    pub(crate) fn accepted(alloc: Global, stream: UnixStream) -> Result<SocketLink, CallRefused> {
        stream
            .set_read_timeout(Some(Duration::from_secs(HANDSHAKE_SECONDS)))
            .map_err(CallRefused::Failed)?;
        SocketLink::over(alloc, stream)
    }

    /// The connection over a socket, whose writes wait at most `WRITE_SECONDS`.
    pub(crate) fn over(alloc: Global, stream: UnixStream) -> Result<SocketLink, CallRefused> {
        stream
            .set_write_timeout(Some(Duration::from_secs(WRITE_SECONDS)))
            .map_err(CallRefused::Failed)?;
        let stream = Arc::new(alloc, stream).map_err(|_| CallRefused::NoMemory)?;
        let other = Arc::try_clone(&stream).map_err(|_| CallRefused::NoMemory)?;
        let input = SocketSource {
            stream,
            budget: BUDGET,
            ended: false,
            faults: 0,
        };
        let output = SocketSink {
            stream: other,
            faults: 0,
        };
        Ok(SocketLink { input, output })
    }
}

impl Link for SocketLink {
    ghost use Rattle.std.specs.Prelude.{None};

    type In = SocketSource;

    type Out = SocketSink;

    ghost origin = { λ _. None };

    fn split(self) -> Ends<SocketLink> {
        let SocketLink { input, output } = self;
        Ends { input, output }
    }
}
