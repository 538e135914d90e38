// A door over a socket that listens.
ghost use Rattle.std.specs.Prelude.{◌≡◌};
ghost use Rattle.real_outside.specs.Counts.{door_path};

use crate::paths::Listening;
use crate::refusal::{CallRefused, Refusal, StationCall};
use crate::socket::SocketLink;
use pk_outside::{Accepted, Door, Ends};
use pk_types::Text;
use std::alloc::Global;
use std::io::{self, ErrorKind};
use std::os::unix::net::UnixStream;
use std::sync::Arc;
use std::thread;
use std::time::{self, Duration};

/// The error of the system where the process has no descriptor left.
const EMFILE: i32 = 24;

/// The error of the system where the system has no descriptor left.
const ENFILE: i32 = 23;

/// How long a door waits where a connection could not be accepted, in milliseconds.
const PAUSE_MILLISECONDS: u64 = 100;

/// A door at a path. The doors of one path share a socket, and the system gives each connection to
/// one of those that wait.
///
/// The system is not asked who connects: the user of each connection is that of the door. A
/// connection that waits is accepted at once, and where none comes for a second the door is idle. It
/// is idle too where a connection left before it was accepted, and where there is no descriptor for
/// one, after a pause.
#[derive(Drop)]
pub struct SocketDoor<'a, R: time::Clock> {
    pub(crate) rt: &'a R,
    pub(crate) alloc: Global,
    pub(crate) listening: Arc<Listening>,
    pub(crate) uid: u32,
    pub(crate) faults: u64,
    pub(crate) refusal: Option<Refusal>,
}

/// Whether another connection may be accepted after a pause: the peer has left, or there was no
/// descriptor.
pub(crate) fn is_passing(cause: &io::Error) -> bool {
    match cause.raw_os_error() {
        Some(EMFILE | ENFILE) => true,
        _ => cause.kind() == ErrorKind::ConnectionAborted,
    }
}

/// Waits for the next connection. None where none comes for a second, or after a pause.
fn next_stream<R: time::Clock>(
    rt: &R,
    listening: &Listening,
) -> Result<Option<UnixStream>, CallRefused> {
    match listening.socket.accept() {
        Ok((stream, _)) => Ok(Some(stream)),
        Err(cause) if cause.kind() == ErrorKind::WouldBlock => Ok(None),
        Err(cause) if is_passing(&cause) => {
            thread::sleep(rt, Duration::from_millis(PAUSE_MILLISECONDS));
            Ok(None)
        }
        Err(cause) => Err(CallRefused::Failed(cause)),
    }
}

/// Waits for the next connection, as a link. None where none comes.
fn next_link<R: time::Clock>(
    rt: &R,
    alloc: Global,
    listening: &Listening,
) -> Result<Option<SocketLink>, CallRefused> {
    match next_stream(rt, listening)? {
        Some(stream) => Ok(Some(SocketLink::accepted(alloc, stream)?)),
        None => Ok(None),
    }
}

impl<'a, R: time::Clock> SocketDoor<'a, R> {
    /// The path at which the door listens.
    pub fn path(&self) -> &Text
        ensures path { result.now ≡ door_path self.now }
    {
        &self.listening.path
    }
}

impl<'a, R: time::Clock + Sync> Door for SocketDoor<'a, R> {
    ghost use Rattle.std.specs.Prelude.{None};

    type Link = SocketLink;

    ghost told = { λ _. None };

    ghost owner = { λ d. d.uid };

    ghost faults = { λ d. d.faults };

    fn accept(&mut self) -> Accepted<SocketLink> {
        let refused = match next_link(self.rt, self.alloc, &self.listening) {
            Ok(Some(link)) => return Accepted::Link(link),
            Ok(None) => return Accepted::Idle,
            Err(refused) => refused,
        };
        let Some(refusal) = refused.of_call(StationCall::Accept, &self.listening.path) else {
            return Accepted::NoMemory;
        };
        self.refusal = Some(refusal);
        self.faults = self.faults.saturating_add(1);
        Accepted::Failed
    }

    fn back(&mut self, _ends: Ends<SocketLink>)
        ensures same { self.new ≡ self.old }
    {}

    fn uid(&self) -> u32 {
        self.uid
    }
}
