// The paths at which a station listens.
ghost use Rattle.std.specs.Prelude.{◌≡◌, IfOk, IfSome};
ghost use Rattle.std.specs.Arc.{arc_value};

use crate::refusal::{CallRefused, system_path};
use pk_types::Text;
use std::alloc::Global;
use std::fs::{self, Files};
use std::io::{self, ErrorKind};
use std::net::Net;
use std::os::fd::OwnedFd;
use std::os::unix::fs::FileTypeExt;
use std::os::unix::net::{UnixListener, UnixStream};
use std::sync::Arc;
use std::time::Duration;

/// How long an accept waits for a connection, in seconds.
const ACCEPT_SECONDS: u64 = 1;

/// A socket that listens, and the path of its file.
#[derive(Drop)]
pub(crate) struct Listening {
    pub(crate) path: Text,
    pub(crate) socket: UnixListener,
}

/// A path at which the station listens, and how many doors of it stand. They share its socket.
#[derive(Drop)]
struct Standing {
    listening: Arc<Listening>,
    doors: u64,
}

/// The paths at which a station listens, each once.
#[derive(Drop)]
pub(crate) struct Paths {
    alloc: Global,
    standing: Vec<Standing>,
}

/// Whether nothing stands at the path.
fn is_free<R: Files>(rt: &R, path: &str) -> bool {
    match fs::symlink_metadata(rt, path) {
        Ok(_) => false,
        Err(error) => error.kind() == ErrorKind::NotFound,
    }
}

/// Whether a socket stands at the path.
fn is_socket<R: Files>(rt: &R, path: &str) -> bool {
    match fs::symlink_metadata(rt, path) {
        Ok(found) => found.file_type().is_socket(),
        Err(_) => false,
    }
}

/// A socket that listens at the path, at which an accept waits `ACCEPT_SECONDS` at most. The system
/// has one time limit for reads and for accepts, which is set here over a second hold of the socket.
fn limited_listener<R: Net + Files>(rt: &R, path: &str) -> io::Result<UnixListener> {
    let socket = UnixListener::bind(rt, path)?;
    let hold = UnixStream::from(OwnedFd::from(socket.try_clone()?));
    hold.set_read_timeout(Some(Duration::from_secs(ACCEPT_SECONDS)))?;
    Ok(socket)
}

/// A socket that listens at the path. The system makes the file before it lets the socket listen.
/// Where it then refuses something, the file is removed again, and where it refused the path, as one
/// that stands already, what stands there is left.
fn listener<R: Net + Files>(rt: &R, path: &Text) -> Result<UnixListener, CallRefused> {
    let path = system_path(path)?;
    let was_free = is_free(rt, path);
    match limited_listener(rt, path) {
        Ok(socket) => Ok(socket),
        Err(cause) => {
            if was_free && cause.kind() != ErrorKind::AddrInUse && is_socket(rt, path) {
                let _ = fs::remove_file(rt, path);
            }
            Err(CallRefused::Failed(cause))
        }
    }
}

/// Removes the file of a socket. A file that is gone already is no fault.
fn remove<R: Files>(rt: &R, path: &Text) {
    if let Ok(path) = system_path(path) {
        let _ = fs::remove_file(rt, path);
    }
}

/// Two holds of a socket that listens, or none where memory is refused.
fn shared(alloc: Global, listening: Listening) -> Option<(Arc<Listening>, Arc<Listening>)>
    ensures path { IfSome result (λ (one, other). (arc_value other).path ≡ listening.path) }
{
    let one = Arc::new(alloc, listening).ok()?;
    let other = Arc::try_clone(&one).ok()?;
    Some((one, other))
}

impl Paths {
    /// No path. It takes no memory.
    pub(crate) fn new(alloc: Global) -> Paths {
        Paths {
            alloc,
            standing: Vec::new(alloc),
        }
    }

    /// One more door's hold of the socket at the path, which is made with its file where this is
    /// the first. Whatever stands at the path already is left as it is, and refused.
    pub(crate) fn listen<R: Net + Files>(
        &mut self,
        rt: &R,
        path: &Text,
    ) -> Result<Arc<Listening>, CallRefused>
        ensures path { IfOk result (λ held. (arc_value held).path ≡ path.now) }
    {
        for known in &mut self.standing {
            if known.listening.path.is_same(path) {
                let held = Arc::try_clone(&known.listening).map_err(|_| CallRefused::NoMemory)?;
                known.doors = known.doors.saturating_add(1);
                return Ok(held);
            }
        }
        self.bind(rt, path)
    }

    /// Makes the socket and its file. Where memory is refused after that, the file is removed again.
    fn bind<R: Net + Files>(&mut self, rt: &R, path: &Text) -> Result<Arc<Listening>, CallRefused>
        ensures path { IfOk result (λ held. (arc_value held).path ≡ path.now) }
    {
        let copy = path.try_copy().map_err(|_| CallRefused::NoMemory)?;
        self.standing.reserve(1).map_err(|_| CallRefused::NoMemory)?;
        let socket = listener(rt, path)?;
        match shared(self.alloc, Listening { path: copy, socket }) {
            Some((listening, held)) => {
                self.standing.push_reserved(Standing {
                    listening,
                    doors: 1,
                });
                Ok(held)
            }
            None => {
                remove(rt, path);
                Err(CallRefused::NoMemory)
            }
        }
    }

    /// One door less at the path. After the last one the file is removed, and nobody listens.
    pub(crate) fn leave<R: Files>(&mut self, rt: &R, path: &Text) {
        for known in &mut self.standing {
            if known.listening.path.is_same(path) {
                known.doors = known.doors.saturating_sub(1);
                if known.doors == 0 {
                    remove(rt, path);
                }
            }
        }
        self.standing.retain(|known| known.doors > 0);
    }
}
