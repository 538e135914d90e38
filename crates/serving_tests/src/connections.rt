// Connections that are served to each end, and what was written to them.
ghost use Rattle.std.specs.Prelude.{◌≡◌};
ghost use Rattle.authority_model.specs.Entering.{AreAllowed};

use crate::passes::two_passes;
use crate::wire::{CALL, CALLS, FRONT_OF_ERROR, NO_SUCH_METHOD, NO_SUCH_METHODS, OK};
use authority_model::Limits;
use connection_serve::{End, serve_connection};
use dbus_values::FaultKind;
use history_lock::{Opened, Pass, TableName, open_table};
use link_handshake::ShakeFault;
use memory_outside::{ByteSink, ByteSource, EmptyClock, EmptySalt};
use pk_types::NoMemory;
use shared_authority::{Kept, LimitsName, Shared};
use std::alloc::Global;
use std::marker::Brand;
use std::sync::Wait;
use std::thread::Threads;

/// An authentication, and then three bytes of a message.
const THREE_BYTES: &[u8] = b"\0AUTH EXTERNAL 31303030\r\nBEGIN\r\nl\x01\0";

/// An authentication, and then what begins no message.
const NO_MESSAGE: &[u8] = b"\0AUTH EXTERNAL 31303030\r\nBEGIN\r\nX";

const BAD_BYTES: End = End::BadBytes {
    kind: FaultKind::Endian,
    at: 0,
};

const BAD_SHAKE: End = End::BadShake {
    fault: ShakeFault::BadLine,
};

/// What the client sends; the read and the write that fail, if they come; how it ends; and what is
/// written.
type Row = (&'static [u8], u64, u64, End, &'static [u8]);

const ROWS: [Row; 10] = [
    (CALL, 0, 0, End::Done, NO_SUCH_METHOD),
    (CALLS, 0, 0, End::Done, NO_SUCH_METHODS),
    (THREE_BYTES, 0, 0, End::Truncated { rest: 3 }, OK),
    (NO_MESSAGE, 0, 0, BAD_BYTES, OK),
    (b"\0BEGIN\r\n", 0, 0, BAD_SHAKE, b""),
    (b"\0AUTH", 0, 0, End::ShakeCut, b""),
    (CALL, 1, 0, End::ReadFault, b""),
    (CALL, 9, 0, End::ReadFault, NO_SUCH_METHOD),
    (CALL, 0, 1, End::WriteFault, b""),
    (CALL, 0, 3, End::WriteFault, FRONT_OF_ERROR),
];

#[test]
fn connections_are_served_to_their_ends(rt: HostRuntime) {
    let served = name_limits::<Brand, _>(&rt, rt.alloc(), Limits::GREATEST);
    assert_eq!(rt; served, Some(ROWS.len()));
}

fn name_limits<L: LimitsName + Send + Sync, R: Threads + Wait + Sync>(
    rt: &R,
    alloc: Global,
    limits: Limits,
) -> Option<usize>
    requires allowed { AreAllowed limits }
    requires limits { limits ≡ L.limits }
{
    let opened = open_table::<Kept<L>>(alloc).ok()?;
    serve_each::<L, Brand, R>(rt, alloc, limits, opened)
}

/// How many rows, from the first one on, are served as they say.
fn serve_each<L: LimitsName + Send + Sync, T: TableName + Send + Sync, R: Threads + Wait + Sync>(
    rt: &R,
    alloc: Global,
    limits: Limits,
    opened: Opened<Kept<L>>,
) -> Option<usize>
    requires allowed { AreAllowed limits }
    requires limits { limits ≡ L.limits }
    requires table { opened ≡ T.table }
{
    let (shared, mut zero) = Shared::<L, T>::start(alloc, limits, opened).ok()?;
    serve_rows(rt, alloc, &shared, &mut zero)
}

/// The same over an authority, by passes that are made at a known one.
fn serve_rows<L: LimitsName + Send + Sync, T: TableName + Send + Sync, R: Threads + Wait + Sync>(
    rt: &R,
    alloc: Global,
    shared: &Shared<L, T>,
    zero: &mut Pass<Kept<L>, T>,
) -> Option<usize> {
    for (number, row) in ROWS.iter().enumerate() {
        if !is_served(rt, alloc, shared, zero, row)? {
            return Some(number);
        }
    }
    Some(ROWS.len())
}

/// Whether a connection of user 1000 is served as its row says.
fn is_served<L: LimitsName + Send + Sync, T: TableName + Send + Sync, R: Threads + Wait + Sync>(
    rt: &R,
    alloc: Global,
    shared: &Shared<L, T>,
    zero: &mut Pass<Kept<L>, T>,
    row: &Row,
) -> Option<bool> {
    let (sent, failing_read, failing_write, ends, written) = *row;
    let mut source = source(alloc, sent, failing_read).ok()?;
    let mut sink = sink(alloc, failing_write).ok()?;
    let (mut pass, mut collector) = two_passes(rt, shared, zero)?;
    let end = serve_connection(
        rt,
        alloc,
        shared,
        &mut pass,
        &mut collector,
        1000,
        &mut EmptyClock {},
        &mut EmptySalt {},
        &mut source,
        &mut sink,
    );
    Some(end == ends && sink.bytes() == written)
}

/// A source of these bytes, of which a read takes 40, and `NoMemory` also where they are more than
/// 4,096.
fn source(alloc: Global, bytes: &[u8], failing_read: u64) -> Result<ByteSource, NoMemory> {
    if bytes.len() > 4096 {
        return Err(NoMemory);
    }
    let failing = vec![in alloc; failing_read; 1]?;
    let bytes = bytes.to_vec(alloc)?;
    Ok(ByteSource::new(bytes, 40, failing))
}

/// A sink of which a write takes 50 bytes.
fn sink(alloc: Global, failing_write: u64) -> Result<ByteSink, NoMemory> {
    let failing = vec![in alloc; failing_write; 1]?;
    ByteSink::new(alloc, 4096, 50, failing)
}
