// When the clock is read: once the last byte of a message has come.
ghost use Rattle.std.specs.Prelude.{◌≡◌, []};
ghost use Rattle.authority_model.specs.Entering.{AreAllowed};

use crate::live_connections::loaded;
use crate::passes::two_passes;
use crate::wire::CALLS;
use authority_model::{History, Limits};
use connection_serve::{End, serve_connection};
use history_lock::{Opened, Pass, TableName, open_table};
use memory_outside::{ByteSink, ByteSource, EmptySalt};
use pk_outside::{Clock, Failed, Source};
use pk_types::NoMemory;
use shared_authority::{Kept, LimitsName, Shared};
use std::alloc::Global;
use std::marker::Brand;
use std::sync::Wait;
use std::sync::atomic::{AtomicU64, Ordering};
use std::test::Fail;
use std::thread::Threads;
use test_parts::begin;

/// What a client gives that waits for a second before each piece. Nothing of it is told.
#[derive(Drop)]
struct SlowSource<'t> {
    source: ByteSource,
    seconds: &'t AtomicU64,
}

impl Source for SlowSource<'_> {
    ghost use Rattle.std.specs.Prelude.{None};
    ghost use Rattle.std.proofs.Common.{rules};
    ghost use Rattle.memory_outside.specs.Held.{source_budget, source_calls, source_ended};

    ghost left = { λ _. None };

    ghost faults = { λ s. (source_calls s.source).faults };

    ghost budget = { λ s. source_budget s.source };

    ghost ended = { λ s. source_ended s.source };

    ghost budget_bound = { λ s. Prim.search rules };

    ghost ended_is_used_up = { λ s at_end. tt };

    fn read(&mut self, buffer: &mut [u8]) -> Result<usize, Failed> {
        self.seconds.fetch_add(1, Ordering::SeqCst);
        self.source.read(buffer)
    }
}

/// The clock of that client's seconds.
#[derive(Drop)]
struct SlowClock<'t> {
    seconds: &'t AtomicU64,
}

impl Clock for SlowClock<'_> {
    ghost use Rattle.std.specs.Prelude.{None};

    ghost left = { λ _. None };

    ghost gave = { λ _. None };

    fn now(&mut self) -> u64 {
        self.seconds.load(Ordering::SeqCst).min(1000)
    }
}

/// The moments of the entries of two calls that come in pieces of 40 bytes: of the beginning, of the two
/// calls, and of the end. The handshake has 32 bytes, and each call 265; the last read finds the end.
const MOMENTS: [u64; 4] = [1, 8, 15, 16];

/// No message is read ahead of the answer to the one before, and each takes the moment at which its last
/// byte came.
#[test]
fn a_message_has_the_moment_of_its_last_byte(rt: HostRuntime) -> Result<(), Fail> {
    let has = name_limits::<Brand, _>(&rt, rt.alloc(), Limits::GREATEST);
    assert_eq!(rt; has, Some(true));
    Ok(())
}

fn name_limits<L: LimitsName + Send + Sync, R: Threads + Wait + Sync>(
    rt: &R,
    alloc: Global,
    limits: Limits,
) -> Option<bool>
    requires allowed { AreAllowed limits }
    requires limits { limits ≡ L.limits }
{
    let opened = open_table::<Kept<L>>(alloc).ok()?;
    has_moments::<L, Brand, R>(rt, alloc, limits, opened)
}

/// Whether the entries of the connection have these moments in the closed journal.
fn has_moments<L: LimitsName + Send + Sync, T: TableName + Send + Sync, R: Threads + Wait + Sync>(
    rt: &R,
    alloc: Global,
    limits: Limits,
    opened: Opened<Kept<L>>,
) -> Option<bool>
    requires allowed { AreAllowed limits }
    requires limits { limits ≡ L.limits }
    requires table { opened ≡ T.table }
{
    let (shared, mut zero) = Shared::<L, T>::start(alloc, limits, opened).ok()?;
    let (mut one, is_done) = serve_slowly(rt, alloc, &shared, &mut zero)?;
    shared.meet(&mut zero, &mut one);
    let number = one.number();
    let authority = shared.close(zero);
    Some(is_done && are_of(authority.history(), number, &MOMENTS))
}

/// Serves the slow client over the first load. Answers the pass of its connection, and whether all was
/// read.
fn serve_slowly<L: LimitsName + Send + Sync, T: TableName + Send + Sync, R: Threads + Wait + Sync>(
    rt: &R,
    alloc: Global,
    shared: &Shared<L, T>,
    zero: &mut Pass<Kept<L>, T>,
) -> Option<(Pass<Kept<L>, T>, bool)>
    requires zero { zero.old.number ≡ 0 }
    requires empty { zero.old.history ≡ [] }
{
    let mut known = begin(rt, shared, zero, loaded(alloc)?)?;
    let (mut pass, mut collector) = two_passes(rt, shared, &mut known)?;
    let seconds = AtomicU64::new(0);
    let mut source = SlowSource {
        source: calls(alloc).ok()?,
        seconds: &seconds,
    };
    let mut sink = ByteSink::new(alloc, 4096, 50, Vec::new(alloc)).ok()?;
    let end = serve_connection(
        rt,
        alloc,
        shared,
        &mut pass,
        &mut collector,
        1000,
        &mut SlowClock { seconds: &seconds },
        &mut EmptySalt {},
        &mut source,
        &mut sink,
    );
    Some((pass, end == End::Done))
}

/// A source of the handshake and of two calls, of which a read takes 40 bytes.
fn calls(alloc: Global) -> Result<ByteSource, NoMemory> {
    let mut bytes = Vec::new(alloc);
    bytes.extend_from_slice(CALLS)?;
    Ok(ByteSource::new(bytes, 40, Vec::new(alloc)))
}

/// Whether the entries of the connection with this number have these moments, in their order.
fn are_of(history: &History, number: u32, moments: &[u64]) -> bool {
    let mut left = moments;
    for entry in history.entries.as_slice() {
        if entry.caller == number {
            let Some((moment, more)) = left.split_first() else {
                return false;
            };
            if entry.moment != *moment {
                return false;
            }
            left = more;
        }
    }
    left.is_empty()
}
