// A connection that looks at the process of its check, seen alive, gone, as another one and not at all.
ghost use Rattle.std.specs.Prelude.{◌≡◌, []};
ghost use Rattle.authority_model.specs.Entering.{AreAllowed};

use crate::passes::{close, two_passes};
use authority_model::{Limits, Loaded};
use connection_serve::{End, LiveEnd, serve_live_connection};
use history_lock::{Opened, Pass, TableName, open_table};
use memory_outside::{ByteSink, ByteSource, EmptyClock, EmptySalt, ListSights};
use pk_outside::Sighted;
use pk_types::{List, NoMemory, Text};
use policy_load::load;
use shared_authority::{Kept, LimitsName, Shared};
use std::alloc::Global;
use std::marker::Brand;
use std::sync::Wait;
use std::test::Fail;
use std::thread::Threads;
use test_parts::{CHECK_YES, ROOT, SHAKE_ALICE, begin, new_pass, tree};

/// Yes by the default for any, with the serial 1, after the answer to the handshake.
const YES: &[u8] =
    b"OK 00000000000000000000000000000000\r\nl\x02\x01\x018\0\0\0\x01\0\0\0\x17\0\0\0\x05\x01u\0\x01\0\0\0\x08\x01g\0\x09(bba{ss})\0\0\x01\0\0\0\0\0\0\0(\0\0\0\0\0\0\0\x11\0\0\0polkit.decided-by\0\0\0\x0b\0\0\0default:any\0";

/// The answer to the handshake alone.
const OK: &[u8] = b"OK 00000000000000000000000000000000\r\n";

/// The signal Changed with the serial 1, and the error with the serial 2 that the subject is not known,
/// after that answer.
const UNKNOWN: &[u8] =
    b"OK 00000000000000000000000000000000\r\nl\x04\x01\x01\0\0\0\0\x01\0\0\0p\0\0\0\x01\x01o\0%\0\0\0/org/freedesktop/PolicyKit1/Authority\0\0\0\x02\x01s\0$\0\0\0org.freedesktop.PolicyKit1.Authority\0\0\0\0\x03\x01s\0\x07\0\0\0Changed\0l\x03\x01\x01\x1d\0\0\0\x02\0\0\0?\0\0\0\x04\x01s\0'\0\0\0org.freedesktop.PolicyKit1.Error.Failed\0\x05\x01u\0\x01\0\0\0\x08\x01g\0\x01s\0\0\x18\0\0\0The subject is not known\0";

/// What is seen of the process 51 that started at 8, how the connection of the check ends, what it is
/// sent, and how many loads the journal has.
type Row = (Sighted, LiveEnd, &'static [u8], usize);

const DONE: LiveEnd = LiveEnd::Plain(End::Done);

const ROWS: [Row; 4] = [
    (Sighted::Alive { start: 8 }, DONE, YES, 1),
    (Sighted::Gone, DONE, UNKNOWN, 2),
    (Sighted::Alive { start: 9 }, DONE, UNKNOWN, 2),
    (Sighted::Failed, LiveEnd::SightFault, OK, 1),
];

/// A check whose process is alive is answered by yes. Where it has ended the subject is not known, and
/// where the look fails nothing is answered.
#[test]
fn a_connection_looks_at_the_process_of_its_check(rt: HostRuntime) -> Result<(), Fail> {
    for (number, row) in ROWS.iter().enumerate() {
        let is_so = name_limits::<Brand, _>(&rt, rt.alloc(), Limits::GREATEST, row);
        assert_eq!(rt; (number, is_so), (number, Some(true)));
    }
    Ok(())
}

fn name_limits<L: LimitsName + Send + Sync, R: Threads + Wait + Sync>(
    rt: &R,
    alloc: Global,
    limits: Limits,
    row: &Row,
) -> Option<bool>
    requires allowed { AreAllowed limits }
    requires limits { limits ≡ L.limits }
{
    let opened = open_table::<Kept<L>>(alloc).ok()?;
    is_so::<L, Brand, R>(rt, alloc, limits, opened, row)
}

/// Whether the connection ends as its row says, and the journal has its loads.
fn is_so<L: LimitsName + Send + Sync, T: TableName + Send + Sync, R: Threads + Wait + Sync>(
    rt: &R,
    alloc: Global,
    limits: Limits,
    opened: Opened<Kept<L>>,
    row: &Row,
) -> Option<bool>
    requires allowed { AreAllowed limits }
    requires limits { limits ≡ L.limits }
    requires table { opened ≡ T.table }
{
    let (_, _, _, loads) = *row;
    let (shared, mut zero) = Shared::<L, T>::start(alloc, limits, opened).ok()?;
    let (mut one, is_served) = is_served(rt, alloc, &shared, &mut zero, row)?;
    shared.meet(&mut zero, &mut one);
    let counts = close(shared, zero);
    Some(is_served && counts.loads == loads)
}

/// Whether a connection of user 1000 over the first load is served as its row says, with its pass.
fn is_served<L: LimitsName + Send + Sync, T: TableName + Send + Sync, R: Threads + Wait + Sync>(
    rt: &R,
    alloc: Global,
    shared: &Shared<L, T>,
    zero: &mut Pass<Kept<L>, T>,
    row: &Row,
) -> Option<(Pass<Kept<L>, T>, bool)>
    requires zero { zero.old.number ≡ 0 }
    requires empty { zero.old.history ≡ [] }
{
    let (sighted, ends, written, _) = *row;
    let mut known = begin(rt, shared, zero, loaded(alloc)?)?;
    let (mut pass, mut collector) = two_passes(rt, shared, &mut known)?;
    let sighter = new_pass(rt, shared, &mut known)?;
    let mut source = source(alloc).ok()?;
    let mut sink = ByteSink::new(alloc, 4096, 50, Vec::new(alloc)).ok()?;
    let mut sights = sights(alloc, sighted).ok()?;
    let (end, mut sighter) = serve_live_connection(
        rt,
        alloc,
        shared,
        &mut pass,
        &mut collector,
        sighter,
        1000,
        &mut EmptyClock {},
        &mut EmptySalt {},
        &mut source,
        &mut sink,
        &mut sights,
    );
    shared.meet(&mut pass, &mut sighter);
    Some((pass, end == ends && sink.bytes() == written))
}

/// The first load: that of the tree of files.
pub(crate) fn loaded(alloc: Global) -> Option<Loaded> {
    let root = Text::try_from_bytes(alloc, ROOT.as_bytes()).ok()?;
    let mut tree = tree(alloc, Vec::new(alloc)).ok()?;
    load(alloc, &mut tree, &root).ok()
}

/// A source of the handshake and of the check, of which a read takes 40 bytes.
fn source(alloc: Global) -> Result<ByteSource, NoMemory> {
    let mut bytes = Vec::new(alloc);
    bytes.extend_from_slice(SHAKE_ALICE)?;
    bytes.extend_from_slice(CHECK_YES)?;
    Ok(ByteSource::new(bytes, 40, Vec::new(alloc)))
}

/// Sights that give this sighting.
fn sights(alloc: Global, sighted: Sighted) -> Result<ListSights, NoMemory> {
    let mut sightings = List::new(alloc);
    sightings.try_push(sighted)?;
    Ok(ListSights::new(sightings))
}
