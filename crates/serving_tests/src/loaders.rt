// The loader in one thread: loads before the Stop, a load that is refused, and a full journal.
ghost use Rattle.std.specs.Prelude.{◌≡◌, []};
ghost use Rattle.authority_model.specs.Entering.{AreAllowed};
ghost use Rattle.authority_model.specs.Given.{IsStepped};

use crate::passes::{close, is_entered};
use authority_model::{Call, Event, Limits, Loaded, MAX_BYTES};
use history_lock::{EndCause, Opened, Pass, TableName, open_table};
use memory_outside::ListTree;
use pk_types::{List, Text};
use serve_loader::{LoaderEnd, serve_loader};
use shared_authority::{Kept, LimitsName, Shared};
use std::alloc::Global;
use std::marker::Brand;
use std::sync::Wait;
use std::test::Fail;
use std::thread::Threads;
use test_parts::begin;

/// Room for the five entries before the loader's first.
const FIVE_ENTRIES: Limits = Limits {
    entries: 5,
    bytes: MAX_BYTES,
};

/// Such a journal counts 64 bytes for each entry and 64 for each output: of a Reload Done and
/// LoadWanted, and of the Stop StopWanted.
const FULL: LoaderEnd = LoaderEnd::Ended {
    cause: EndCause::JournalFull {
        entries: 5,
        bytes: 640,
    },
};

#[test]
fn loads_once_for_each_that_is_wanted(rt: HostRuntime) {
    let alloc = rt.alloc();
    let mut tree = ListTree::empty(alloc);
    let came = name_run::<Brand, _>(&rt, alloc, Limits::GREATEST, &mut tree);
    assert_eq!(rt; came, Some((LoaderEnd::Stopped, 3, 0)));
}

#[test]
fn tells_the_code_of_a_refused_load(rt: HostRuntime) -> Result<(), Fail> {
    let alloc = rt.alloc();
    let failing = vec![in alloc; 1]?;
    let mut tree = ListTree::new(alloc, List::new(alloc), List::new(alloc), failing);
    let came = name_run::<Brand, _>(&rt, alloc, Limits::GREATEST, &mut tree);
    assert_eq!(rt; came, Some((LoaderEnd::Stopped, 2, 1)));
    Ok(())
}

#[test]
fn ends_where_the_journal_is_full(rt: HostRuntime) {
    let alloc = rt.alloc();
    let mut tree = ListTree::empty(alloc);
    let came = name_run::<Brand, _>(&rt, alloc, FIVE_ENTRIES, &mut tree);
    assert_eq!(rt; came, Some((FULL, 1, 0)));
}

/// How a loader ended, and how many Loads and LoadFaileds the journal has.
type Came = (LoaderEnd, usize, usize);

fn name_run<L: LimitsName + Send + Sync, R: Threads + Wait + Sync>(
    rt: &R,
    alloc: Global,
    limits: Limits,
    tree: &mut ListTree,
) -> Option<Came>
    requires allowed { AreAllowed limits }
    requires limits { limits ≡ L.limits }
{
    let opened = open_table::<Kept<L>>(alloc).ok()?;
    run_loader::<L, Brand, R>(rt, alloc, limits, tree, opened)
}

/// What comes of a loader, once the journal is closed. None where memory or an entry before the
/// loader's is refused.
fn run_loader<L: LimitsName + Send + Sync, T: TableName + Send + Sync, R: Threads + Wait + Sync>(
    rt: &R,
    alloc: Global,
    limits: Limits,
    tree: &mut ListTree,
    opened: Opened<Kept<L>>,
) -> Option<Came>
    requires allowed { AreAllowed limits }
    requires limits { limits ≡ L.limits }
    requires table { opened ≡ T.table }
{
    let (shared, mut zero) = Shared::<L, T>::start(alloc, limits, opened).ok()?;
    let end = load_as_asked(rt, alloc, &shared, &mut zero, tree)?;
    let counts = close(shared, zero);
    Some((end, counts.loads, counts.refused))
}

/// A first load, a connection of root that asks for two more, the Stop, and then the loader.
fn load_as_asked<L: LimitsName + Send + Sync, T: TableName + Send + Sync, R: Threads + Wait + Sync>(
    rt: &R,
    alloc: Global,
    shared: &Shared<L, T>,
    zero: &mut Pass<Kept<L>, T>,
    tree: &mut ListTree,
) -> Option<LoaderEnd>
    requires zero { zero.old.number ≡ 0 }
    requires empty { zero.old.history ≡ [] }
{
    let root = Text::try_from_bytes(alloc, b"/r").ok()?;
    let mut one = begin(rt, shared, zero, Loaded::empty(alloc))?;
    if !asks_for_loads(rt, shared, &mut one) {
        return None;
    }
    Some(serve_loader(rt, alloc, shared, zero, &root, tree))
}

/// Enters a connection of root, two Reloads and the Stop, and answers whether all were entered.
fn asks_for_loads<L: LimitsName, T: TableName, R: Wait>(
    rt: &R,
    shared: &Shared<L, T>,
    one: &mut Pass<Kept<L>, T>,
) -> bool {
    is_entered(rt, shared, one, Event::Connect { uid: 0 })
        && is_entered(rt, shared, one, reload(1))
        && is_entered(rt, shared, one, reload(2))
        && is_entered(rt, shared, one, Event::Stop)
}

fn reload(serial: u32) -> Event
    ensures { IsStepped result }
{
    Event::Call {
        serial,
        quiet: false,
        call: Call::Reload,
    }
}
