// What an entry breaks before it is answered.
ghost use Rattle.std.specs.Prelude.{◌≡◌, ◌↔◌, ◌≤◌, IsTrue};
ghost use Rattle.std.specs.Option.{option_copied};
ghost use Rattle.authority_model.specs.Legal.{IsNumbered};
ghost use Rattle.journal_audit.specs.Fault.{CollectsAt, KeepsMoment, KeepsSalt};
ghost use Rattle.journal_audit.specs.Steps.{Judged};

use crate::clause::Clause;
use authority_model::{Entry, Event, Loaded};
use journal_view::ViewCounts;

/// The greatest moment of an entry, in seconds: 2^62.
const LATEST: u64 = 4_611_686_018_427_387_904;

/// Whether a Load, after so many loads, names the next one, and it is there.
fn is_numbered(loads: u32, event: &Event, loaded: Option<&Loaded>) -> bool
    ensures numbered { IsTrue result ↔ IsNumbered loads event.now (option_copied loaded.entry) }
{
    match event {
        Event::Load { load } => loaded.is_some() && u64::from(*load) == u64::from(loads) + 1,
        _ => loaded.is_none(),
    }
}

/// Whether a Collect has the moment before it.
fn collects_at(before: u64, moment: u64, event: &Event) -> bool
    ensures at { IsTrue result ↔ CollectsAt before moment event.now }
{
    match event {
        Event::Collect { .. } => moment == before,
        _ => true,
    }
}

/// Whether the moment does not fall, and is at most 2^62, and that of a Collect is the one before it.
fn keeps_moment(before: u64, entry: &Entry) -> bool
    ensures keeps { IsTrue result ↔ KeepsMoment before entry.now }
{
    before <= entry.moment
        && entry.moment <= LATEST
        && collects_at(before, entry.moment, &entry.event)
}

/// Whether a Collect has the salt 0.
fn keeps_salt(entry: &Entry) -> bool
    ensures keeps { IsTrue result ↔ KeepsSalt entry.now }
{
    match entry.event {
        Event::Collect { .. } => entry.salt == 0,
        _ => true,
    }
}

/// What an entry breaks before it is answered, after a history of these counts.
pub fn judge(counts: ViewCounts, entry: &Entry, loaded: Option<&Loaded>) -> Option<Clause>
    ensures judged { Judged counts.loads counts.last_moment entry.now (option_copied loaded.entry) result }
{
    if !is_numbered(counts.loads, &entry.event, loaded) {
        Some(Clause::Load)
    } else if !keeps_moment(counts.last_moment, entry) {
        Some(Clause::Moment)
    } else if !keeps_salt(entry) {
        Some(Clause::Salt)
    } else {
        None
    }
}
