// When loads come, and the Stop.
ghost use Rattle.std.specs.Prelude.{◌≡◌, ◌==◌, ◌&&◌, ◌∷◌, [], if◌then◌else◌, List, IfSome, IsTrue, Some, is_some, not, slice_get};
ghost use Rattle.authority_model.specs.declared.journal.Item.{Item};
ghost use Rattle.journal_scan.specs.declared.lines.ConnectionLine.{ConnectionLine as TheLine};
ghost use Rattle.authority_model.specs.Items.{is_load};
ghost use Rattle.journal_scan.specs.Lines.{uid_on};
ghost use Rattle.journal_scan.specs.Loading.{IsDue, ends_load, is_failed_load, is_stop, wanted_by};
ghost use Rattle.journal_scan.specs.Orderly.{EachItem};
ghost use Rattle.journal_scan.specs.Sightings.{IsSighting};
ghost use Rattle.journal_scan.specs.Standing.{IsPaired, loading_of, totals_in};

use crate::counts::Totals;
use crate::sightings::lacks_one;
use authority_model::{Entry, Event, Loaded, Message};

/// What is kept of all entries.
#[derive(Clone, Copy)]
pub(crate) struct Loading {
    /// The moment of the last entry, or 0.
    pub(crate) last: u64,
    pub(crate) entries: u64,
    /// The Load entries.
    pub(crate) loads: u64,
    /// Those among them that are not the loader's.
    pub(crate) unlisted: u64,
    /// The LoadFailed entries.
    pub(crate) refused: u64,
    /// The Load and the LoadFailed entries of the loader.
    pub(crate) ended: u64,
    /// The LoadWanted that were sent.
    pub(crate) asked: u64,
    /// Those that were sent before the Stop.
    pub(crate) due: u64,
    /// Whether there was a Stop.
    pub(crate) stopped: bool,
}

/// Whether an event is a Load.
fn is_load(event: &Event) -> bool
    ensures load { result ≡ is_load event.now }
{
    matches!(event, Event::Load { .. })
}

/// Whether an event is a LoadFailed.
fn is_failed_load(event: &Event) -> bool
    ensures failed { result ≡ is_failed_load event.now }
{
    matches!(event, Event::LoadFailed { .. })
}

/// Whether an entry ends a load of the loader.
fn ends_wanted(entry: &Entry) -> bool
    ensures ends { result ≡ (ends_load entry.now.event && (entry.now.caller == 0)) }
{
    matches!(entry.event, Event::Load { .. } | Event::LoadFailed { .. }) && entry.caller == 0
}

/// Whether an entry is a Load that is not the loader's.
fn is_unlisting(entry: &Entry) -> bool
    ensures unlisting { result ≡ (is_load entry.now.event && not (entry.now.caller == 0)) }
{
    is_load(&entry.event) && entry.caller != 0
}

/// Whether an event is a Stop.
fn is_stop(event: &Event) -> bool
    ensures stop { result ≡ is_stop event.now }
{
    matches!(event, Event::Stop)
}

/// How many LoadWanted an entry sends.
fn wanted_by(entry: &Entry) -> u64
    ensures wanted { (i : Item) → i.entry ≡ entry.now → result ≡ wanted_by i }
{
    let sent = entry.outputs.as_slice().iter();
    sent.filter(|output| matches!(output.message, Message::LoadWanted))
        .count() as u64
}

/// The load in this place, counted from 0.
fn load_at(loads: &[Loaded], at: u64) -> Option<&Loaded>
    ensures load { IfSome result (λ load. slice_get loads.now at ≡ Some load.now) }
{
    loads.get(at as usize)
}

impl Loading {
    /// Of no entries.
    pub(crate) const START: Loading = Loading {
        last: 0,
        entries: 0,
        loads: 0,
        unlisted: 0,
        refused: 0,
        ended: 0,
        asked: 0,
        due: 0,
        stopped: false,
    };

    /// Whether the next entry is due here, whose caller has a line or not.
    fn is_due(&self, entry: &Entry, lined: bool) -> bool
        ensures due { IsTrue result → (lines : List TheLine) (past : List Item) (i : Item) → i.entry ≡ entry.now
            → self.now ≡ loading_of past
            → lined ≡ is_some (uid_on lines entry.now.caller)
            → IsDue lines past i }
    {
        let begins = self.entries > 0
            || (is_load(&entry.event) && entry.caller == 0 && entry.moment == 0);
        let keeps = lined || entry.moment == self.last;
        let ends = ends_wanted(entry);
        begins
            && keeps
            && (!ends || self.ended <= self.asked)
            && !(is_stop(&entry.event) && self.stopped)
    }

    /// How many of these LoadWanted are sent before the Stop.
    fn due_of(&self, wanted: u64) -> u64
        ensures due { result ≡ (if self.now.stopped then 0 else wanted) }
    {
        if self.stopped { 0 } else { wanted }
    }

    /// What is kept after the next entry, and `None` where a count is too great.
    fn after(&self, entry: &Entry) -> Option<Loading>
        ensures after { IfSome result (λ next. (past : List Item) (i : Item) → i.entry ≡ entry.now → self.now ≡ loading_of past → next ≡ loading_of (i ∷ past)) }
    {
        let load = u64::from(is_load(&entry.event));
        let unlisting = u64::from(is_unlisting(entry));
        let failed = u64::from(is_failed_load(&entry.event));
        let ended = u64::from(ends_wanted(entry));
        let wanted = wanted_by(entry);
        let due = self.due_of(wanted);
        let stopped = self.stopped | is_stop(&entry.event);
        Some(Loading {
            last: entry.moment,
            entries: self.entries.checked_add(1)?,
            loads: self.loads.checked_add(load)?,
            unlisted: self.unlisted.checked_add(unlisting)?,
            refused: self.refused.checked_add(failed)?,
            ended: self.ended.checked_add(ended)?,
            asked: self.asked.checked_add(wanted)?,
            due: self.due.checked_add(due)?,
            stopped,
        })
    }

    /// Takes the next entry, whose caller has a line or not. It has to be due here.
    pub(crate) fn enter(&mut self, entry: &Entry, lined: bool) -> bool
        ensures due { IsTrue result → (lines : List TheLine) (past : List Item) (i : Item) → i.entry ≡ entry.now
            → self.old ≡ loading_of past
            → lined ≡ is_some (uid_on lines entry.now.caller)
            → IsDue lines past i × (self.new ≡ loading_of (i ∷ past)) }
    {
        let due = self.is_due(entry, lined);
        match self.after(entry) {
            Some(next) => *self = next,
            None => return false,
        }
        due
    }

    /// Whether the next entry is a sighting, where these are all loads by their numbers.
    pub(crate) fn is_sighting(&self, entry: &Entry, loads: &[Loaded]) -> bool
        ensures sighting { IsTrue result → (past : List Item) (i : Item) → i.entry ≡ entry.now
            → self.now ≡ loading_of past
            → EachItem (IsPaired loads.now) (i ∷ past)
            → IsSighting past i }
    {
        if !is_unlisting(entry) {
            return false;
        }
        let Some(last) = self.loads.checked_sub(1) else {
            return false;
        };
        match (load_at(loads, last), load_at(loads, self.loads)) {
            (Some(before), Some(after)) => lacks_one(before, after),
            _ => false,
        }
    }

    /// What is counted of all entries.
    pub(crate) fn totals(&self) -> Totals
        ensures totals { result ≡ totals_in self.now }
    {
        Totals {
            entries: self.entries,
            loads: self.loads,
            unlisted: self.unlisted,
            refused: self.refused,
            wanted: self.due,
        }
    }
}
