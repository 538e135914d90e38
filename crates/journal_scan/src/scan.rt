// The walk over a journal.
ghost use Rattle.std.specs.Prelude.{◌≡◌, ◌≤◌, ℕ, ◌∷◌, [], List, IfOk, IfSome, IsTrue};
ghost use Rattle.authority_model.specs.declared.journal.Item.{Item};
ghost use Rattle.authority_model.specs.Items.{items_of};
ghost use Rattle.journal_scan.specs.declared.lines.ConnectionLine.{ConnectionLine as TheLine};
ghost use Rattle.journal_scan.specs.Orderly.{AreCounts, EachItem, HaveRows, IsOrderly};
ghost use Rattle.journal_scan.specs.Standing.{IsPaired, Stands};

use crate::callers::Callers;
use crate::collects::Collects;
use crate::counts::{Counts, PLACES, Tallies};
use crate::lines::ConnectionLine;
use crate::loading::Loading;
use authority_model::{Entry, History, Loaded};
use pk_types::NoMemory;
use std::alloc::Global;

/// What is kept of the entries so far.
#[derive(Drop)]
pub(crate) struct Scan {
    pub(crate) callers: Callers,
    pub(crate) loading: Loading,
    pub(crate) collects: Collects,
    pub(crate) tallies: Tallies,
}

impl Scan {
    ghost use Rattle.journal_scan.specs.Standing.{Stands};

    /// Takes the next entry, where these are all loads by their numbers.
    fn enter(&mut self, entry: &Entry, loads: &[Loaded]) -> bool
        ensures stands { IsTrue result → (size : ℕ) (lines : List TheLine) (past : List Item) (i : Item) → i.entry ≡ entry.now
            → EachItem (IsPaired loads.now) (i ∷ past)
            → Stands size lines past self.old
            → Stands size lines (i ∷ past) self.new }
    {
        let sighting = self.loading.is_sighting(entry, loads);
        if !self.callers.enter(entry, sighting) {
            return false;
        }
        let lined = self.callers.has_line(entry.caller);
        if !self.loading.enter(entry, lined) {
            return false;
        }
        if !self.collects.enter(entry, &self.tallies) {
            return false;
        }
        self.tallies.enter(entry)
    }

    /// Takes all entries of a journal, from the first to the last.
    fn walk(&mut self, history: &History) -> bool
        ensures stands { IsTrue result → (size : ℕ) (lines : List TheLine) → Stands size lines [] self.old → Stands size lines (items_of history.now) self.new }
    {
        let entries = history.entries.as_slice();
        let loads = history.loads.as_slice();
        for entry in entries {
            if !self.enter(entry, loads) {
                return false;
            }
        }
        true
    }
}

/// How many numbers have rows: all up to the greatest of a line, of a sighter or of a caller.
fn size_for(history: &History, lines: &[ConnectionLine]) -> usize
    ensures few { result ≤ PLACES }
{
    let of_lines = lines.iter().map(|line| line.greatest()).max().unwrap_or(0);
    let entries = history.entries.as_slice();
    let of_callers = entries.iter().map(|entry| entry.caller).max().unwrap_or(0);
    (of_lines.max(of_callers) as usize + 1).min(PLACES)
}

/// Looks whether a closed journal is orderly for its `connection` lines, and counts what the printed
/// lines tell. Its time is linear in the entries, the outputs, the lines and the loads of sighters, and
/// its memory in the greatest number of a caller.
///
/// `None` is a journal or a list of lines in which one of the facts was not found. (Besides, it is one
/// of a caller or a sighter at or above `PLACES`, one with an output to a number above each line's,
/// each sighter's and each caller's, one whose callers collect of more than one connection each, and
/// one whose counts do not fit 64 bits.)
pub fn scan_journal(
    alloc: Global,
    history: &History,
    lines: &[ConnectionLine],
) -> Result<Option<Counts>, NoMemory>
    ensures found { IfOk result (λ found. IfSome found (λ counts. IsOrderly lines.now (items_of history.now) × AreCounts (items_of history.now) counts × HaveRows lines.now counts)) }
{
    let size = size_for(history, lines);
    let mut callers = Callers::new(alloc, size)?;
    let collects = Collects::new(alloc, size)?;
    let tallies = Tallies::new(alloc, size)?;
    if !callers.mark_all(lines) {
        return Ok(None);
    }
    let mut scan = Scan {
        callers,
        loading: Loading::START,
        collects,
        tallies,
    };
    if !scan.walk(history) {
        return Ok(None);
    }
    let totals = scan.loading.totals();
    Ok(Some(Counts {
        tallies: scan.tallies.rows,
        totals,
    }))
}
