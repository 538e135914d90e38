// The audit of a journal.
ghost use Rattle.std.specs.Prelude.{◌≡◌, ◌+◌, [], List, IfOk, OnOk};
ghost use Rattle.std.specs.Option.{option_copied};
ghost use Rattle.authority_model.specs.declared.journal.Item.{Item};
ghost use Rattle.authority_model.specs.Items.{empty_loaded};
ghost use Rattle.journal_audit.specs.Fault.{Finds, yes_among};
ghost use Rattle.journal_audit.specs.Steps.{IsAt, IsAtOne, StepsOver, finding_of, in_force_by, item_with, loads_behind};

use crate::clause::Clause;
use crate::next_load::next_load;
use crate::stepping::{in_force_after, turn};
use crate::yes::yes_after;
use authority_model::{Entry, History, Loaded};
use pk_types::NoMemory;
use plain_lists::PlainLists;
use std::alloc::Global;

/// What an audit finds of a journal.
#[derive(Clone, Copy, Debug, PartialEq, Eq)]
pub enum Finding {
    /// Each entry is as it must be, and each yes is licensed.
    Accepted {
        /// How many entries there are.
        entries: u64,
        /// How many yes verdicts were sent.
        yes: u64,
    },
    /// This entry, counted from 0, is the first faulty one.
    Faulty {
        entry: u64,
        /// What it breaks first.
        clause: Clause,
    },
}

/// An audit that has come to some entry.
#[derive(Drop)]
pub struct Auditor<'a> {
    alloc: Global,
    lists: PlainLists,
    /// The load in force.
    loaded: &'a Loaded,
    /// The loads that no entry has named yet.
    left: &'a [Loaded],
    /// How many yes verdicts were sent.
    yes: u64,
}

impl<'a> Auditor<'a> {
    /// An audit before the first entry, with load 0 in force.
    fn start(alloc: Global, nothing: &'a Loaded, loads: &'a [Loaded]) -> Self
        requires nothing { nothing.now ≡ empty_loaded }
        ensures start { IsAt [] result }
        ensures left { result.left.now ≡ loads.now }
    {
        Auditor {
            alloc,
            lists: PlainLists::start(alloc),
            loaded: nothing,
            left: loads,
            yes: 0,
        }
    }

    /// Goes on behind an entry with this load, or with none, after which these loads are left.
    fn advance(
        &mut self,
        entry: &Entry,
        loaded: Option<&'a Loaded>,
        left: &'a [Loaded],
    ) -> Result<(), NoMemory>
        ensures lists { self.new.lists ≡ self.old.lists }
        ensures loaded { OnOk result (self.new.loaded.now ≡ in_force_by (option_copied loaded.entry) self.old.loaded.now) }
        ensures left { OnOk result (self.new.left.now ≡ left.now) }
        ensures yes { OnOk result (self.new.yes ≡ self.old.yes + yes_among entry.now.outputs) }
    {
        let Some(yes) = yes_after(self.yes, entry.outputs.as_slice()) else {
            return Err(NoMemory);
        };
        self.yes = yes;
        self.loaded = in_force_after(loaded, self.loaded);
        self.left = left;
        Ok(())
    }

    /// Judges the next entry. The answer is the first clause that it breaks.
    fn step(&mut self, entry: &Entry) -> Result<Option<Clause>, NoMemory>
        requires one { IsAtOne self.old }
        ensures step { (past : List Item) → IsAt past self.old
            → IfOk result (StepsOver past (item_with entry.now self.old.left.now) (loads_behind entry.now.event self.old.left.now) self.new) }
    {
        let (loaded, left) = next_load(self.left, &entry.event);
        let broken = turn(self.alloc, &mut self.lists, self.loaded, entry, loaded)?;
        match broken {
            Some(clause) => Ok(Some(clause)),
            None => {
                self.advance(entry, loaded, left)?;
                Ok(None)
            }
        }
    }

    /// What is found where no entry of so many is faulty.
    fn end(&self, entries: u64) -> Finding
        ensures finding { result ≡ finding_of self.now entries }
    {
        if self.left.is_empty() {
            Finding::Accepted {
                entries,
                yes: self.yes,
            }
        } else {
            Finding::Faulty {
                entry: entries,
                clause: Clause::Loads,
            }
        }
    }
}

/// Audits a journal: goes through its entries, and finds the first faulty one, or that there is none
/// and that all loads are named.
///
/// # Errors
/// `NoMemory`.
pub fn audit(alloc: Global, history: &History) -> Result<Finding, NoMemory>
    ensures finds { IfOk result (Finds history.now) }
{
    let nothing = Loaded::empty(alloc);
    let entries = history.entries.as_slice();
    let mut audit = Auditor::start(alloc, &nothing, history.loads.as_slice());
    for (place, entry) in entries.iter().enumerate() {
        if let Some(clause) = audit.step(entry)? {
            return Ok(Finding::Faulty {
                entry: place as u64,
                clause,
            });
        }
    }
    Ok(audit.end(entries.len() as u64))
}
