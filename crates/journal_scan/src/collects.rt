// Collects with an empty batch.
ghost use Rattle.std.specs.Prelude.{◌≡◌, ◌≢◌, ℕ, ◌∷◌, [], List, IfOk, IfSome, IsSome, IsTrue};
ghost use Rattle.authority_model.specs.declared.journal.Item.{Item};
ghost use Rattle.authority_model.specs.Items.{sent};
ghost use Rattle.journal_scan.specs.Collecting.{IsOnlyEmpty};
ghost use Rattle.journal_scan.specs.Counts.{tally_of};
ghost use Rattle.journal_scan.specs.Standing.{IsCollection, collected_in};
ghost use Rattle.journal_scan.specs.Tables.{IsTable};

use crate::counts::Tallies;
use authority_model::{Entry, Event};
use pk_types::NoMemory;
use std::alloc::Global;

/// What a caller has collected.
#[derive(Clone, Copy)]
pub(crate) struct Collection {
    /// The one connection of which it collects, if it has collected.
    pub(crate) of: Option<u32>,
    /// How many outputs to it there were at the last Collect.
    pub(crate) count: u64,
    /// Whether a Collect had an empty batch.
    pub(crate) ended: bool,
}

impl Collection {
    const NOTHING: Collection = Collection {
        of: None,
        count: 0,
        ended: false,
    };

    /// How many outputs to a connection were collected, and `None` where those to another one were.
    fn collected(&self, of: u32) -> Option<u64>
        ensures collected { IfSome result (λ count. count ≡ collected_in self.now.of self.now.count of) }
        ensures only { IsSome result → (y : ℕ) → of ≢ y → collected_in self.now.of self.now.count y ≡ 0 }
    {
        match self.of {
            None => Some(0),
            Some(other) => { if other == of { Some(self.count) } else { None } }
        }
    }

    /// What is known after a Collect of a connection to which so many outputs were sent, and `None`
    /// where the caller had an empty batch twice, or collects of two connections.
    fn after(&self, of: u32, outputs: u64) -> Option<Collection>
        ensures after { IfSome result (λ next. (past : List Item) (i : Item) → i.entry.event ≡ Event.Collect of
            → outputs ≡ sent past of
            → IsCollection past i.entry.caller self.now
            → IsOnlyEmpty past i × IsCollection (i ∷ past) i.entry.caller next) }
    {
        let count = self.collected(of)?;
        let empty = outputs <= count;
        if empty & self.ended {
            return None;
        }
        Some(Collection {
            of: Some(of),
            count: outputs,
            ended: self.ended | empty,
        })
    }
}

/// What each caller has collected, by its number.
#[derive(Drop)]
pub(crate) struct Collects {
    pub(crate) rows: Vec<Collection>,
}

impl Collects {
    /// Of no entries, for so many numbers.
    pub(crate) fn new(alloc: Global, size: usize) -> Result<Collects, NoMemory>
        ensures empty { IfOk result (λ collects. IsTable size (IsCollection []) collects.rows.items) }
    {
        let rows = vec![in alloc; Collection::NOTHING; size]?;
        Ok(Collects { rows })
    }

    /// Takes a Collect of a connection, to which there were these outputs. No caller may collect
    /// nothing twice.
    fn collect(&mut self, caller: u32, of: u32, outputs: u64) -> bool
        ensures only { IsTrue result → (size : ℕ) (past : List Item) (i : Item) → i.entry.caller ≡ caller
            → i.entry.event ≡ Event.Collect of
            → outputs ≡ sent past of
            → IsTable size (IsCollection past) self.old.rows.items
            → IsOnlyEmpty past i × IsTable size (IsCollection (i ∷ past)) self.new.rows.items }
    {
        let at = caller as usize;
        if at >= self.rows.len() {
            return false;
        }
        match self.rows[at].after(of, outputs) {
            Some(next) => self.rows[at] = next,
            None => return false,
        }
        true
    }

    /// Takes the next entry, before which there were these outputs. No caller may collect nothing
    /// twice.
    pub(crate) fn enter(&mut self, entry: &Entry, tallies: &Tallies) -> bool
        ensures only { IsTrue result → (size : ℕ) (past : List Item) (i : Item) → i.entry ≡ entry.now
            → IsTable size (λ c tally. tally ≡ tally_of past c) tallies.now.rows.items
            → IsTable size (IsCollection past) self.old.rows.items
            → IsOnlyEmpty past i × IsTable size (IsCollection (i ∷ past)) self.new.rows.items }
    {
        match entry.event {
            Event::Collect { of } => match tallies.answers(of) {
                Some(outputs) => self.collect(entry.caller, of, outputs),
                None => false,
            },
            _ => true,
        }
    }
}
