// The counts of the printed lines.
ghost use Rattle.std.specs.Prelude.{◌≡◌, ◌<◌, ◌≤◌, ℕ, ◌∷◌, ◌==◌, if◌then◌else◌, IfOk, IfSome, IsTrue, List, [], length};
ghost use Rattle.authority_model.specs.declared.journal.Item.{Item};
ghost use Rattle.authority_model.specs.Items.{count_to, sent};
ghost use Rattle.journal_scan.specs.declared.counts.Tally.{Tally as TheTally};
ghost use Rattle.journal_scan.specs.Counts.{is_message, messages_of, tally_of};
ghost use Rattle.journal_scan.specs.Standing.{with_answers};
ghost use Rattle.journal_scan.specs.Tables.{IsTable};

use authority_model::{Entry, Event, Output};
use pk_types::NoMemory;
use std::alloc::Global;

/// How many numbers a connection may have: the greatest count of passes.
pub const PLACES: usize = 1_048_576;

/// What is counted of a connection.
#[derive(Clone, Copy, Debug, PartialEq, Eq)]
pub struct Tally {
    /// Its entries other than Connect and Depart.
    pub messages: u64,
    /// The outputs to it.
    pub answers: u64,
}

impl Tally {
    /// Of a connection without entries and outputs.
    pub(crate) const NOTHING: Tally = Tally {
        messages: 0,
        answers: 0,
    };
}

/// What is counted of all entries.
#[derive(Clone, Copy, Debug, PartialEq, Eq)]
pub struct Totals {
    pub entries: u64,
    /// The Load entries.
    pub loads: u64,
    /// Those among them that are not the loader's: each takes one process out of the load before it.
    pub unlisted: u64,
    /// The LoadFailed entries.
    pub refused: u64,
    /// The LoadWanted that were sent before the Stop.
    pub wanted: u64,
}

/// The counts of a journal.
#[derive(Drop)]
pub struct Counts {
    /// Of each connection, by its number.
    pub tallies: Vec<Tally>,
    pub totals: Totals,
}

/// What is counted of each connection so far, by its number.
#[derive(Drop)]
pub(crate) struct Tallies {
    pub(crate) rows: Vec<Tally>,
}

/// Whether an event came by a message of a connection.
fn is_message(event: &Event) -> bool
    ensures message { result ≡ is_message event.now }
{
    !matches!(event, Event::Connect { .. } | Event::Depart)
}

impl Tallies {
    /// Of no entries, for so many numbers.
    pub(crate) fn new(alloc: Global, size: usize) -> Result<Tallies, NoMemory>
        ensures empty { IfOk result (λ tallies. IsTable size (λ c tally. tally ≡ tally_of [] c) tallies.rows.items) }
    {
        let rows = vec![in alloc; Tally::NOTHING; size]?;
        Ok(Tallies { rows })
    }

    /// How many outputs to a connection were counted, and `None` of one without a row.
    pub(crate) fn answers(&self, number: u32) -> Option<u64>
        ensures answers { IfSome result (λ answers. (size : ℕ) (past : List Item) → IsTable size (λ c tally. tally ≡ tally_of past c) self.now.rows.items → answers ≡ sent past number) }
    {
        let at = number as usize;
        if at >= self.rows.len() {
            return None;
        }
        Some(self.rows[at].answers)
    }

    /// Counts an output. One to a number without a row is refused.
    fn count_output(&mut self, to: u32) -> bool
        ensures within { IsTrue result → to < length self.old.rows.items }
        ensures sized { length self.new.rows.items ≡ length self.old.rows.items }
        ensures counted { IsTrue result → (size : ℕ) (f : ℕ → TheTally) → IsTable size (λ c tally. tally ≡ f c) self.old.rows.items → IsTable size (λ c tally. tally ≡ with_answers (f c) (if to == c then 1 else 0)) self.new.rows.items }
    {
        let at = to as usize;
        if at >= self.rows.len() {
            return false;
        }
        match self.rows[at].answers.checked_add(1) {
            Some(answers) => self.rows[at].answers = answers,
            None => return false,
        }
        true
    }

    /// Counts outputs. Each has to be to a number with a row.
    fn count_outputs(&mut self, outputs: &[Output]) -> bool
        ensures within { IsTrue result → (c : ℕ) → length self.old.rows.items ≤ c → count_to c outputs.now ≡ 0 }
        ensures counted { IsTrue result → (size : ℕ) (f : ℕ → TheTally) → IsTable size (λ c tally. tally ≡ f c) self.old.rows.items → IsTable size (λ c tally. tally ≡ with_answers (f c) (count_to c outputs.now)) self.new.rows.items }
    {
        for output in outputs {
            if !self.count_output(output.to) {
                return false;
            }
        }
        true
    }

    /// Counts the event of a caller.
    fn count_event(&mut self, caller: u32, event: &Event) -> bool
        ensures sized { length self.new.rows.items ≡ length self.old.rows.items }
        ensures counted { IsTrue result → (size : ℕ) (past : List Item) (i : Item) → i.entry.caller ≡ caller
            → i.entry.event ≡ event.now
            → IsTable size (λ c tally. tally ≡ tally_of past c) self.old.rows.items
            → IsTable size (λ c tally. tally ≡ record { messages = messages_of (i ∷ past) c; answers = sent past c }) self.new.rows.items }
    {
        let at = caller as usize;
        if at >= self.rows.len() || !is_message(event) {
            return true;
        }
        match self.rows[at].messages.checked_add(1) {
            Some(messages) => self.rows[at].messages = messages,
            None => return false,
        }
        true
    }

    /// Counts the next entry. Each of its outputs has to be to a number with a row.
    pub(crate) fn enter(&mut self, entry: &Entry) -> bool
        ensures within { IsTrue result → (c : ℕ) → length self.old.rows.items ≤ c → count_to c entry.now.outputs ≡ 0 }
        ensures counted { IsTrue result → (size : ℕ) (past : List Item) (i : Item) → i.entry ≡ entry.now
            → IsTable size (λ c tally. tally ≡ tally_of past c) self.old.rows.items
            → IsTable size (λ c tally. tally ≡ tally_of (i ∷ past) c) self.new.rows.items }
    {
        if !self.count_event(entry.caller, &entry.event) {
            return false;
        }
        self.count_outputs(entry.outputs.as_slice())
    }
}
