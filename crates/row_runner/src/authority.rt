// An authority: the audit text of its journal after the lines of a scenario. Where it is refused memory
// its journal is compared with the one before, and the same is handed in once more.
ghost use Rattle.authority_model.specs.Given.{IsStepped};

use crate::drafts::{empty_draft, load_draft, take_line};
use crate::row::{Row, Wrong};
use crate::words::words;
use audit_text::write;
use authority_core::{Authority, CollectStepRefused, Fullness, Halt, UnlistRefused};
use authority_model::{Event, Limits, Loaded, MAX_BYTES, MAX_ENTRIES};
use memory_outside::ByteSink;
use pk_types::{cut, lines};
use scenario_run::{NoFile, ScenarioRun};
use scenario_text::{Step, read_line};

/// The greatest moment: 2^62.
const LAST_MOMENT: u64 = 4_611_686_018_427_387_904;

/// The greatest number of bytes of an audit text.
const MAX_TEXT: usize = 1 << 16;

/// An authority, the drafts of its loads, and the moment of the next event.
#[derive(Drop)]
struct AuthorityRun {
    drafts: ScenarioRun<NoFile>,
    authority: Authority,
    moment: u64,
}

/// The audit text of the journal of an authority.
fn journal_text(row: &mut Row, authority: &Authority) -> Option<ByteSink> {
    let Ok(mut text) = ByteSink::new(row.alloc, MAX_TEXT, MAX_TEXT, Vec::new(row.alloc)) else {
        row.mark(Wrong::NoMemory);
        return None;
    };
    match write(row.alloc, authority.history(), &mut text) {
        Ok(()) => Some(text),
        Err(_) => {
            row.mark(Wrong::NoMemory);
            None
        }
    }
}

/// Tells that the journal is full, and its entries and counted bytes.
fn tell_full(row: &mut Row, full: Fullness) {
    row.word("JournalFull");
    row.show(&full.entries);
    row.show(&full.bytes);
}

impl AuthorityRun {
    fn start(row: &mut Row, entries: u64) -> Option<AuthorityRun> {
        let drafts = empty_draft(row)?;
        let limits = Limits {
            entries: entries.min(MAX_ENTRIES),
            bytes: MAX_BYTES,
        };
        match Authority::start(row.alloc, limits) {
            Ok(authority) => Some(AuthorityRun {
                drafts,
                authority,
                moment: 0,
            }),
            Err(_) => {
                row.mark(Wrong::NoMemory);
                None
            }
        }
    }

    /// Tells that memory was refused, and whether the journal is as before.
    fn tell_refused(&self, row: &mut Row, before: &ByteSink) {
        let Some(after) = journal_text(row, &self.authority) else {
            return;
        };
        if after.bytes() == before.bytes() {
            row.word("refused same");
        } else {
            row.word("refused changed");
        }
    }

    fn load_again(&mut self, row: &mut Row, loaded: Loaded) {
        match self.authority.load(0, self.moment.min(LAST_MOMENT), loaded) {
            Ok(_) => {}
            Err(_) => row.mark(Wrong::NoMemory),
        }
    }

    fn load(&mut self, row: &mut Row) {
        let Some(loaded) = load_draft(row, &mut self.drafts) else {
            return;
        };
        let Some(before) = journal_text(row, &self.authority) else {
            return;
        };
        match self.authority.load(0, self.moment.min(LAST_MOMENT), loaded) {
            Ok(_) => {}
            Err(refused) => match refused.into_parts() {
                (Halt::NoMemory, loaded) => {
                    self.tell_refused(row, &before);
                    self.load_again(row, loaded);
                }
                (Halt::Full(full), _) => tell_full(row, full),
            },
        }
    }

    fn step_again(&mut self, row: &mut Row, caller: u32, event: Event)
        requires { IsStepped event }
    {
        match self
            .authority
            .step(caller, self.moment.min(LAST_MOMENT), 0, event)
        {
            Ok(_) => {}
            Err(_) => row.mark(Wrong::NoMemory),
        }
    }

    fn step(&mut self, row: &mut Row, caller: u32, event: Event)
        requires { IsStepped event }
    {
        let Some(before) = journal_text(row, &self.authority) else {
            return;
        };
        match self
            .authority
            .step(caller, self.moment.min(LAST_MOMENT), 0, event)
        {
            Ok(_) => {}
            Err(refused) => match refused.into_parts() {
                (Halt::NoMemory, event) => {
                    self.tell_refused(row, &before);
                    self.step_again(row, caller, event);
                }
                (Halt::Full(full), _) => tell_full(row, full),
            },
        }
    }

    /// Submits an event. The draft is loaded first, if nothing came before.
    fn act(&mut self, row: &mut Row, caller: u32, event: Event)
        requires { IsStepped event }
    {
        if self.authority.entry(0).is_none() {
            self.load(row);
        }
        self.step(row, caller, event);
    }

    /// Does what a line of a scenario says.
    fn play(&mut self, row: &mut Row, line: &[u8]) {
        match read_line(row.alloc, line, 0) {
            Ok(Step::At { t }) => self.moment = t,
            Ok(Step::Reload) => self.load(row),
            Ok(Step::Act { caller, event }) => self.act(row, caller, event),
            Ok(_) => take_line(row, &mut self.drafts, line),
            Err(fault) => row.refuse(&fault),
        }
    }

    /// Collects what may be collected, and tells how many outputs these are.
    fn collect_once(&mut self, row: &mut Row, by: u32, of: u32) -> Result<(), CollectStepRefused> {
        if self.authority.ready(by, of) {
            let batch = self.authority.collect(by, of)?;
            row.field("outputs", &batch.outputs.len());
        }
        Ok(())
    }

    fn collect(&mut self, row: &mut Row, by: u32, of: u32) {
        let Some(before) = journal_text(row, &self.authority) else {
            return;
        };
        if self.collect_once(row, by, of).is_ok() {
            return;
        }
        self.tell_refused(row, &before);
        if self.collect_once(row, by, of).is_err() {
            row.mark(Wrong::NoMemory);
        }
    }

    /// Takes a process out of the last load, and tells whether this load has it.
    fn unlist_once(&mut self, row: &mut Row, by: u32, pid: u32, start: u64) -> bool {
        match self
            .authority
            .unlist(by, self.moment.min(LAST_MOMENT), pid, start)
        {
            Ok(_) => true,
            Err(UnlistRefused::NotListed) => {
                row.word("NotListed");
                true
            }
            Err(_) => false,
        }
    }

    fn unlist(&mut self, row: &mut Row, by: u32, pid: u32, start: u64) {
        let Some(before) = journal_text(row, &self.authority) else {
            return;
        };
        if self.unlist_once(row, by, pid, start) {
            return;
        }
        self.tell_refused(row, &before);
        if !self.unlist_once(row, by, pid, start) {
            row.mark(Wrong::NoMemory);
        }
    }

    /// Does what a line says that is none of a scenario.
    fn call(&mut self, row: &mut Row, asked: &mut Row) {
        match asked.bytes() {
            b"collect" => {
                let by = asked.number_32();
                let of = asked.number_32();
                self.collect(row, by, of);
            }
            b"unlist" => {
                let by = asked.number_32();
                let pid = asked.number_32();
                let start = asked.number(u64::MAX);
                self.unlist(row, by, pid, start);
            }
            b"counts" => row.show(&self.authority.desk().counts()),
            _ => asked.mark(Wrong::Call),
        }
    }

    fn take(&mut self, row: &mut Row, line: &[u8]) {
        let Some((b"?", call)) = cut(line, b' ') else {
            return self.play(row, line);
        };
        let Ok(Some(words)) = words(row.alloc, call) else {
            return row.mark(Wrong::Quotes);
        };
        let mut asked = Row::new(row.alloc, words.as_slice());
        self.call(row, &mut asked);
        let wrong = asked.finish();
        if !wrong.is_empty() {
            row.word(wrong.as_str());
        }
    }
}

/// `authority ENTRIES LINES`: the audit text of the journal of an authority after the lines of a scenario,
/// where the journal takes so many entries. Among the lines may stand `? collect BY N`, which tells how many
/// outputs it collects, `? unlist BY PID START`, and `? counts`, which tells how many of each kind there are.
///
/// Where the authority is refused memory, `refused` comes before, and whether its journal was the `same`.
pub fn authority(row: &mut Row) {
    let entries = row.number(MAX_ENTRIES);
    let Ok(lines) = lines(row.alloc, row.bytes()) else {
        return row.mark(Wrong::NoMemory);
    };
    let Some(mut run) = AuthorityRun::start(row, entries) else {
        return;
    };
    for line in lines.as_slice() {
        run.take(row, *line);
    }
    if let Some(text) = journal_text(row, &run.authority) {
        row.quote(text.bytes());
    }
}
