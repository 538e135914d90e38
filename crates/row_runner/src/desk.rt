// A desk: what it answers the lines of a scenario, and what its tables then tell. Where it is refused
// memory, what it counts is compared with what it counted before, and the same is handed in once more.
ghost use Rattle.authority_model.specs.Given.{IsStepped};

use crate::drafts::{empty_draft, load_draft, take_line};
use crate::questions::ask;
use crate::row::{Row, Wrong};
use crate::words::words;
use authority_desk::{Desk, DeskCounts, DeskLoadRefused, DeskNumbers, DeskRefused};
use authority_model::{Event, Loaded, Output};
use pk_types::{NoMemory, cut, lines};
use scenario_run::{NoFile, ScenarioRun};
use scenario_text::{Step, read_line};
use std::alloc::Global;

/// The greatest moment: 2^62.
const LAST_MOMENT: u64 = 4_611_686_018_427_387_904;

/// A desk, the drafts of its loads, and the lines that it answered.
#[derive(Drop)]
struct DeskRun {
    drafts: ScenarioRun<NoFile>,
    desk: Box<Desk>,
    moment: u64,
    answers: Vec<u8>,
}

/// How many outputs go to a connection.
fn count_to(outputs: &[Output], receiver: u32) -> u32 {
    let mut count = 0u32;
    for output in outputs {
        if output.to == receiver {
            count = count.saturating_add(1);
        }
    }
    count
}

/// A desk in a box, as the authority has it.
fn boxed(alloc: Global) -> Result<Box<Desk>, NoMemory> {
    Ok(Box::new(alloc, Desk::start(alloc)?)?)
}

impl DeskRun {
    fn start(row: &mut Row) -> Option<DeskRun> {
        let drafts = empty_draft(row)?;
        match boxed(row.alloc) {
            Ok(desk) => Some(DeskRun {
                drafts,
                desk,
                moment: 0,
                answers: Vec::new(row.alloc),
            }),
            Err(_) => {
                row.mark(Wrong::NoMemory);
                None
            }
        }
    }

    fn add(&mut self, row: &mut Row, bytes: &[u8]) {
        if self.answers.extend_from_slice(bytes).is_err() {
            row.mark(Wrong::NoMemory);
        }
    }

    fn add_output(&mut self, row: &mut Row, output: &Output, serial: u32) {
        match self.drafts.journal().answer(row.alloc, output, serial) {
            Ok(line) => self.add(row, line.as_slice()),
            Err(_) => row.mark(Wrong::NoMemory),
        }
    }

    /// Adds the lines of the outputs of the desk's last entry. The serial of an output is the count of
    /// those that its connection was sent, without those after it.
    fn add_outputs(&mut self, row: &mut Row, outputs: &[Output]) {
        let mut left = outputs;
        for _ in 0..outputs.len() {
            let [output, rest @ ..] = left else {
                break;
            };
            let sent = self.desk.as_ref().peers().sent_count(output.to);
            self.add_output(row, output, sent.saturating_sub(count_to(rest, output.to)));
            left = rest;
        }
    }

    /// What the desk counts.
    fn counted(&self) -> (DeskNumbers, DeskCounts) {
        (self.desk.as_ref().numbers(), self.desk.as_ref().counts())
    }

    /// Tells that memory was refused, and whether the desk counts what it did before.
    fn tell_refused(&self, row: &mut Row, before: (DeskNumbers, DeskCounts)) {
        if self.counted() == before {
            row.word("refused same");
        } else {
            row.word("refused changed");
        }
    }

    fn load_again(&mut self, row: &mut Row, loaded: Loaded) {
        match self
            .desk
            .as_mut()
            .load(0, self.moment.min(LAST_MOMENT), loaded)
        {
            Ok(entry) => self.add_outputs(row, entry.outputs.as_slice()),
            Err(_) => row.mark(Wrong::NoMemory),
        }
    }

    fn load(&mut self, row: &mut Row) {
        let Some(loaded) = load_draft(row, &mut self.drafts) else {
            return;
        };
        let before = self.counted();
        match self
            .desk
            .as_mut()
            .load(0, self.moment.min(LAST_MOMENT), loaded)
        {
            Ok(entry) => self.add_outputs(row, entry.outputs.as_slice()),
            Err(DeskLoadRefused::NoMemory { loaded }) => {
                self.tell_refused(row, before);
                self.load_again(row, loaded);
            }
        }
    }

    fn step_again(&mut self, row: &mut Row, caller: u32, event: Event)
        requires { IsStepped event }
    {
        match self
            .desk
            .as_mut()
            .step(caller, self.moment.min(LAST_MOMENT), 0, event)
        {
            Ok(entry) => self.add_outputs(row, entry.outputs.as_slice()),
            Err(_) => row.mark(Wrong::NoMemory),
        }
    }

    fn step(&mut self, row: &mut Row, caller: u32, event: Event)
        requires { IsStepped event }
    {
        let before = self.counted();
        match self
            .desk
            .as_mut()
            .step(caller, self.moment.min(LAST_MOMENT), 0, event)
        {
            Ok(entry) => self.add_outputs(row, entry.outputs.as_slice()),
            Err(DeskRefused::NoMemory { event }) => {
                self.tell_refused(row, before);
                self.step_again(row, caller, event);
            }
        }
    }

    /// Submits an event. The draft is loaded first, if nothing came before.
    fn act(&mut self, row: &mut Row, caller: u32, event: Event)
        requires { IsStepped event }
    {
        if self.desk.as_ref().peers().entries() == 0 {
            self.load(row);
        }
        self.step(row, caller, event);
    }

    /// Does what a line of a scenario says.
    fn play(&mut self, row: &mut Row, line: &[u8]) {
        match read_line(row.alloc, line, 0) {
            Ok(Step::At { t }) => self.moment = t,
            Ok(Step::Reload) => self.load(row),
            Ok(Step::Act { caller, event }) => self.act(row, caller, event),
            Ok(_) => take_line(row, &mut self.drafts, line),
            Err(fault) => row.refuse(&fault),
        }
    }

    /// Asks the desk, and adds the answer as a line.
    fn ask(&mut self, row: &mut Row, question: &[u8]) {
        let Ok(Some(words)) = words(row.alloc, question) else {
            return row.mark(Wrong::Quotes);
        };
        let mut asked = Row::new(row.alloc, words.as_slice());
        ask(&mut asked, self.desk.as_mut());
        self.add(row, b"?");
        self.add(row, asked.finish().as_bytes());
        self.add(row, b"\n");
    }

    fn take(&mut self, row: &mut Row, line: &[u8]) {
        match cut(line, b' ') {
            Some((b"?", question)) => self.ask(row, question),
            _ => self.play(row, line),
        }
    }
}

/// `desk LINES`: the lines that a desk answers the lines of a scenario, one for each output, and one for
/// each line that begins with `? `, which asks as `ask` says.
///
/// Where the desk is refused memory, `refused` comes before, and whether what it counts is the `same`.
pub fn desk(row: &mut Row) {
    let Ok(lines) = lines(row.alloc, row.bytes()) else {
        return row.mark(Wrong::NoMemory);
    };
    let Some(mut run) = DeskRun::start(row) else {
        return;
    };
    for line in lines.as_slice() {
        run.take(row, *line);
    }
    row.quote(run.answers.as_slice());
}
