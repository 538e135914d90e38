// Entries and messages of the loader, which have no texts.
use crate::row::{Row, Wrong};
use authority_model::{Entry, Event, History, Message, Output, OutputList};
use journal_costs::cost_of_entry;
use pk_types::List;
use scenario_text::answer_text;

fn event(row: &mut Row) -> Event {
    match row.bytes() {
        b"Collect" => Event::Collect { of: 4 },
        b"LoadFailed" => Event::LoadFailed { code: 2 },
        b"Passed" => Event::Passed,
        b"Stop" => Event::Stop,
        _ => {
            row.mark(Wrong::Word);
            Event::Passed
        }
    }
}

/// A message to the loader.
fn output(row: &mut Row) -> Output {
    let message = match row.bytes() {
        b"LoadWanted" => Message::LoadWanted,
        b"StopWanted" => Message::StopWanted,
        _ => {
            row.mark(Wrong::Word);
            Message::StopWanted
        }
    };
    Output { to: 0, message }
}

fn outputs(row: &mut Row) -> OutputList {
    let mut outputs = List::new(row.alloc);
    for _ in 0..u64::MAX {
        if !row.has_more() {
            break;
        }
        let output = output(row);
        if outputs.try_push(output).is_err() {
            row.mark(Wrong::NoMemory);
        }
    }
    outputs
}

/// `entry_cost EVENT MESSAGE..`: the counted bytes of an entry with these messages to the loader
pub fn entry_cost(row: &mut Row) {
    let event = event(row);
    let outputs = outputs(row);
    let entry = Entry {
        caller: 1,
        moment: 5,
        salt: 7,
        event,
        outputs,
    };
    row.show(&cost_of_entry(&entry));
}

/// `answer_line MESSAGE`: the answer line of a message to the loader, over a history without entries
pub fn answer_line(row: &mut Row) {
    let output = output(row);
    let history = History {
        entries: List::new(row.alloc),
        loads: List::new(row.alloc),
    };
    match answer_text(row.alloc, &output, &history, 2) {
        Ok(line) => row.quote(line.as_slice()),
        Err(fault) => row.refuse(&fault),
    }
}
