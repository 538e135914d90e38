// Drafts of a scenario, and the loads that they give.
use crate::row::{Row, Wrong};
use authority_core::Authority;
use authority_model::{Limits, Loaded};
use pk_types::TryCopy;
use scenario_run::{Journal, NoFile, ScenarioRun};

/// A run with an empty draft. It is given no event, so each entry of it is a load of the draft.
pub fn empty_draft(row: &mut Row) -> Option<ScenarioRun<NoFile>> {
    let draft = Loaded::empty(row.alloc);
    match Authority::start(row.alloc, Limits::GREATEST) {
        Ok(authority) => Some(ScenarioRun::start(Journal::whole(authority), draft)),
        Err(_) => {
            row.mark(Wrong::NoMemory);
            None
        }
    }
}

/// Takes a line of the draft.
pub fn take_line(row: &mut Row, drafts: &mut ScenarioRun<NoFile>, line: &[u8]) {
    if let Err(stop) = drafts.take_line(row.alloc, line, 0) {
        row.refuse(&stop);
    }
}

/// Loads the draft, and gives a copy of the load.
pub fn load_draft(row: &mut Row, drafts: &mut ScenarioRun<NoFile>) -> Option<Loaded> {
    take_line(row, drafts, b"reload");
    match drafts
        .journal()
        .history()?
        .loads
        .as_slice()
        .last()?
        .try_copy()
    {
        Ok(loaded) => Some(loaded),
        Err(_) => {
            row.mark(Wrong::NoMemory);
            None
        }
    }
}
