// What a replay writes of its entries: their answer lines, or nothing.
ghost use Rattle.std.specs.Prelude.{◌≡◌, ◌≤◌, ℕ};
ghost use Rattle.scenario_run.specs.Text.{last_outputs, loads_of};
ghost use Rattle.replay_run.specs.Faults.{AnswerWrites};
ghost use Rattle.replay_run.specs.Promises.{MayTellLast};
ghost use Rattle.replay_run.specs.Telling.{AreTold, HasCounted, tells};

use crate::sent_counts::SentCounts;
use crate::written::{WriteRefused, write_answers};
use pk_outside::Sink;
use scenario_run::Journal;
use std::alloc::Global;

/// What a replay writes of an entry when it was made.
#[derive(Drop)]
pub enum Telling {
    /// Its answer lines. So many outputs were written to each connection.
    Answers(SentCounts),
    /// Nothing.
    Nothing,
}

impl Telling {
    /// Writes what it tells of the newest entry of a journal.
    ///
    /// # Errors
    /// `Failed` where the output failed and counted it; `NoMemory` where memory was refused, or the answers
    /// are not there any more.
    pub fn tell<F: Sink, O: Sink>(
        &mut self,
        alloc: Global,
        journal: &Journal<F>,
        output: &mut O,
    ) -> Result<(), WriteRefused>
        requires may { MayTellLast self.old O.allowed (O.held output.old) (journal.now.past) }
        ensures same { tells self.new ≡ tells self.old }
        ensures told { (counts : ℕ → ℕ) → HasCounted self.old counts →
            AreTold (tells self.old) (HasCounted self.new) (loads_of (journal.now.past)) counts (last_outputs (journal.now.past)) (O.held output.old) (O.held output.new) result }
        ensures faults { AnswerWrites O.held O.faults output.old output.new result }
        ensures later { O.faults output.old ≤ O.faults output.new }
    {
        match self {
            Telling::Answers(counts) => match journal.last_outputs() {
                Some(answers) => write_answers(alloc, journal, counts, answers, output),
                None => Err(WriteRefused::NoMemory),
            },
            Telling::Nothing => Ok(()),
        }
    }
}
