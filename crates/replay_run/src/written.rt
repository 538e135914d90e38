// Writes the answer lines of outputs.
ghost use Rattle.std.specs.Prelude.{◌≡◌, ◌≤◌, [], ◌∷◌, OnOk, OnErr};
ghost use Rattle.pk_outside.specs.Allowing.{MayFronts};
ghost use Rattle.pk_outside.specs.Streams.{Got, GotFront};
ghost use Rattle.scenario_run.specs.Text.{counts_after, loads_of, outputs_text};
ghost use Rattle.replay_run.specs.Counted.{counted};
ghost use Rattle.replay_run.specs.Faults.{AnswerWrites};

use crate::ends::ReplayEnd;
use crate::sent_counts::SentCounts;
use authority_model::Output;
use pk_outside::{Failed, Sink, write_all};
use pk_types::NoMemory;
use scenario_run::Journal;
use std::alloc::Global;

/// Why an answer was not written whole.
#[derive(Clone, Copy, Debug, PartialEq, Eq)]
pub enum WriteRefused {
    /// The sink failed, and counted it.
    Failed,
    /// Memory for the line was refused.
    NoMemory,
}

impl From<Failed> for WriteRefused {
    ghost use Rattle.std.specs.Prelude.{◌≡◌};
    ghost use Rattle.replay_run.specs.declared.written.WriteRefused.TheVariants as refused;

    ghost from_gives = { λ _ e. e ≡ refused.Failed };

    fn from(_: Failed) -> Self {
        WriteRefused::Failed
    }
}

impl WriteRefused {
    ghost use Rattle.replay_run.specs.Lines.{end_of_write};

    /// How a run ends where what is written first is refused.
    pub fn end(self) -> ReplayEnd
        ensures end { result ≡ end_of_write self }
    {
        match self {
            WriteRefused::Failed => ReplayEnd::WriteFault,
            WriteRefused::NoMemory => ReplayEnd::NoMemory,
        }
    }
}

impl From<NoMemory> for WriteRefused {
    ghost use Rattle.std.specs.Prelude.{◌≡◌};
    ghost use Rattle.replay_run.specs.declared.written.WriteRefused.TheVariants as refused;

    ghost from_gives = { λ _ e. e ≡ refused.NoMemory };

    fn from(_: NoMemory) -> Self {
        WriteRefused::NoMemory
    }
}

/// Writes the answer line of one output.
#[tactic(auto, using(crate::proofs::Texts::front_none))]
fn write_answer<F: Sink, O: Sink>(
    alloc: Global,
    journal: &Journal<F>,
    counts: &mut SentCounts,
    answer: &Output,
    output: &mut O,
) -> Result<(), WriteRefused>
    requires may { MayFronts O.allowed (O.held output.old) (outputs_text (loads_of (journal.now.past)) (counted counts.old) (answer.now ∷ [])) }
    ensures ok { OnOk result (Got (O.held output.old) (O.held output.new) (outputs_text (loads_of (journal.now.past)) (counted counts.old) (answer.now ∷ []))) }
    ensures counted { OnOk result (counted counts.new ≡ counts_after (counted counts.old) (answer.now ∷ [])) }
    ensures err { OnErr result (GotFront (O.held output.old) (O.held output.new) (outputs_text (loads_of (journal.now.past)) (counted counts.old) (answer.now ∷ []))) }
    ensures faults { AnswerWrites O.held O.faults output.old output.new result }
    ensures later { O.faults output.old ≤ O.faults output.new }
{
    let serial = counts.count_one(answer.to)?;
    let line = journal.answer(alloc, answer, serial)?;
    write_all(output, line.as_slice())?;
    Ok(())
}

/// Writes the answer lines of these outputs, one after another.
pub fn write_answers<F: Sink, O: Sink>(
    alloc: Global,
    journal: &Journal<F>,
    counts: &mut SentCounts,
    answers: &[Output],
    output: &mut O,
) -> Result<(), WriteRefused>
    requires may { MayFronts O.allowed (O.held output.old) (outputs_text (loads_of (journal.now.past)) (counted counts.old) answers.now) }
    ensures ok { OnOk result (Got (O.held output.old) (O.held output.new) (outputs_text (loads_of (journal.now.past)) (counted counts.old) answers.now)) }
    ensures counted { OnOk result (counted counts.new ≡ counts_after (counted counts.old) answers.now) }
    ensures err { OnErr result (GotFront (O.held output.old) (O.held output.new) (outputs_text (loads_of (journal.now.past)) (counted counts.old) answers.now)) }
    ensures faults { AnswerWrites O.held O.faults output.old output.new result }
    ensures later { O.faults output.old ≤ O.faults output.new }
{
    for answer in answers {
        write_answer(alloc, journal, counts, answer, output)?;
    }
    Ok(())
}
