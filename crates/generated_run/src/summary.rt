// The totals of a run.
ghost use Rattle.std.specs.Prelude.{◌≡◌, ◌+◌, ◌∷◌, [], IfOk, OnOk, List};
ghost use Rattle.authority_model.specs.declared.journal.Item.{Item};
ghost use Rattle.generated_run.specs.Summaries.{has_mark, marks, tells, told_in, summary_of, line_of};

use authority_model::{Answer, Entry, Message, Output, Verdict};
use pk_types::{ByteList, List, NoMemory};
use std::alloc::Global;

/// The totals of a run.
#[derive(Clone, Copy, Debug, PartialEq, Eq)]
pub struct Summary {
    /// The verdicts that are yes.
    pub yes: u64,
    /// The verdicts that are neither yes nor challenges.
    pub no: u64,
    /// The verdicts that are challenges.
    pub challenges: u64,
    /// The verdicts for which a temporary authorization was made.
    pub grants: u64,
    /// The entries of the journal.
    pub entries: u64,
}

/// The mark by which verdicts are counted.
#[derive(Clone, Copy)]
pub enum Mark {
    Yes,
    No,
    Challenge,
    /// A temporary authorization was made for the verdict.
    Grant,
}

fn has_mark(mark: Mark, verdict: &Verdict) -> bool
    ensures mark { result ≡ has_mark mark verdict.now }
{
    match mark {
        Mark::Yes => verdict.yes,
        Mark::No => !verdict.yes && !verdict.challenge,
        Mark::Challenge => !verdict.yes && verdict.challenge,
        Mark::Grant => verdict.grant.is_some(),
    }
}

fn marks(mark: Mark, answer: &Answer) -> bool
    ensures mark { result ≡ marks mark answer.now }
{
    match answer {
        Answer::Verdict(verdict) => has_mark(mark, verdict),
        _ => false,
    }
}

/// Whether a message tells a verdict with this mark.
fn tells(mark: Mark, message: &Message) -> bool
    ensures tells { result ≡ tells mark message.now }
{
    match message {
        Message::Reply { serial: _, answer } => marks(mark, answer),
        _ => false,
    }
}

/// How many outputs tell a verdict with this mark.
fn told_in(mark: Mark, outputs: &[Output]) -> usize
    ensures count { result ≡ told_in mark outputs.now }
{
    outputs
        .iter()
        .filter(|output| tells(mark, &output.message))
        .count()
}

/// A sum of counts.
fn sum(a: u64, b: usize) -> Result<u64, NoMemory>
    ensures sum { IfOk result (λ sum. sum ≡ a + b) }
{
    // No journal has that many outputs.
    a.checked_add(b as u64).ok_or(NoMemory)
}

impl Summary {
    /// The summary before the first entry.
    pub const fn start() -> Summary
        ensures empty { result ≡ summary_of [] }
    {
        Summary {
            yes: 0,
            no: 0,
            challenges: 0,
            grants: 0,
            entries: 0,
        }
    }

    /// Counts one more entry.
    pub fn add(&mut self, entry: &Entry) -> Result<(), NoMemory>
        ensures added { (past : List Item) (i : Item) → self.old ≡ summary_of past → i.entry ≡ entry.now → OnOk result (self.new ≡ summary_of (i ∷ past)) }
    {
        let outputs = entry.outputs.as_slice();
        self.yes = sum(self.yes, told_in(Mark::Yes, outputs))?;
        self.no = sum(self.no, told_in(Mark::No, outputs))?;
        self.challenges = sum(self.challenges, told_in(Mark::Challenge, outputs))?;
        self.grants = sum(self.grants, told_in(Mark::Grant, outputs))?;
        self.entries = sum(self.entries, 1)?;
        Ok(())
    }
}

/// The line of a summary: `yes A no B challenge C grants G entries E` and LF.
pub fn summary_line(alloc: Global, summary: &Summary) -> Result<ByteList, NoMemory>
    ensures line { IfOk result (λ line. line ≡ line_of summary.now) }
{
    let Summary {
        yes,
        no,
        challenges,
        grants,
        entries,
    } = *summary;
    let line = format!(in alloc;
        "yes {yes} no {no} challenge {challenges} grants {grants} entries {entries}\n"
    )?;
    List::try_from_slice(alloc, line.as_bytes())
}
