// The lines of a scenario.
ghost use Rattle.std.specs.Prelude.{◌≡◌, [], ◌∷◌, map, Ok, IfOk, IfErr};
ghost use Rattle.scenario_text.specs.Faults.{Gives, IsFaultOf, fault_in};
ghost use Rattle.scenario_text.specs.Runs.{IsRunnable};
ghost use Rattle.scenario_text.specs.Lines.{line_of, step_of};
ghost use Rattle.scenario_text.specs.Order.{line_kind};

use crate::caller_lines::caller_step;
use crate::draft_lines::draft_step;
use crate::fault::{LineFault, LineKind};
use crate::first_word::FirstWord;
use crate::step::Step;
use pk_types::pieces;
use std::alloc::Global;

/// The greatest number of bytes of a line.
pub const MAX_LINE: usize = 4096;

fn words_step(alloc: Global, first: FirstWord, args: &[&[u8]]) -> Result<Step, LineKind>
    ensures value { Gives result (line_of first (map (λ word. word.now) args.now)) }
    ensures runs { IfOk result IsRunnable }
{
    match first {
        FirstWord::Draft(word) => draft_step(alloc, word, args),
        FirstWord::Caller(word) => caller_step(alloc, word, args),
    }
}

#[tactic(auto, unfolding(crate::specs::Lines::step_of))]
fn step_of_line(alloc: Global, line: &[u8]) -> Result<Step, LineKind>
    ensures value { Gives result (step_of line.now) }
    ensures runs { IfOk result IsRunnable }
{
    if line.len() > MAX_LINE {
        return Err(LineKind::TooLong);
    }
    if line.is_empty() || line[0] == b'#' {
        return Ok(Step::Blank);
    }
    let words = pieces(alloc, line, b' ')?;
    let [first, args @ ..] = words.as_slice() else {
        return Err(LineKind::Word);
    };
    match FirstWord::read(first) {
        Some(first) => words_step(alloc, first, args),
        None => Err(LineKind::Word),
    }
}

/// What a line says, or what is wrong with it. The line is given without the LF that ends it, and
/// `number` is its number, which a fault carries.
///
/// Every line in the grammar is read, unless memory is refused.
///
/// # Errors
/// The fault of a line is the first kind that the whole line has, in the order of [`LineKind`]: a
/// number out of its range comes before an earlier word out of its form. `NoMemory` says nothing
/// of the line.
#[tactic(auto, using(crate::proofs::Orders::step_order))]
pub fn read_line(alloc: Global, bytes: &[u8], number: u64) -> Result<Step, LineFault>
    ensures step { IfOk result (λ step. step_of bytes.now ≡ Ok step) }
    ensures fault { IfErr result (λ fault. IsFaultOf fault.kind (step_of bytes.now)) }
    ensures line { IfErr result (λ fault. fault.line ≡ number) }
    ensures runs { IfOk result IsRunnable }
    // The kinds of fault come in their order over the whole line.
    ensures order { fault_in (step_of bytes.now) ≡ line_kind bytes.now }
{
    match step_of_line(alloc, bytes) {
        Ok(step) => Ok(step),
        Err(kind) => Err(LineFault { line: number, kind }),
    }
}
