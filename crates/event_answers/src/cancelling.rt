// Checks that are cancelled (CancelCheckAuthorization in the reference manual).
ghost use Rattle.std.specs.Prelude.{◌≡◌, ◌++◌, ◌∷◌, [], IfOk, OnOk};
ghost use Rattle.authority_model.specs.declared.event.Call.{Call as TheCall};
ghost use Rattle.authority_model.specs.Answers.{answer_cancel};
ghost use Rattle.entry_changes.specs.Changes.{close_one};
ghost use Rattle.event_answers.specs.Asked.{AnswersCall, ChangesByCall, of_challenges, reply_of};

use crate::answered::{Answered, challenges_changed, no_outputs};
use crate::asking::Asking;
use crate::replies::{cancel_begin, reply_to};
use authority_model::{Answer, ErrorCause, OutputList, Pending};
use entry_changes::{ChallengeChange, PlaceList};
use journal_view::JournalView;
use pk_types::{List, NoMemory, Text};
use std::alloc::Global;

/// The entry that opened this challenge, as the only one of a list.
pub fn place_alone(alloc: Global, challenge: &Pending) -> Result<PlaceList, NoMemory>
    ensures place { IfOk result (λ places. places ≡ challenge.now.entry ∷ []) }
{
    List::try_from_slice(alloc, &[challenge.entry])
}

/// Answers a check that is cancelled, tells its agent, and then the canceller.
fn tell_cancelled(
    outputs: &mut OutputList,
    asking: Asking,
    challenge: &Pending,
) -> Result<(), NoMemory>
    ensures told { OnOk result (outputs.new ≡ outputs.old ++ answer_cancel (reply_of asking.to) challenge.now) }
{
    let cancelled = Answer::Refused(ErrorCause::Cancelled);
    reply_to(outputs, challenge, cancelled)?;
    cancel_begin(outputs, challenge)?;
    asking.to.send(outputs, Answer::Done)
}

/// Cancels a pending check.
fn cancel_check(alloc: Global, asking: Asking, challenge: &Pending) -> Result<Answered, NoMemory>
    ensures outputs { IfOk result (λ a. a.outputs ≡ answer_cancel (reply_of asking.to) challenge.now) }
    ensures change { IfOk result (λ a. a.change ≡ of_challenges (close_one challenge.now)) }
{
    let mut outputs = no_outputs(alloc)?;
    tell_cancelled(&mut outputs, asking, challenge)?;
    let places = place_alone(alloc, challenge)?;
    Ok(Answered {
        outputs,
        change: challenges_changed(ChallengeChange::Close(places)),
    })
}

/// Answers Cancel: the caller cancels a pending check of its own.
pub fn cancel<V: JournalView>(
    alloc: Global,
    view: &V,
    asking: Asking,
    id: &Text,
) -> Result<Answered, NoMemory>
    ensures outputs { AnswersCall (V.seen view.now) asking (TheCall.Cancel id.now) result }
    ensures change { ChangesByCall (V.seen view.now) asking (TheCall.Cancel id.now) result }
{
    match view.of_cancel(asking.to.caller, id) {
        Some(challenge) => cancel_check(alloc, asking, challenge),
        None => asking.refuse(alloc, ErrorCause::NoSuchId),
    }
}
