// What each event is answered and changes.
ghost use Rattle.std.specs.Prelude.{◌≡◌, ◌∷◌, [], ℕ, List, Some, None, IfOk, flat_map, filter};
ghost use Rattle.authority_model.specs.declared.event.Event.TheVariants.{Call as Called, Depart, Load};
ghost use Rattle.authority_model.specs.declared.journal.Item.{Item};
ghost use Rattle.authority_model.specs.declared.load.Loaded.{Loaded as TheLoaded};
ghost use Rattle.authority_model.specs.declared.message.Message.{Message as TheMessage};
ghost use Rattle.authority_model.specs.Small.{IsShort};
ghost use Rattle.authority_model.specs.Answers.{answers, answer_departed};
ghost use Rattle.entry_changes.specs.Changes.{close_all, entry_change, is_between};
ghost use Rattle.authority_model.specs.Challenges.{pending};
ghost use Rattle.journal_view.specs.Seen.{IsSeenOf};
ghost use Rattle.event_answers.specs.Asked.{AnswersEvent, Changes, ChangesByEvent, Tells, of_challenges, unchanged};
ghost use Rattle.event_answers.specs.declared.asking.Occasion.{Occasion as TheOccasion};

use crate::answered::{Answered, challenges_changed, nothing, nothing_changed, one_output};
use crate::asking::{Asking, Occasion, ReplyTo};
use crate::calls::answer_call;
use crate::ending::{Ended, close_places, end_departed, end_unlisted};
use crate::presence::{is_live, live_peer};
use crate::replies::tell_changed;
use crate::returning::{answer_error, answer_return};
use authority_model::{Call, Event, Message, Output, World};
use journal_view::JournalView;
use pk_types::NoMemory;
use std::alloc::Global;

/// Answers the departure of a connection that is live.
fn depart_live<V: JournalView>(alloc: Global, view: &V, caller: u32) -> Result<Answered, NoMemory>
    ensures outputs { Tells (V.seen view.now) result (λ past. flat_map (answer_departed caller) (pending past)) }
    ensures change { Changes (V.seen view.now) result (λ past. of_challenges (close_all (filter (is_between caller) (pending past)))) }
{
    let Ended { outputs, places } = end_departed(alloc, view, caller)?;
    Ok(Answered {
        outputs,
        change: challenges_changed(close_places(places)),
    })
}

/// Answers the departure of a connection.
pub fn depart<V: JournalView>(alloc: Global, view: &V, caller: u32) -> Result<Answered, NoMemory>
    ensures outputs { (at : TheOccasion) → AnswersEvent (V.seen view.now) caller at Depart result }
    ensures change { (at : TheOccasion) → ChangesByEvent (V.seen view.now) caller at Depart result }
{
    if !is_live(view, caller) {
        return Ok(nothing(alloc));
    }
    depart_live(alloc, view, caller)
}

/// What a load of this world is answered, and what it changes: each check whose subject or agent the
/// world does not list, and each live connection.
pub fn answer_load<V: JournalView>(
    alloc: Global,
    view: &V,
    world: &World,
) -> Result<Answered, NoMemory>
    ensures outputs { (past : List Item) (l : TheLoaded) → IsSeenOf past (V.seen view.now) → world.now ≡ l.world → (c t salt n : ℕ)
        → IfOk result (λ a. a.outputs ≡ answers past c t salt (Load n) (Some l)) }
    ensures change { (past : List Item) (l : TheLoaded) → IsSeenOf past (V.seen view.now) → world.now ≡ l.world → (c t salt n : ℕ)
        → IfOk result (λ a. a.change ≡ entry_change past c t salt (Load n) (Some l)) }
{
    let ended = end_unlisted(alloc, view, world)?;
    let Ended {
        mut outputs,
        places,
    } = ended;
    tell_changed(&mut outputs, view)?;
    Ok(Answered {
        outputs,
        change: challenges_changed(close_places(places)),
    })
}

/// Answers a call.
fn call<V: JournalView>(
    alloc: Global,
    view: &V,
    to: ReplyTo,
    occasion: Occasion,
    asked: &Call,
) -> Result<Answered, NoMemory>
    requires rules { IsShort (V.seen view.now).loaded.policy.entries }
    ensures outputs { AnswersEvent (V.seen view.now) to.caller occasion (Called to.serial to.quiet asked.now) result }
    ensures change { ChangesByEvent (V.seen view.now) to.caller occasion (Called to.serial to.quiet asked.now) result }
{
    match live_peer(view, to.caller) {
        Some(peer) => {
            let asking = Asking { to, peer, occasion };
            answer_call(alloc, view, asking, asked)
        }
        None => Ok(nothing(alloc)),
    }
}

/// Answers Stop: the loader is told to stop.
fn stop(alloc: Global) -> Result<Answered, NoMemory>
    ensures outputs { IfOk result (λ a. a.outputs ≡ record { to = 0; message = TheMessage.StopWanted } ∷ []) }
    ensures change { IfOk result (λ a. a.change ≡ unchanged) }
{
    let wanted = Output {
        to: 0,
        message: Message::StopWanted,
    };
    let outputs = one_output(alloc, wanted)?;
    Ok(Answered {
        outputs,
        change: nothing_changed(),
    })
}

/// What an event of a connection is answered, and what it changes, by the look-ups of the history
/// before it. A connection that is not live is answered nothing. Loads are answered by
/// `answer_load`.
///
/// # Errors
/// `NoMemory`: memory was refused, or a number of the history is at its greatest value.
pub fn answer<V: JournalView>(
    alloc: Global,
    view: &V,
    caller: u32,
    occasion: Occasion,
    event: &Event,
) -> Result<Answered, NoMemory>
    requires rules { IsShort (V.seen view.now).loaded.policy.entries }
    ensures outputs { (past : List Item) → IsSeenOf past (V.seen view.now)
        → IfOk result (λ a. a.outputs ≡ answers past caller occasion.moment occasion.salt event.now None) }
    ensures change { (past : List Item) → IsSeenOf past (V.seen view.now)
        → IfOk result (λ a. a.change ≡ entry_change past caller occasion.moment occasion.salt event.now None) }
{
    match event {
        Event::Call {
            serial,
            quiet,
            call: asked,
        } => {
            let to = ReplyTo {
                caller,
                serial: *serial,
                quiet: *quiet,
            };
            call(alloc, view, to, occasion, asked)
        }
        Event::Returned { serial } => answer_return(alloc, view, caller, occasion, *serial),
        Event::AgentError { serial, name } => answer_error(alloc, view, caller, *serial, name),
        Event::Depart => depart(alloc, view, caller),
        Event::Stop => stop(alloc),
        Event::Connect { .. }
        | Event::Passed
        | Event::Load { .. }
        | Event::LoadFailed { .. }
        | Event::Collect { .. } => Ok(nothing(alloc)),
    }
}
