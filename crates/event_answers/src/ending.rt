// Pending challenges that a departure, an Unregister or a load ends.
ghost use Rattle.std.specs.Prelude.{◌≡◌, ◌++◌, OnOk, IfOk, flat_map, filter, not};
ghost use Rattle.std.specs.Option.{option_copied};
ghost use Rattle.authority_model.specs.Answers.{answer_departed, answer_loaded, reply_agent_gone as agent_gone_of};
ghost use Rattle.authority_model.specs.Challenges.{pending, pending_at};
ghost use Rattle.entry_changes.specs.Changes.{close_all, is_between, stays_listed};
ghost use Rattle.authority_model.specs.Keys.{key_seen};
ghost use Rattle.event_answers.specs.declared.ending.Ending.{Ending as TheEnding};
ghost use Rattle.event_answers.specs.Endings.{EndCloses, EndTells, closing, is_ended, place_if, places_among, told_among, told_of};

use crate::answered::no_outputs;
use crate::replies::{cancel_begin, reply_agent_gone, reply_to};
use authority_model::{Answer, KeyRef, OutputList, Pending, Reason, World};
use check_decision::no;
use entry_changes::{ChallengeChange, PlaceList};
use journal_view::JournalView;
use pk_types::{List, NoMemory};
use std::alloc::Global;

/// What ends pending challenges.
#[derive(Clone, Copy)]
pub enum Ending<'a> {
    /// This connection departs.
    Departed { caller: u32 },
    /// The registration of a key by this connection ends.
    Unregistered { caller: u32, key: KeyRef<'a> },
    /// This world comes in force.
    Loaded { world: &'a World },
}

/// What the end of challenges tells, and which challenges end.
#[derive(Drop)]
pub struct Ended {
    pub outputs: OutputList,
    /// The entries that opened the challenges that end, in the order of opening.
    pub places: PlaceList,
}

/// Answers a check whose agent is this connection's registration of a key.
fn tell_unregistered(
    alloc: Global,
    outputs: &mut OutputList,
    caller: u32,
    key: KeyRef,
    challenge: &Pending,
) -> Result<(), NoMemory>
    ensures told { OnOk result (outputs.new ≡ outputs.old ++ told_of (TheEnding.Unregistered caller key.entry) challenge.now) }
{
    if challenge.agent == caller && challenge.agent_key.is_same(key) {
        reply_agent_gone(alloc, outputs, challenge)
    } else {
        Ok(())
    }
}

/// Whether a challenge is of a connection: it asked, or it is the agent.
fn is_of(challenge: &Pending, caller: u32) -> bool
    ensures between { result ≡ is_between caller challenge.now }
{
    challenge.asker == caller || challenge.agent == caller
}

/// Whether a world lists the subject of a challenge and its agent's.
fn is_listed(challenge: &Pending, world: &World) -> bool
    ensures listed { result ≡ stays_listed world.now challenge.now }
{
    world.lists(&challenge.key) && world.lists(&challenge.agent_key)
}

/// Tells the agent that its asker is gone, or the asker that its agent is gone.
fn tell_departed(
    alloc: Global,
    outputs: &mut OutputList,
    caller: u32,
    challenge: &Pending,
) -> Result<(), NoMemory>
    ensures told { OnOk result (outputs.new ≡ outputs.old ++ answer_departed caller challenge.now) }
{
    if challenge.asker == caller {
        if challenge.agent == caller {
            return Ok(());
        }
        return cancel_begin(outputs, challenge);
    }
    if challenge.agent == caller {
        reply_agent_gone(alloc, outputs, challenge)
    } else {
        Ok(())
    }
}

/// Answers a check whose subject or agent a world does not list.
fn tell_loaded(
    alloc: Global,
    outputs: &mut OutputList,
    world: &World,
    challenge: &Pending,
) -> Result<(), NoMemory>
    ensures told { OnOk result (outputs.new ≡ outputs.old ++ answer_loaded world.now challenge.now) }
{
    if world.lists(&challenge.key) {
        if world.lists(&challenge.agent_key) {
            return Ok(());
        }
        return reply_agent_gone(alloc, outputs, challenge);
    }
    let verdict = no(alloc, Reason::SubjectGone);
    reply_to(outputs, challenge, Answer::Verdict(verdict))?;
    cancel_begin(outputs, challenge)
}

impl Ending<'_> {
    /// Whether a challenge ends.
    fn ends(self, challenge: &Pending) -> bool
        ensures ends { result ≡ is_ended self.entry challenge.now }
    {
        match self {
            Ending::Departed { caller } => is_of(challenge, caller),
            Ending::Unregistered { caller, key } => {
                challenge.agent == caller && challenge.agent_key.is_same(key)
            }
            Ending::Loaded { world } => !is_listed(challenge, world),
        }
    }

    /// Tells what its end means.
    fn tell(
        self,
        alloc: Global,
        outputs: &mut OutputList,
        challenge: &Pending,
    ) -> Result<(), NoMemory>
        ensures told { OnOk result (outputs.new ≡ outputs.old ++ told_of self.entry challenge.now) }
    {
        match self {
            Ending::Departed { caller } => tell_departed(alloc, outputs, caller, challenge),
            Ending::Unregistered { caller, key } => {
                tell_unregistered(alloc, outputs, caller, key, challenge)
            }
            Ending::Loaded { world } => tell_loaded(alloc, outputs, world, challenge),
        }
    }
}

/// The challenges that these entries opened are closed.
pub fn close_places(places: PlaceList) -> ChallengeChange
    ensures change { result ≡ closing places }
{
    if places.is_empty() {
        ChallengeChange::Keep
    } else {
        ChallengeChange::Close(places)
    }
}

/// Ends a challenge, if there is one and it is to end.
#[tactic(auto, using(crate::proofs::Silences::silent))]
fn end(
    alloc: Global,
    ended: &mut Ended,
    ending: Ending,
    challenge: Option<&Pending>,
) -> Result<(), NoMemory>
    ensures told { OnOk result (ended.new.outputs ≡ ended.old.outputs ++ told_among ending.entry (option_copied challenge.entry)) }
    ensures closed { OnOk result (ended.new.places ≡ ended.old.places ++ places_among ending.entry (option_copied challenge.entry)) }
{
    let Some(challenge) = challenge else {
        return Ok(());
    };
    if !ending.ends(challenge) {
        return Ok(());
    }
    ending.tell(alloc, &mut ended.outputs, challenge)?;
    ended.places.try_push(challenge.entry)
}

/// Goes over all pending challenges.
fn walk_all<V: JournalView>(alloc: Global, view: &V, ending: Ending) -> Result<Ended, NoMemory>
    ensures outputs { IfOk result (λ e. e.outputs ≡ flat_map (told_of ending.entry) (V.seen view.now).challenges) }
    ensures places { IfOk result (λ e. e.places ≡ flat_map (place_if ending.entry) (V.seen view.now).challenges) }
{
    let mut ended = Ended {
        outputs: no_outputs(alloc)?,
        places: List::new(alloc),
    };
    for i in 0..view.pending_len() {
        end(alloc, &mut ended, ending, view.nth(i))?;
    }
    Ok(ended)
}

/// What the end of the pending challenges tells, and which they are, in the order of opening.
#[tactic(auto, using(crate::proofs::Silences::closed_all))]
fn end_all<V: JournalView>(alloc: Global, view: &V, ending: Ending) -> Result<Ended, NoMemory>
    ensures outputs { IfOk result (λ e. e.outputs ≡ flat_map (told_of ending.entry) (V.seen view.now).challenges) }
    ensures closed { IfOk result (λ e. closing e.places ≡ close_all (filter (is_ended ending.entry) (V.seen view.now).challenges)) }
{
    let ended = walk_all(alloc, view, ending)?;
    Ok(ended)
}

/// What the end of the pending challenges at the registration of a key by this connection tells, and
/// which they are.
pub fn end_at<V: JournalView>(
    alloc: Global,
    view: &V,
    caller: u32,
    key: KeyRef,
) -> Result<Ended, NoMemory>
    ensures outputs { EndTells (V.seen view.now) result (λ past. flat_map agent_gone_of (pending_at past caller (key_seen key.entry))) }
    ensures closed { EndCloses (V.seen view.now) result (λ past. pending_at past caller (key_seen key.entry)) }
{
    end_all(alloc, view, Ending::Unregistered { caller, key })
}

/// What the end of the pending challenges whose subject or agent this world does not list tells, and
/// which they are.
pub fn end_unlisted<V: JournalView>(
    alloc: Global,
    view: &V,
    world: &World,
) -> Result<Ended, NoMemory>
    ensures outputs { EndTells (V.seen view.now) result (λ past. flat_map (answer_loaded world.now) (pending past)) }
    ensures closed { EndCloses (V.seen view.now) result (λ past. filter (λ ch. not (stays_listed world.now ch)) (pending past)) }
{
    end_all(alloc, view, Ending::Loaded { world })
}

/// What the end of the pending challenges of a connection that departs tells, and which they are.
pub fn end_departed<V: JournalView>(alloc: Global, view: &V, caller: u32) -> Result<Ended, NoMemory>
    ensures outputs { EndTells (V.seen view.now) result (λ past. flat_map (answer_departed caller) (pending past)) }
    ensures closed { EndCloses (V.seen view.now) result (λ past. filter (is_between caller) (pending past)) }
{
    end_all(alloc, view, Ending::Departed { caller })
}
