// What an event is answered, and what it changes.
ghost use Rattle.std.specs.Prelude.{◌≡◌, ◌∷◌, [], IfOk};
ghost use Rattle.event_answers.specs.Asked.{of_agents, of_challenges, of_grants, unchanged};

use authority_model::{Output, OutputList};
use entry_changes::{AgentChange, ChallengeChange, EntryChange, GrantChange};
use pk_types::{List, NoMemory};
use std::alloc::Global;

/// What an event is answered, and what it changes.
#[derive(Drop)]
pub struct Answered {
    /// The messages that the event causes, in the order in which they are sent.
    pub outputs: OutputList,
    /// What it changes beside connections and outputs.
    pub change: EntryChange,
}

/// A list for the outputs of a call. Most calls have one output, the answer, and an entry is kept for
/// good: so there is room for just one.
pub fn no_outputs(alloc: Global) -> Result<OutputList, NoMemory>
    ensures empty { IfOk result (λ outputs. outputs ≡ []) }
{
    Ok(List::from_vec(Vec::with_capacity(alloc, 1)?))
}

/// The list of one output.
pub fn one_output(alloc: Global, output: Output) -> Result<OutputList, NoMemory>
    ensures one { IfOk result (λ outputs. outputs ≡ output ∷ []) }
{
    let mut outputs = no_outputs(alloc)?;
    outputs.try_push(output)?;
    Ok(outputs)
}

/// No output, and no change.
pub fn nothing(alloc: Global) -> Answered
    ensures outputs { result.outputs ≡ [] }
    ensures change { result.change ≡ unchanged }
{
    Answered {
        outputs: List::new(alloc),
        change: nothing_changed(),
    }
}

/// No change.
pub fn nothing_changed() -> EntryChange
    ensures change { result ≡ unchanged }
{
    EntryChange {
        agent: AgentChange::Keep,
        grant: GrantChange::Keep,
        challenge: ChallengeChange::Keep,
    }
}

/// A change among the agents alone.
pub fn agents_changed(agent: AgentChange) -> EntryChange
    ensures change { result ≡ of_agents agent }
{
    EntryChange {
        agent,
        grant: GrantChange::Keep,
        challenge: ChallengeChange::Keep,
    }
}

/// A change among the temporary authorizations alone.
pub fn grants_changed(grant: GrantChange) -> EntryChange
    ensures change { result ≡ of_grants grant }
{
    EntryChange {
        agent: AgentChange::Keep,
        grant,
        challenge: ChallengeChange::Keep,
    }
}

/// A change among the challenges alone.
pub fn challenges_changed(challenge: ChallengeChange) -> EntryChange
    ensures change { result ≡ of_challenges challenge }
{
    EntryChange {
        agent: AgentChange::Keep,
        grant: GrantChange::Keep,
        challenge,
    }
}
