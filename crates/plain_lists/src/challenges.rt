// The pending challenges in the order of opening.
ghost use Rattle.std.specs.Prelude.{◌≡◌, map, OnOk};
ghost use Rattle.entry_changes.specs.Changes.{after_challenges, answered_by, without, without_all};

use authority_model::Pending;
use entry_changes::ChallengeChange;
use pk_types::{Identity, NoMemory};

/// Notes who answered a challenge, where this entry opened it.
fn answer_one(row: &mut Pending, entry: u64, identity: Identity)
    ensures row { row.new ≡ answered_by entry identity row.old }
{
    if row.entry == entry {
        row.answered = Some(identity);
    }
}

/// Notes who answered the challenge that an entry opened.
fn answer(challenges: &mut [Pending], entry: u64, identity: Identity)
    ensures rows { challenges.new ≡ map (answered_by entry identity) challenges.old }
{
    for row in challenges.iter_mut() {
        answer_one(row, entry, identity);
    }
}

/// Takes out the challenge that an entry opened.
fn close(challenges: &mut Vec<Pending>, entry: u64)
    ensures items { challenges.new.items ≡ without entry challenges.old.items }
{
    challenges.retain(|row| row.entry != entry);
}

/// Takes out the challenges that these entries opened.
fn close_all(challenges: &mut Vec<Pending>, entries: &[u64])
    ensures items { challenges.new.items ≡ without_all entries.now challenges.old.items }
{
    for entry in entries {
        close(challenges, *entry);
    }
}

/// Carries the challenges on by a change.
pub fn carry_challenges(
    challenges: &mut Vec<Pending>,
    change: ChallengeChange,
) -> Result<(), NoMemory>
    ensures items { OnOk result (challenges.new.items ≡ after_challenges change challenges.old.items) }
{
    match change {
        ChallengeChange::Keep => {}
        ChallengeChange::Begun(row) => challenges.push(row)?,
        ChallengeChange::Answer { entry, identity } => {
            answer(challenges.as_mut_slice(), entry, identity);
        }
        ChallengeChange::Close(entries) => close_all(challenges, entries.as_slice()),
    }
    Ok(())
}
