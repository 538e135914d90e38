// What is counted of a history.
ghost use Rattle.std.specs.Prelude.{◌≡◌, ◌+◌, if◌then◌else◌, [], max, IfSome};
ghost use Rattle.authority_model.specs.Items.{is_load};
ghost use Rattle.authority_desk.specs.Numbers.{numbers_after, numbers_of, openings};
ghost use Rattle.change_laws.specs.GrantCounts.{additions};

use authority_model::{Entry, Event};
use entry_changes::{ChallengeChange, EntryChange, GrantChange};

/// What is counted of a history, and when its last entry was made.
#[derive(Clone, Copy, Debug, PartialEq, Eq)]
pub struct DeskNumbers {
    /// How many loads it has, which is the number of the last one.
    pub loads: u32,
    /// How many outputs its entries have.
    pub outputs: u64,
    /// How many challenges were opened.
    pub opened: u64,
    /// How many temporary authorizations were made, which is the number of the next one.
    pub made: u64,
    /// The moment of the last entry in seconds, and 0 where there is none.
    pub last_moment: u64,
}

/// The number of loads with an event, where 32 bits count it.
fn loads_after(loads: u32, event: &Event) -> Option<u32>
    ensures loads { IfSome result (λ n. n ≡ loads + (if is_load event.now then 1 else 0)) }
{
    match event {
        Event::Load { .. } => loads.checked_add(1),
        _ => Some(loads),
    }
}

/// How many challenges a change opens.
fn openings(change: &ChallengeChange) -> u64
    ensures count { result ≡ openings change.now }
{
    match change {
        ChallengeChange::Begun(_) => 1,
        _ => 0,
    }
}

/// How many temporary authorizations a change makes.
fn additions(change: &GrantChange) -> u64
    ensures count { result ≡ additions change.now }
{
    match change {
        GrantChange::Add(_) => 1,
        _ => 0,
    }
}

impl DeskNumbers {
    /// What is counted of the empty history.
    pub fn start() -> DeskNumbers
        ensures empty { result ≡ numbers_of [] }
    {
        DeskNumbers {
            loads: 0,
            outputs: 0,
            opened: 0,
            made: 0,
            last_moment: 0,
        }
    }

    /// The moment of an entry that is handed in at this one, in seconds: the later of it and the last
    /// entry's.
    pub fn moment_at(self, moment: u64) -> u64
        ensures later { result ≡ max self.last_moment moment }
    {
        self.last_moment.max(moment)
    }

    /// What is counted with an entry more that changes this. `None` where a number is too great.
    pub fn after(self, entry: &Entry, change: &EntryChange) -> Option<DeskNumbers>
        ensures numbers { IfSome result (λ n. n ≡ numbers_after entry.now change.now self) }
    {
        Some(DeskNumbers {
            loads: loads_after(self.loads, &entry.event)?,
            outputs: self.outputs.checked_add(entry.outputs.len() as u64)?,
            opened: self.opened.checked_add(openings(&change.challenge))?,
            made: self.made.checked_add(additions(&change.grant))?,
            last_moment: entry.moment,
        })
    }
}
