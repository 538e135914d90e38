// What is counted of a history.
ghost use Rattle.std.specs.Prelude.{◌≡◌, ◌<◌, ◌+◌, ◌^◌, if◌then◌else◌, IfSome, OnOk};
ghost use Rattle.authority_model.specs.Items.{is_load};
ghost use Rattle.change_laws.specs.GrantCounts.{additions};
ghost use Rattle.plain_lists.specs.Lists.{counts_after, openings};

use authority_model::{Entry, Event};
use entry_changes::{ChallengeChange, EntryChange, GrantChange};
use journal_view::ViewCounts;
use pk_types::NoMemory;

/// More entries than this are not counted: no memory holds them.
const MOST_ENTRIES: u64 = 4_611_686_018_427_387_904;

/// The number of loads with an event, where 32 bits count it.
fn loads_after(loads: u32, event: &Event) -> Option<u32>
    ensures loads { IfSome result (λ n. n ≡ loads + (if is_load event.now then 1 else 0)) }
{
    match event {
        Event::Load { .. } => loads.checked_add(1),
        _ => Some(loads),
    }
}

/// How many challenges a change opens.
fn openings(change: &ChallengeChange) -> u64
    ensures count { result ≡ openings change.now }
{
    match change {
        ChallengeChange::Begun(_) => 1,
        _ => 0,
    }
}

/// How many temporary authorizations a change makes.
fn additions(change: &GrantChange) -> u64
    ensures count { result ≡ additions change.now }
{
    match change {
        GrantChange::Add(_) => 1,
        _ => 0,
    }
}

/// What is counted with an entry more that changes this, where the numbers are not too great.
fn counted(counts: ViewCounts, entry: &Entry, change: &EntryChange) -> Option<ViewCounts>
    ensures counts { IfSome result (λ n. n ≡ counts_after entry.now change.now counts) }
    ensures short { IfSome result (λ _. counts.entries < 2 ^ 62) }
{
    if counts.entries >= MOST_ENTRIES {
        return None;
    }
    Some(ViewCounts {
        entries: counts.entries + 1,
        loads: loads_after(counts.loads, &entry.event)?,
        opened: counts.opened.checked_add(openings(&change.challenge))?,
        made: counts.made.checked_add(additions(&change.grant))?,
        last_moment: entry.moment,
    })
}

/// Counts an entry more that changes this.
///
/// # Errors
/// `NoMemory`, where a number is too great.
pub fn carry_counts(
    counts: &mut ViewCounts,
    entry: &Entry,
    change: &EntryChange,
) -> Result<(), NoMemory>
    ensures counts { OnOk result (counts.new ≡ counts_after entry.now change.now counts.old) }
    ensures short { OnOk result (counts.old.entries < 2 ^ 62) }
{
    match counted(*counts, entry, change) {
        Some(next) => {
            *counts = next;
            Ok(())
        }
        None => Err(NoMemory),
    }
}
