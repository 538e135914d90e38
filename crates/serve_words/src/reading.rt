// The plan that words name.
ghost use Rattle.std.specs.Prelude.{◌≡◌, ◌≤◌, ◌*◌, ◌==◌, ◌&&◌, nat_le, not, [], Some, None, IfOk, IfSome, MatchOption};
ghost use Rattle.serve_words.specs.Plans.{IsAllowed, IsInRange, doors_from, is_root, plan_from, plan_in, planned};

use crate::amounts::{Amounts, MAX_SLOTS, amounts_in, value_of};
use crate::plan::{DoorList, ServePlan};
use authority_model::{Limits, MAX_BYTES};
use command_line::read_door;
use pk_types::{List, NoMemory, Text};
use std::alloc::Global;

/// Whether a path may be a root: it is not empty and does not end in `/`.
pub fn is_root(path: &Text) -> bool
    ensures root { result ≡ is_root path.now }
{
    let path = path.bytes();
    !path.is_empty() && !path.ends_with(b"/")
}

/// Puts the doors that the words name behind those in the list, and gives the words behind them; `None`
/// exactly where one is not of the form.
#[tactic(auto, using(crate::proofs::Doors::door_read, crate::proofs::Doors::doors_end, crate::proofs::Doors::fewer_words))]
fn read_doors<'a>(
    alloc: Global,
    words: &'a [Text],
    doors: &mut DoorList,
) -> Result<Option<&'a [Text]>, NoMemory>
    ensures doors { IfOk result (λ rest. MatchOption rest (doors_from doors.old words.now ≡ None) (λ r. doors_from doors.old words.now ≡ Some (doors.new, r.now))) }
{
    let mut rest = words;
    while let Some((word, later)) = value_of(rest, b"--door") {
        let Some(door) = read_door(alloc, word.bytes())? else {
            return Ok(None);
        };
        doors.try_push(door)?;
        rest = later;
    }
    Ok(Some(rest))
}

/// Whether so many slots at each of so many doors are at most 64.
#[tactic(auto, using(crate::proofs::Rooms::too_many))]
fn is_room(slots: u64, doors: usize) -> bool
    requires slots { (1 ≤ slots) × (slots ≤ MAX_SLOTS) }
    ensures room { result ≡ nat_le (slots * doors) MAX_SLOTS }
{
    if doors > 64 {
        return false;
    }
    slots * doors as u64 <= MAX_SLOTS
}

/// Whether there is a door, and so many slots at each are at most 64 over all.
pub fn is_served(slots: u64, doors: usize) -> bool
    requires slots { (1 ≤ slots) × (slots ≤ MAX_SLOTS) }
    ensures served { result ≡ (not (doors == 0) && nat_le (slots * doors) MAX_SLOTS) }
{
    doors != 0 && is_room(slots, doors)
}

/// The plan of this root, these doors and these amounts.
fn planned(root: Text, doors: DoorList, amounts: Amounts) -> Option<ServePlan>
    requires range { IsInRange amounts }
    ensures plan { result ≡ planned root doors amounts }
    ensures allowed { IfSome result IsAllowed }
{
    if !is_served(amounts.slots, doors.len()) {
        return None;
    }
    Some(ServePlan {
        root,
        doors,
        slots: amounts.slots as u32,
        stop_after: amounts.stop_after.map(|k| k as u32),
        limits: Limits {
            entries: amounts.entries,
            bytes: MAX_BYTES,
        },
        live: amounts.live,
        audit: amounts.audit,
    })
}

/// The plan that the words behind `serve` name: `--root DIR`, one or more times `--door UID:PATH`,
/// `--slots N`, and then `--stop-after K`, `--entries K`, `--live` and `--audit`, each or not, in this
/// order.
///
/// `None` exactly where the words are not of this form.
///
/// # Errors
/// `NoMemory` alone.
pub fn read_plan(alloc: Global, words: &[Text]) -> Result<Option<ServePlan>, NoMemory>
    ensures plan { IfOk result (λ plan. plan ≡ plan_in words.now) }
    ensures allowed { IfOk result (λ plan. IfSome plan IsAllowed) }
{
    let Some((root, rest)) = value_of(words, b"--root") else {
        return Ok(None);
    };
    if !is_root(root) {
        return Ok(None);
    }
    let mut doors = List::new(alloc);
    let Some(rest) = read_doors(alloc, rest, &mut doors)? else {
        return Ok(None);
    };
    let Some(amounts) = amounts_in(rest) else {
        return Ok(None);
    };
    Ok(planned(root.try_copy()?, doors, amounts))
}
