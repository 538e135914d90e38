// How a slot waits for a link.
ghost use Rattle.std.specs.Prelude.{◌≡◌, ℕ, List as TheList, Option as TheOption, None, IfOk, IfErr, OnErr, MatchOption};
ghost use Rattle.std.specs.Result.{result_err};
ghost use mathlib.Core.List.{IsPrefix};
ghost use Rattle.pk_outside.specs.Doors.{GivesLink};
ghost use Rattle.service_slots.specs.declared.line.Line.{Line};
ghost use Rattle.service_slots.specs.Stops.{CountsAs, NoneEnded, StopsAs};

use crate::stop::SlotStop;
use history_lock::{Pass, TableName};
use pk_outside::{Accepted, Door};
use shared_authority::{Kept, LimitsName, Shared};
use std::sync::Wait;

/// The next link of a slot's door. None where none came for about a second, and the lock has not
/// ended.
///
/// # Errors
/// Why the slot stops. The door then tells what it told.
fn accept_once<L: LimitsName, T: TableName, D: Door, R: Wait>(
    rt: &R,
    shared: &Shared<L, T>,
    door: &mut D,
    pass: &mut Pass<Kept<L>, T>,
) -> Result<Option<D::Link>, SlotStop>
    ensures links { IfOk result (λ came. MatchOption came ((D.told door.new ≡ D.told door.old) × (pass.new.ended ≡ None))
        (λ link. GivesLink (D.told door.old) (D.told door.new) (D.Link.origin link))) }
    ensures left { OnErr result (D.told door.new ≡ D.told door.old) }
    ensures stops { IfErr result (λ stop. (most : TheOption ℕ) (lines : TheList Line) → NoneEnded lines
        → StopsAs L.limits most pass.new (D.told door.new) (D.faults door.new) lines stop) }
    ensures counts { CountsAs (D.faults door.old) (D.faults door.new) (result_err result) }
    ensures owner { D.owner door.new ≡ D.owner door.old }
    ensures grows { IsPrefix pass.old.history pass.new.history }
{
    match door.accept() {
        Accepted::Link(link) => Ok(Some(link)),
        Accepted::Closed => Err(SlotStop::Closed),
        Accepted::Failed => Err(SlotStop::DoorFailed),
        Accepted::NoMemory => Err(SlotStop::NoMemory),
        Accepted::Idle => match shared.kept_cause(rt, pass) {
            Some(cause) => Err(SlotStop::Ended { cause }),
            None => Ok(None),
        },
    }
}

/// Waits for the next link of a slot's door, for as long as the lock has not ended.
///
/// # Errors
/// Why the slot stops. The door then tells what it told.
pub(crate) fn next_link<L: LimitsName, T: TableName, D: Door, R: Wait>(
    rt: &R,
    shared: &Shared<L, T>,
    door: &mut D,
    pass: &mut Pass<Kept<L>, T>,
) -> Result<D::Link, SlotStop>
    ensures links { IfOk result (λ link. GivesLink (D.told door.old) (D.told door.new) (D.Link.origin link)) }
    ensures left { OnErr result (D.told door.new ≡ D.told door.old) }
    ensures stops { IfErr result (λ stop. (most : TheOption ℕ) (lines : TheList Line) → NoneEnded lines
        → StopsAs L.limits most pass.new (D.told door.new) (D.faults door.new) lines stop) }
    ensures counts { CountsAs (D.faults door.old) (D.faults door.new) (result_err result) }
    ensures owner { D.owner door.new ≡ D.owner door.old }
    ensures grows { IsPrefix pass.old.history pass.new.history }
{
    for _turn in rt.forever() {
        if let Some(link) = accept_once(rt, shared, door, pass)? {
            return Ok(link);
        }
    }
    unreachable!()
}
