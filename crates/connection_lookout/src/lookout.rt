// Whether a connection looks at processes, and what it does then.
ghost use Rattle.std.specs.Prelude.{◌≡◌, ◌≤◌, Bool, Some, is_err, not};
ghost use Rattle.connection_lookout.specs.Watching.{HasMetBy, HaveMet, IsOut, Looks, LooksAt, TookOut, TookTurn, watch, watch_of};
ghost use Rattle.connection_lookout.specs.Watching as watching;
ghost use Rattle.history_lock.specs.Calls.{Learned};
ghost use Rattle.history_lock.specs.declared.machine.TheConstants.{MOST_PASSES};
ghost use Rattle.pk_outside.specs.Causes.{RoseWhere};
ghost use Rattle.shared_authority.specs.Journals.{IsJournal, caller_of};
ghost use Rattle.sight_events.specs.Named as naming;

use authority_model::Event;
use history_lock::{Pass, TableName};
use pk_outside::{Sighted, Sights};
use shared_authority::{Kept, LimitsName, Shared};
use sight_events::named;
use std::sync::Wait;

/// A look at a process failed, and was counted.
#[derive(Clone, Copy, Debug, PartialEq, Eq)]
pub struct SightFailed;

/// Sights that are never asked: those of a connection that never looks.
#[derive(Clone, Copy, Debug)]
pub struct NoSights;

impl Sights for NoSights {
    ghost use Rattle.std.specs.Prelude.{None};

    ghost left = { λ _. None };

    ghost gave = { λ _. None };

    ghost faults = { λ _. 0 };

    fn sight(&mut self, _pid: u32) -> Sighted {
        Sighted::Gone
    }
}

/// Whether a look failed.
fn has_failed(sighted: Sighted) -> bool
    ensures failed { watching.has_seen sighted ≡ not result }
{
    match sighted {
        Sighted::Failed => true,
        Sighted::Alive { .. } | Sighted::Gone => false,
    }
}

/// Whether a sighting shows that the process which started then has ended: none has its pid, or
/// another one has it.
fn has_ended(start: u64, sighted: Sighted) -> bool
    ensures ended { result ≡ watching.has_ended start sighted }
{
    match sighted {
        Sighted::Alive { start: seen } => seen != start,
        Sighted::Gone => true,
        Sighted::Failed => false,
    }
}

/// Enters the last load without a process, where it lists this one. Where that is refused the lock is
/// ended by the cause of the refusal.
fn take_out<L: LimitsName, T: TableName, R: Wait>(
    rt: &R,
    shared: &Shared<L, T>,
    sighter: &mut Pass<Kept<L>, T>,
    pid: u32,
    start: u64,
)
    ensures out { (unlisted : Bool)
        × TookOut unlisted pid start sighter.old sighter.new
        × IsOut sighter.old.history pid start sighter.new }
{
    match shared.submit_unlist(rt, sighter, 0, pid, start) {
        Ok(_) => {}
        Err(refused) => match refused.cause() {
            None => {}
            Some(cause) => {
                shared.end(rt, sighter, cause);
            }
        },
    }
}

/// Takes one sighting of a process, by the sighter.
fn look_at<L: LimitsName, T: TableName, G: Sights, R: Wait>(
    rt: &R,
    shared: &Shared<L, T>,
    sighter: &mut Pass<Kept<L>, T>,
    sights: &mut G,
    pid: u32,
    start: u64,
) -> Result<(), SightFailed>
    ensures took { TookTurn (pid, start) (watch sighter.old (G.left sights.old) (G.gave sights.old))
        (watch sighter.new (G.left sights.new) (G.gave sights.new)) (is_err result) }
    ensures cause { RoseWhere (is_err result) (G.faults sights.old) (G.faults sights.new) }
{
    let sighted = sights.sight(pid);
    if has_failed(sighted) {
        return Err(SightFailed);
    }
    if has_ended(start, sighted) {
        take_out(rt, shared, sighter, pid, start);
    }
    Ok(())
}

/// Takes one sighting of the process that an event names, by the sighter. It knows what the pass of the
/// connection knows before, and the pass knows afterwards what it did.
fn look_by<L: LimitsName, T: TableName, G: Sights, R: Wait>(
    rt: &R,
    shared: &Shared<L, T>,
    pass: &mut Pass<Kept<L>, T>,
    sighter: &mut Pass<Kept<L>, T>,
    sights: &mut G,
    event: &Event,
) -> Result<(), SightFailed>
    ensures looks { LooksAt (naming.named event.now) pass.old pass.new (watch sighter.old (G.left sights.old) (G.gave sights.old))
        (watch sighter.new (G.left sights.new) (G.gave sights.new)) (is_err result) }
    ensures cause { RoseWhere (is_err result) (G.faults sights.old) (G.faults sights.new) }
{
    let Some((pid, start)) = named(event) else {
        return Ok(());
    };
    shared.meet(pass, sighter);
    let looked = look_at(rt, shared, sighter, sights, pid, start);
    shared.meet(pass, sighter);
    looked
}

/// What a connection does before it hands an event in. One that has a sighter takes one sighting of
/// the process that the event names. Where this has ended, or another process has its pid, the
/// sighter enters the last load without it; where this is refused the lock ends. The pass of the
/// connection knows then what the sighter knows. A connection that has no sighter does nothing: it
/// never looks.
///
/// # Errors
/// The look failed, and was counted.
pub fn look<L: LimitsName, T: TableName, G: Sights, R: Wait>(
    rt: &R,
    shared: &Shared<L, T>,
    pass: &mut Pass<Kept<L>, T>,
    sighter: &mut Option<Pass<Kept<L>, T>>,
    sights: &mut G,
    event: &Event,
) -> Result<(), SightFailed>
    // What the sighter saw and did, if there is one, and what the connection's pass learned.
    ensures looks { Looks event.now pass.old pass.new (watch_of sighter.old (G.left sights.old) (G.gave sights.old))
        (watch_of sighter.new (G.left sights.new) (G.gave sights.new)) (is_err result) }
    // A look that failed was counted, and no other.
    ensures cause { RoseWhere (is_err result) (G.faults sights.old) (G.faults sights.new) }
{
    match sighter {
        None => Ok(()),
        Some(sighter) => look_by(rt, shared, pass, sighter, sights, event),
    }
}

/// The two passes of a connection and its sighter tell each other what they know.
fn meet_three<L: LimitsName, T: TableName>(
    shared: &Shared<L, T>,
    pass: &mut Pass<Kept<L>, T>,
    collector: &mut Pass<Kept<L>, T>,
    sighter: &mut Pass<Kept<L>, T>,
)
    ensures equal { (pass.new.history ≡ collector.new.history)
        × (pass.new.made ≡ collector.new.made)
        × (pass.new.ended ≡ collector.new.ended) }
    ensures top { pass.new.made ≤ MOST_PASSES }
    ensures first { Learned caller_of IsJournal pass.old pass.new }
    ensures second { Learned caller_of IsJournal collector.old collector.new }
    ensures third { HasMetBy pass.new sighter.old sighter.new }
{
    shared.meet(pass, sighter);
    shared.meet(pass, collector);
    shared.meet(pass, sighter);
}

/// The two passes of a connection and its sighter, if it has one, tell each other what they know.
pub fn meet<L: LimitsName, T: TableName>(
    shared: &Shared<L, T>,
    pass: &mut Pass<Kept<L>, T>,
    collector: &mut Pass<Kept<L>, T>,
    sighter: &mut Option<Pass<Kept<L>, T>>,
)
    // Both passes know the same.
    ensures equal { (pass.new.history ≡ collector.new.history)
        × (pass.new.made ≡ collector.new.made)
        × (pass.new.ended ≡ collector.new.ended) }
    ensures top { pass.new.made ≤ MOST_PASSES }
    ensures first { Learned caller_of IsJournal pass.old pass.new }
    ensures second { Learned caller_of IsJournal collector.old collector.new }
    // And so does the sighter.
    ensures third { HaveMet pass.new sighter.old sighter.new }
{
    match sighter {
        None => shared.meet(pass, collector),
        Some(sighter) => meet_three(shared, pass, collector, sighter),
    }
}
