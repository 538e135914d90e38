// The messages of a connection, one after another.
ghost use Rattle.std.specs.Prelude.{◌≡◌, ◌≤◌, ℕ, Some, MatchResult};
ghost use Rattle.history_lock.specs.Entries.{NoneBy};
ghost use Rattle.shared_authority.specs.Journals.{caller_of};
ghost use Rattle.connection_lookout.specs.Watching.{IsFresh, watch_of};
ghost use Rattle.connection_reader.specs.Reading.{Hand, IsRefused, IsUnderway, ReadsTo, ReadFaults, SightFaultsTo, hand};
ghost use Rattle.connection_reader.specs.Stops.{end_of, IsStoppedBy, SightFaults, Stops, StopFaults, TurnFaults, TurnSights};

use crate::common::Common;
use crate::ends::{ReadStop, ReaderEnd, end_of};
use crate::handing::{Answerer, hand_in, look_before};
use crate::inbox::Inbox;
use authority_model::Event;
use connection_lookout::SightFailed;
use connection_writer::Begun;
use history_lock::{EndCause, Pass, TableName};
use pk_outside::{Clock, Salt, Sights, Sink, Source};
use shared_authority::{Kept, LimitsName};
use std::sync::Wait;
use usual_calls::NextEvent;

/// Hands in what the next message asks, or reads on. Where a process is named it is looked at before.
///
/// # Errors
/// As for `hand_in`.
fn read_next<
    L: LimitsName,
    T: TableName,
    R: Wait,
    I: Source,
    C: Clock,
    S: Salt,
    G: Sights,
    O: Sink,
    B: Begun,
>(
    common: &Common<'_, '_, L, T, O, B, R>,
    pass: &mut Pass<Kept<L>, T>,
    sighter: &mut Option<Pass<Kept<L>, T>>,
    clock: &mut C,
    salt: &mut S,
    source: &mut I,
    sights: &mut G,
    inbox: &mut Inbox,
) -> Result<Option<ReadStop>, EndCause>
    ensures reads { (uid : ℕ) (s : Hand) → IsUnderway uid s (hand pass.old (I.left source.old) (C.gave clock.old) (S.gave salt.old) inbox.old (watch_of sighter.old (G.left sights.old) (G.gave sights.old)))
        → MatchResult result (λ _. IsUnderway uid s (hand pass.new (I.left source.new) (C.gave clock.new) (S.gave salt.new) inbox.new (watch_of sighter.new (G.left sights.new) (G.gave sights.new))))
        (λ _. IsRefused uid s (hand pass.new (I.left source.new) (C.gave clock.new) (S.gave salt.new) inbox.new (watch_of sighter.new (G.left sights.new) (G.gave sights.new)))) }
    ensures stops { MatchResult result (Stops (I.ended source.new) inbox.new) (λ cause. IsStoppedBy L.limits cause pass.new) }
    ensures faults { TurnFaults I.left I.faults source.old source.new result }
    ensures sights { TurnSights (G.faults sights.old) (G.faults sights.new) result }
    ensures later { I.faults source.old ≤ I.faults source.new }
    ensures same { I.origin source.new ≡ I.origin source.old }
{
    match inbox.next_event() {
        NextEvent::Whole { event, used } => {
            match look_before(common, pass, sighter, sights, &event) {
                Ok(()) => {}
                Err(SightFailed) => return Ok(Some(ReadStop::SightFault)),
            }
            let by = inbox.take(used);
            hand_in(common, pass, clock, salt, event, by)?;
            Ok(None)
        }
        NextEvent::Bad { kind, at } => Ok(Some(ReadStop::BadBytes { kind, at })),
        NextEvent::Partial => Ok(inbox.read_on(source)),
        NextEvent::NoMemory => Ok(Some(ReadStop::NoMemory)),
    }
}

/// Hands in what each message asks, until there is no further one.
///
/// # Errors
/// As for `hand_in`.
fn read_messages<
    L: LimitsName,
    T: TableName,
    R: Wait,
    I: Source,
    C: Clock,
    S: Salt,
    G: Sights,
    O: Sink,
    B: Begun,
>(
    common: &Common<'_, '_, L, T, O, B, R>,
    pass: &mut Pass<Kept<L>, T>,
    sighter: &mut Option<Pass<Kept<L>, T>>,
    clock: &mut C,
    salt: &mut S,
    source: &mut I,
    sights: &mut G,
    inbox: &mut Inbox,
) -> Result<ReadStop, EndCause>
    ensures reads { (uid : ℕ) (s : Hand) → IsUnderway uid s (hand pass.old (I.left source.old) (C.gave clock.old) (S.gave salt.old) inbox.old (watch_of sighter.old (G.left sights.old) (G.gave sights.old)))
        → MatchResult result (λ _. IsUnderway uid s (hand pass.new (I.left source.new) (C.gave clock.new) (S.gave salt.new) inbox.new (watch_of sighter.new (G.left sights.new) (G.gave sights.new))))
        (λ _. IsRefused uid s (hand pass.new (I.left source.new) (C.gave clock.new) (S.gave salt.new) inbox.new (watch_of sighter.new (G.left sights.new) (G.gave sights.new)))) }
    ensures stops { MatchResult result (λ stop. Stops (I.ended source.new) inbox.new (Some stop)) (λ cause. IsStoppedBy L.limits cause pass.new) }
    ensures faults { MatchResult result (λ stop. StopFaults I.left I.faults source.old source.new (Some stop)) (λ _. I.faults source.new ≡ I.faults source.old) }
    ensures sights { MatchResult result (λ stop. SightFaults (G.faults sights.old) (G.faults sights.new) (Some stop)) (λ _. G.faults sights.new ≡ G.faults sights.old) }
    ensures later { I.faults source.old ≤ I.faults source.new }
    ensures same { I.origin source.new ≡ I.origin source.old }
{
    for _turn in common.rt.forever() {
        match read_next(common, pass, sighter, clock, salt, source, sights, inbox)? {
            None => {}
            Some(stop) => return Ok(stop),
        }
    }
    unreachable!()
}

/// Hands in the beginning of the connection, what its messages ask, and its end.
///
/// # Errors
/// As for `hand_in`.
fn read_all<
    L: LimitsName,
    T: TableName,
    R: Wait,
    I: Source,
    C: Clock,
    S: Salt,
    G: Sights,
    O: Sink,
    B: Begun,
>(
    common: &Common<'_, '_, L, T, O, B, R>,
    pass: &mut Pass<Kept<L>, T>,
    sighter: &mut Option<Pass<Kept<L>, T>>,
    uid: u32,
    clock: &mut C,
    salt: &mut S,
    source: &mut I,
    sights: &mut G,
    inbox: &mut Inbox,
) -> Result<ReadStop, EndCause>
    requires fresh { NoneBy caller_of pass.old.number pass.old.history }
    requires fresh_sighter { IsFresh (watch_of sighter.old (G.left sights.old) (G.gave sights.old)) }
    ensures reads { ReadsTo L.limits uid (hand pass.old (I.left source.old) (C.gave clock.old) (S.gave salt.old) inbox.old (watch_of sighter.old (G.left sights.old) (G.gave sights.old)))
        (hand pass.new (I.left source.new) (C.gave clock.new) (S.gave salt.new) inbox.new (watch_of sighter.new (G.left sights.new) (G.gave sights.new))) (I.ended source.new) (end_of result) }
    ensures faults { ReadFaults I.left I.faults source.old source.new (end_of result) }
    ensures sights { SightFaultsTo (G.faults sights.old) (G.faults sights.new) (end_of result) }
    ensures later { I.faults source.old ≤ I.faults source.new }
    ensures same { I.origin source.new ≡ I.origin source.old }
{
    let by = Answerer::Writer;
    hand_in(common, pass, clock, salt, Event::Connect { uid }, by)?;
    let stop = read_messages(common, pass, sighter, clock, salt, source, sights, inbox)?;
    hand_in(common, pass, clock, salt, Event::Depart, by)?;
    Ok(stop)
}

/// Reads a connection of this user: hands in its beginning, the event of each message, and its end
/// (D-Bus Specification, "Message Format"; what a message asks is said in the reference manual,
/// "org.freedesktop.PolicyKit1.Authority Interface"). Each takes one reading of the clock and one
/// random word, and is an entry of the pass's connection.
///
/// The messages are those of the bytes in the inbox and then of those that are read. The end of the
/// connection is handed in whatever stopped the messages, so that a writing half that waits for it
/// goes on. Where a message is all that a read gave, its answer is written at the desk at once, and the
/// writing half is not woken for it. Where something is refused the lock is ended by the cause of the
/// refusal, and nothing more is handed in.
///
/// A connection that looks at processes has a sighter. Before an event that names a process it takes
/// one sighting of this. Where this fails the event is not handed in, nor any after it but the end of
/// the connection.
///
/// # Errors
/// `Ended` with the kept cause, only where something was refused; `BadBytes` exactly where the next
/// message has a fault, with the first one and its place; `Truncated` exactly where the source ended
/// inside a message; `ReadFault` exactly where the source counted a fault, which its last call did,
/// and nothing was refused behind it; `SightFault` exactly where the last look failed, and nothing was
/// refused behind it; `NoMemory`, which may come in place of any other answer.
pub fn read_connection<
    L: LimitsName,
    T: TableName,
    R: Wait,
    I: Source,
    C: Clock,
    S: Salt,
    G: Sights,
    O: Sink,
    B: Begun,
>(
    common: &Common<'_, '_, L, T, O, B, R>,
    pass: &mut Pass<Kept<L>, T>,
    sighter: &mut Option<Pass<Kept<L>, T>>,
    uid: u32,
    clock: &mut C,
    salt: &mut S,
    source: &mut I,
    sights: &mut G,
    inbox: &mut Inbox,
) -> ReaderEnd
    // The connection has no item yet.
    requires fresh { NoneBy caller_of pass.old.number pass.old.history }
    // Nor has its sighter.
    requires fresh_sighter { IsFresh (watch_of sighter.old (G.left sights.old) (G.gave sights.old)) }
    // What was read was handed in, each message once and in order, and the connection's items are those of it.
    ensures reads { ReadsTo L.limits uid (hand pass.old (I.left source.old) (C.gave clock.old) (S.gave salt.old) inbox.old (watch_of sighter.old (G.left sights.old) (G.gave sights.old)))
        (hand pass.new (I.left source.new) (C.gave clock.new) (S.gave salt.new) inbox.new (watch_of sighter.new (G.left sights.new) (G.gave sights.new))) (I.ended source.new) result }
    // A fault of the source is told exactly where it counted it, by its last call.
    ensures faults { ReadFaults I.left I.faults source.old source.new result }
    // A fault of the sights is told exactly where they counted it.
    ensures sights { SightFaultsTo (G.faults sights.old) (G.faults sights.new) result }
    ensures later { I.faults source.old ≤ I.faults source.new }
    // The source is from where it was.
    ensures same { I.origin source.new ≡ I.origin source.old }
{
    end_of(read_all(
        common, pass, sighter, uid, clock, salt, source, sights, inbox,
    ))
}
