// Bytes that are fed to a handshake, and the replies that are written for them.
ghost use Rattle.std.specs.Prelude.{◌≡◌, ◌≤◌, ◌∷◌, [], ◌++◌, ℕ, List, Option, IfNone, MatchOption, length, take};
ghost use Rattle.link_opening.specs.Feeds.{Fed, StopsAt, StopFaults};
ghost use Rattle.link_opening.specs.Replying.{IsFed};

use crate::ends::ShakeStop;
use link_handshake::{Handshake, ShakeStep, reply_bytes};
use pk_outside::{Failed, Sink, write_all};

/// Feeds the next byte, and writes what is replied.
fn feed_byte<O: Sink>(
    shake: &mut Handshake,
    guid: u128,
    sink: &mut O,
    byte: u8,
) -> Option<ShakeStop>
    requires may { IsFed O.allowed guid (byte ∷ []) (O.held sink.old) shake.old }
    ensures feeds { (door : ℕ) (bytes : List ℕ) (held : Option (List ℕ)) → Fed door guid bytes held (O.held sink.old) shake.old
        → MatchOption result (Fed door guid (bytes ++ byte ∷ []) held (O.held sink.new) shake.new) (λ stop. StopsAt door guid (bytes ++ byte ∷ []) held (O.held sink.new) stop) }
    ensures faults { MatchOption result (O.faults sink.new ≡ O.faults sink.old) (λ stop. StopFaults O.held O.faults sink.old sink.new stop) }
{
    match shake.feed(byte) {
        ShakeStep::More => None,
        ShakeStep::Say(reply) => {
            let line = reply_bytes(reply, guid);
            match write_all(sink, line.bytes()) {
                Ok(()) => None,
                Err(Failed) => Some(ShakeStop::WriteFault),
            }
        }
        ShakeStep::Begun => Some(ShakeStop::Begun),
        ShakeStep::Fault(fault) => Some(ShakeStop::Fault { fault }),
    }
}

/// Feeds bytes until they are used up or the handshake is fed no further. The answer is how many
/// were fed.
pub fn feed_bytes<O: Sink>(
    shake: &mut Handshake,
    guid: u128,
    sink: &mut O,
    bytes: &[u8],
) -> (usize, Option<ShakeStop>)
    requires may { IsFed O.allowed guid bytes.now (O.held sink.old) shake.old }
    ensures feeds { (door : ℕ) (before : List ℕ) (held : Option (List ℕ)) → Fed door guid before held (O.held sink.old) shake.old
        → let (fed, stopped) = result in MatchOption stopped (Fed door guid (before ++ bytes.now) held (O.held sink.new) shake.new) (λ stop. StopsAt door guid (before ++ take fed bytes.now) held (O.held sink.new) stop) }
    ensures faults { let (fed, stopped) = result in MatchOption stopped (O.faults sink.new ≡ O.faults sink.old) (λ stop. StopFaults O.held O.faults sink.old sink.new stop) }
    ensures within { let (fed, stopped) = result in fed ≤ length bytes.now }
    ensures all { let (fed, stopped) = result in IfNone stopped (fed ≡ length bytes.now) }
{
    let mut fed = 0;
    for byte in bytes {
        fed += 1;
        match feed_byte(shake, guid, sink, *byte) {
            None => {}
            Some(stop) => return (fed, Some(stop)),
        }
    }
    (fed, None)
}
