// A sink in memory with a rule, which holds no text that the rule forbids.
ghost use Rattle.std.specs.Prelude.{◌≡◌, ◌||◌, ◌-◌, ◌<◌, ◌≤◌, Some, IfOk, OnOk, is_err, nat_le, min, length};
ghost use Rattle.pk_outside.specs.Allowing.{MayGo};
ghost use Rattle.pk_outside.specs.Causes.{HasCause};
ghost use Rattle.pk_outside.specs.Streams.{WriteGot};

use crate::bytes::ByteSink;
use pk_outside::{Failed, Sink};
use std::marker::{Brand, PhantomData};

/// A rule for the texts that a sink may hold. A program picks it by a call of a function that is
/// generic in the rule.
pub trait WriteRule {
    ghost use Rattle.std.specs.Prelude.{List, ℕ, ◌++◌, []};

    /// The texts that may be written.
    ghost allows: { List ℕ → Type 0 };

    /// Nothing may be written.
    ghost allows_nothing: { allows [] };

    /// Where a text may be written, each prefix of it may be written.
    ghost allows_prefix: { (text more : List ℕ) → allows (text ++ more) → allows text };
}

impl WriteRule for Brand {
    ghost use Rattle.std.specs.Prelude.{⊤};

    ghost allows = { λ _. ⊤ };

    ghost allows_nothing = { tt };

    ghost allows_prefix = { λ text more allowed. tt };
}

/// A sink in memory that may get only what its rule allows. That its content obeys the rule costs
/// nothing when it runs: a program in which it might hold another text is not proved.
#[derive(Drop)]
pub struct WatchedSink<P: WriteRule> {
    sink: ByteSink,
    of: PhantomData<P>,
    ghost obeys: { ∥ P.allows sink.bytes.items ∥₁ },
}

impl<P: WriteRule> WatchedSink<P> {
    ghost use Rattle.std.specs.Prelude.{[]};
    ghost use Rattle.memory_outside.specs.Held.{sink_held, sink_calls, sink_piece, sink_room};
    ghost use Rattle.memory_outside.specs.HeldWatched.{watched_held, watched_calls, watched_piece, watched_room};

    /// This sink, to which nothing was written, with the rule.
    pub fn over(sink: ByteSink) -> Self
        requires unwritten { sink_held sink ≡ [] }
        ensures unwritten { watched_held result ≡ [] }
        ensures calls { watched_calls result ≡ sink_calls sink }
        ensures piece { watched_piece result ≡ sink_piece sink }
        ensures room { watched_room result ≡ sink_room sink }
    {
        WatchedSink {
            sink,
            of: PhantomData,
        }
    }

    /// The bytes that it got. They obey the rule.
    pub fn bytes(&self) -> &[u8]
        ensures held { result.now ≡ watched_held self.now }
        ensures obeys { ∥ P.allows (watched_held self.now) ∥₁ }
    {
        self.sink.bytes()
    }

    /// How many calls failed.
    pub fn faults(&self) -> u64
        ensures faults { result ≡ (watched_calls self.now).faults }
    {
        self.sink.faults()
    }
}

impl<P: WriteRule + Send> Sink for WatchedSink<P> {
    ghost use Rattle.std.specs.Prelude.{Some};
    ghost use Rattle.memory_outside.specs.Memory.{fails_next, one_call};
    ghost use Rattle.memory_outside.specs.HeldWatched.{watched_held, watched_calls, watched_piece, watched_room};

    ghost held = { λ s. Some s.sink.bytes.items };

    ghost allowed = { P.allows };

    ghost faults = { λ s. s.sink.calls.faults };

    fn write(&mut self, bytes: &[u8]) -> Result<usize, Failed>
        requires some { 0 < length bytes.now }
        requires may { MayGo P.allows (Some (watched_held self.old)) bytes.now }
        ensures bound { IfOk result (λ n. (0 < n) × (n ≤ length bytes.now)) }
        ensures bytes { WriteGot (Some (watched_held self.old)) (Some (watched_held self.new)) result bytes.now }
        ensures cause { HasCause (watched_calls self.old).faults (watched_calls self.new).faults result }
        ensures quiet { OnOk result ((watched_calls self.new).faults ≡ (watched_calls self.old).faults) }
        ensures most { IfOk result (λ n. n ≡ min (min (length bytes.now) (watched_piece self.old)) (watched_room self.old - length (watched_held self.old))) }
        ensures piece { watched_piece self.new ≡ watched_piece self.old }
        ensures room { watched_room self.new ≡ watched_room self.old }
        ensures refused { is_err result ≡ (fails_next (watched_calls self.old) || nat_le (watched_room self.old) (length (watched_held self.old))) }
        ensures counted { watched_calls self.new ≡ one_call (watched_calls self.old) (is_err result) }
    {
        self.sink.write(bytes)
    }
}
