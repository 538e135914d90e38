// Bytes that come and bytes that go.
ghost use Rattle.std.specs.Prelude.{◌≡◌, ◌+◌, ◌^◌, ◌<◌, ◌≤◌, List, ℕ, Option, None, Bool, ⊤, IsTrue, length, IfOk, MatchResult, OnOk, OnErr};
ghost use Rattle.std.specs.Io.{ReadsAtMost};
ghost use Rattle.pk_outside.specs.Causes.{HasCause, FailsLast};
ghost use Rattle.pk_outside.specs.Links.{Origin};
ghost use Rattle.pk_outside.specs.Streams.{ReadGave, WriteGot, Got, GotFront, IsUsedUp};
ghost use Rattle.pk_outside.specs.Allowing.{MayGo};

/// The object failed, and counted it.
#[derive(Clone, Copy, Debug, PartialEq, Eq)]
pub struct Failed;

/// Where bytes come from.
pub trait Source: Drop + Send {
    /// The bytes that reads will give from here on, where they are told.
    ghost left: { Self → Option (List ℕ) };

    /// Where the source is from, and all of its bytes: told by the reading end of a link that is
    /// told.
    ghost origin: { Self → Option Origin } = { λ _. None };

    /// How often the source has failed.
    ghost faults: { Self → ℕ };

    /// At most so many bytes it can still give.
    ghost budget: { Self → ℕ };

    /// The last read has met the end.
    ghost ended: { Self → Bool };

    /// Reads the next bytes into the front of the buffer, at least one of them unless the source is
    /// at its end. The answer is their number.
    ///
    /// # Errors
    /// `Failed` where the source failed and counted one fault; nothing was read. A call that succeeds
    /// leaves the count.
    fn read(&mut self, buffer: &mut [u8]) -> Result<usize, Failed>
        requires { 0 < length buffer.old }
        ensures bound { ReadsAtMost result buffer.new }
        ensures bytes { ReadGave (left self.old) (left self.new) result buffer.new }
        ensures end { IfOk result (λ n. n ≡ 0 → IsTrue (ended self.new)) }
        ensures same { origin self.new ≡ origin self.old }
        ensures cause { HasCause (faults self.old) (faults self.new) result }
        ensures quiet { OnOk result (faults self.new ≡ faults self.old) }
        ensures fewer { MatchResult result (λ n. budget self.new + n ≤ budget self.old) (λ _. budget self.new ≤ budget self.old) };

    /// Lifts the time limit of a source that has one for the opening of its link: from here on its
    /// reads wait for as long as it takes. It takes no memory. By default it does nothing.
    fn lift_time_limit(&mut self)
        ensures left { left self.new ≡ left self.old }
        ensures same { origin self.new ≡ origin self.old }
        ensures count { faults self.new ≡ faults self.old }
        ensures rest { (budget self.new ≡ budget self.old) × (ended self.new ≡ ended self.old) }
    {}

    /// No source can give more than this.
    ghost budget_bound: { (source : Self) → budget source ≤ 2 ^ 62 };

    /// At its end a source has nothing left.
    ghost ended_is_used_up: { (source : Self) → IsTrue (ended source) → IsUsedUp (left source) };
}

/// Where bytes go.
pub trait Sink: Drop + Send {
    /// The bytes that it got, where they are told.
    ghost held: { Self → Option (List ℕ) };

    /// The rule of the sink: the texts towards which its bytes may go. By default any text.
    ghost allowed: { List ℕ → Type 0 } = { λ _. ⊤ };

    /// The path at which it was made: told by a file of a station that tells.
    ghost path: { Self → Option (List ℕ) } = { λ _. None };

    /// How often the sink has failed.
    ghost faults: { Self → ℕ };

    /// Writes the first of the bytes, at least one of them. The answer is their number.
    ///
    /// # Errors
    /// `Failed` where the sink failed or takes nothing, and counted one fault; nothing was written. A
    /// call that succeeds leaves the count.
    fn write(&mut self, bytes: &[u8]) -> Result<usize, Failed>
        requires some { 0 < length bytes.now }
        requires may { MayGo allowed (held self.old) bytes.now }
        ensures bound { IfOk result (λ n. (0 < n) × (n ≤ length bytes.now)) }
        ensures bytes { WriteGot (held self.old) (held self.new) result bytes.now }
        ensures same { path self.new ≡ path self.old }
        ensures cause { HasCause (faults self.old) (faults self.new) result }
        ensures quiet { OnOk result (faults self.new ≡ faults self.old) };

    /// Closes the sink: nothing more will be written. The other side of a link is told, and the
    /// link's own source meets the end, also in a read that waits. It takes no memory. By default it
    /// does nothing.
    fn close(&mut self)
        ensures held { held self.new ≡ held self.old }
        ensures same { path self.new ≡ path self.old }
        ensures count { faults self.new ≡ faults self.old }
    {}
}

/// Writes all of the bytes.
///
/// # Errors
/// `Failed` where the last write failed and counted one fault; a prefix of the bytes was written,
/// and no write was made behind it.
pub fn write_all<O: Sink>(output: &mut O, bytes: &[u8]) -> Result<(), Failed>
    requires may { MayGo O.allowed (O.held output.old) bytes.now }
    ensures ok { OnOk result (Got (O.held output.old) (O.held output.new) bytes.now) }
    ensures err { OnErr result (GotFront (O.held output.old) (O.held output.new) bytes.now) }
    ensures same { O.path output.new ≡ O.path output.old }
    ensures cause { HasCause (O.faults output.old) (O.faults output.new) result }
    ensures quiet { OnOk result (O.faults output.new ≡ O.faults output.old) }
    ensures last { OnErr result (FailsLast O.held O.faults output.old output.new) }
{
    let mut rest = bytes;
    while !rest.is_empty() {
        let n = output.write(rest)?;
        let (_, after) = rest.split_at(n);
        rest = after;
    }
    Ok(())
}
