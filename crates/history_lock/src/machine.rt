// What lies under the lock.
ghost use Rattle.std.specs.Prelude.{◌≡◌, ℕ, ◌^◌, ◌≤◌, ◌↔◌, ◌⊎◌, List, [], ◌∷◌, ◌++◌, length, IfOk, IfErr, IsTrue};
ghost use mathlib.Core.List.{IsPrefix};
ghost use Rattle.history_lock.specs.declared.machine.TheConstants.{MOST_PASSES};
ghost use Rattle.history_lock.specs.Waking.{Wakes};

use crate::woken::Woken;

/// How many passes a lock can admit.
pub const MOST_PASSES: u32 = 1_048_576;

/// Why a lock has ended.
#[derive(Clone, Copy, PartialEq, Eq, Debug)]
pub enum EndCause {
    /// No entry fits in any more: `entries` are kept, with `bytes` counted for them.
    JournalFull { entries: u64, bytes: u64 },
    /// Memory ran out where no caller could be told.
    NoMemory,
    /// Each pass was made: there are `admitted`.
    Admissions { admitted: u32 },
}

/// A machine that stands for a list of entries, of which each call appends one. It knows nothing of
/// locks and threads.
pub trait Machine {
    ghost use Rattle.history_lock.specs.declared.machine.EndCause.{EndCause};

    /// What a caller asks for.
    type Op;

    /// What a caller is answered.
    type Reply;

    /// Why the machine refuses.
    type Refusal;

    /// An entry.
    type Item;

    /// The entries that a machine stands for, the oldest first.
    ghost entries: { Self → List Self.Item };

    /// The number of the caller whose call made an entry.
    ghost caller_of: { Self.Item → ℕ };

    /// Which lists of entries are legal.
    ghost legal: { List Self.Item → Type 0 };

    /// After which entries an operation of a caller may be applied.
    ghost is_ready: { ℕ → Self.Op → List Self.Item → Type 0 };

    /// Which entry and which reply an operation of a caller gives, after which entries.
    ghost gives: { ℕ → Self.Op → List Self.Item → Self.Item → Self.Reply → Type 0 };

    /// After which entries an operation of a caller is refused, and how.
    ghost refuses: { ℕ → Self.Op → List Self.Item → Self.Refusal → Type 0 };

    /// The number for which a call with an operation waits.
    ghost awaited: { Self.Op → ℕ };

    /// Which causes fit which entries and which count of passes.
    ghost fits: { EndCause → List Self.Item → ℕ → Type 0 };

    /// Applies an operation of the caller. Ok appends one entry, by the caller, and the list is
    /// legal then. A refusal changes nothing and hands the operation back.
    fn apply(&mut self, caller: u32, op: Self::Op) -> Result<Self::Reply, (Self::Refusal, Self::Op)>
        requires { is_ready caller op (entries self.old) }
        ensures ok { IfOk result (λ reply. (e : Self.Item)
            × (entries self.new ≡ entries self.old ++ e ∷ [])
            × (caller_of e ≡ caller)
            × gives caller op (entries self.old) e reply
            × legal (entries self.new)) }
        ensures err { IfErr result (λ (refusal, back). (entries self.new ≡ entries self.old)
            × (back ≡ op)
            × refuses caller op (entries self.old) refusal) };

    /// Whether an operation of the caller may be applied now.
    fn ready(&self, caller: u32, op: &Self::Op) -> bool
        ensures { IsTrue result ↔ is_ready caller op.now (entries self.now) };

    /// The number for which a call with an operation waits.
    fn awaits(op: &Self::Op) -> u32
        ensures { result ≡ awaited op.now };

    /// Whom the last entry wakes: all that it has made ready, and perhaps others.
    fn woken(&self) -> Woken
        ensures { (list : List Self.Item) (e : Self.Item) (caller : ℕ) (op : Self.Op)
            → entries self.now ≡ list ++ e ∷ []
            → is_ready caller op (entries self.now)
            → is_ready caller op list ⊎ Wakes result (awaited op) };

    /// Whom the last entry wakes but for those that wait for its own caller's number: all others
    /// that it has made ready, and perhaps more.
    fn woken_others(&self) -> Woken
        ensures { (list : List Self.Item) (e : Self.Item) (caller : ℕ) (op : Self.Op)
            → entries self.now ≡ list ++ e ∷ []
            → is_ready caller op (entries self.now)
            → is_ready caller op list ⊎ (awaited op ≡ caller_of e) ⊎ Wakes result (awaited op) };

    /// No entry at all is legal.
    ghost begins: { legal [] };

    /// A legal list has at most 2^32 entries, so that their count never leaves the word of the
    /// table.
    ghost bounded: { (list : List Self.Item) → legal list → length list ≤ 2 ^ 32 };

    /// A cause that fits goes on to fit, as legal entries come and as passes are made, of which
    /// there are at most 1,048,576.
    ghost lasts: { (cause : EndCause) (list more : List Self.Item) (m n : ℕ)
        → fits cause list m → legal more → IsPrefix list more → m ≤ n → n ≤ MOST_PASSES
        → fits cause more n };
}
