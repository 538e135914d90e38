// Laws about the form of values and messages. Each is the contract of a function that does nothing.
ghost use Rattle.std.specs.Prelude.{◌≡◌, ◌+◌, ◌<◌, ◌≤◌, ℕ, Bool, List, ◌++◌, length, take, Ok};
ghost use Rattle.dbus_values.specs.declared.codes.TheConstants.{MAX_MESSAGE};
ghost use Rattle.dbus_values.specs.declared.fault.FaultKind.{FaultKind};
ghost use Rattle.dbus_values.specs.Awaiting.{awaited};
ghost use Rattle.dbus_values.specs.Reading.{spot_at};
ghost use Rattle.dbus_values.specs.Walk.{Walked, walked, values_at};
ghost use Rattle.dbus_values.specs.Trees.{Trees, types_of, all_marshalled, all_pieces, AllFit};
ghost use Rattle.dbus_values.specs.Next.{Seen, Whole, Partial, Bad, next_of};
ghost use Rattle.dbus_values.specs.Streams.{IsForm, Stream, IsBytes};

/// Values that were marshalled are read again by their signature, whatever follows them, in either
/// byte order and at any place.
pub fn values_are_read_again()
    ensures again { (d : ℕ) (big : Bool) (ts : Trees) (at : ℕ) (rest : List ℕ) → d ≤ 64 → AllFit d ts → length (all_marshalled big at ts) ≤ MAX_MESSAGE
        → values_at d big (types_of ts) at (all_marshalled big at ts ++ rest) ≡ Ok (walked (length (all_pieces ts)) (spot_at (at + length (all_marshalled big at ts)) rest)) }
{}

/// What is read by a signature is the marshalled form of values that fit, to the last byte that
/// was read.
pub fn values_read_have_a_form()
    ensures found { (d : ℕ) (big : Bool) (sig : List ℕ) (at : ℕ) (bytes : List ℕ) (w : Walked) → IsBytes bytes → values_at d big sig at bytes ≡ Ok w
        → (ts : Trees) × AllFit d ts × (sig ≡ types_of ts) × (bytes ≡ all_marshalled big at ts ++ w.rest) }
{}

/// No message begins another: two messages at the front of the same bytes are one, and are shown
/// alike.
pub fn no_message_begins_another()
    ensures one { (a b x y : List ℕ) (s t : Seen) → IsForm a s → IsForm b t → a ++ x ≡ b ++ y → (a ≡ b) × (s ≡ t) }
{}

/// The messages of a stream are no others, and neither is its rest.
pub fn a_stream_has_one_reading()
    ensures one { (bytes : List ℕ) (ss ts : List Seen) (r q : List ℕ) → Stream bytes ss r → Stream bytes ts q → (ss ≡ ts) × (r ≡ q) }
{}

/// A fault stays the first fault, and a message the first message, whatever follows. A fault of
/// the first 16 bytes shows as soon as the bytes up to it are there, every other one only when
/// the whole length is there.
pub fn an_answer_stays()
    ensures fault { (bytes more : List ℕ) (kind : FaultKind) (at : ℕ) → next_of bytes ≡ Bad kind at → next_of (bytes ++ more) ≡ Bad kind at }
    ensures whole { (bytes more : List ℕ) (seen : Seen) (used : ℕ) → next_of bytes ≡ Whole seen used → next_of (bytes ++ more) ≡ Whole seen used }
{}

/// Less than a whole message is `Partial`, however little of it is missing, and less than what is
/// `Partial` is `Partial`. What is `Partial` has fewer bytes than the longest message.
pub fn a_shorter_text_is_partial()
    ensures message { (bytes : List ℕ) (seen : Seen) (used n : ℕ) → next_of bytes ≡ Whole seen used → n < used → next_of (take n bytes) ≡ Partial }
    ensures shorter { (bytes more : List ℕ) → next_of (bytes ++ more) ≡ Partial → next_of bytes ≡ Partial }
    ensures short { (bytes : List ℕ) → next_of bytes ≡ Partial → length bytes < MAX_MESSAGE }
{}

/// What is less than a message is shorter than what is awaited, and stays less than a message until
/// as many bytes are there as are awaited.
pub fn fewer_than_awaited()
    ensures more { (bytes : List ℕ) → next_of bytes ≡ Partial → length bytes < awaited bytes }
    ensures partial { (bytes more : List ℕ) → next_of bytes ≡ Partial → length (bytes ++ more) < awaited bytes → next_of (bytes ++ more) ≡ Partial }
{}
