// What stands behind the doors.
ghost use Rattle.std.specs.Prelude.{◌≡◌, ◌≤◌, Some, None, IfNone, IfSome};
ghost use Rattle.serve_words.specs.Plans.{IsInRange, amounts_in, amounts_of, audit_in, behind_live, behind_slots, ending_in, entries_in, manner_in, positive_up_to, stopping, value_of};

use authority_model::MAX_ENTRIES;
use pk_types::{Text, number_up_to};

/// The greatest number of slots over all doors.
pub const MAX_SLOTS: u64 = 64;

/// The greatest number of connections that a slot may be told to serve.
pub const MAX_CONNECTIONS: u64 = 1_000_000;

/// How much a service does: so many slots a door, so many connections a slot, if it is to end at all,
/// and so many entries in its journal; whether it looks at live processes, and whether it writes the
/// audit text of the journal.
#[derive(Clone, Copy)]
pub struct Amounts {
    pub slots: u64,
    pub stop_after: Option<u64>,
    pub entries: u64,
    pub live: bool,
    pub audit: bool,
}

/// Whether a service looks at live processes, and whether it writes the audit text.
#[derive(Clone, Copy)]
struct Manner {
    live: bool,
    audit: bool,
}

/// How the words of a service end: with a limit of entries, whether it looks at live processes, and
/// whether the audit text is written.
#[derive(Clone, Copy)]
struct Ending {
    entries: u64,
    live: bool,
    audit: bool,
}

/// A number from 1 to the greatest one, in decimal digits without a sign and without a zero in front
/// of other digits.
pub fn positive(word: &[u8], greatest: u64) -> Option<u64>
    ensures number { result ≡ positive_up_to greatest word.now }
    ensures range { IfSome result (λ n. (1 ≤ n) × (n ≤ greatest)) }
{
    let number = number_up_to(word, greatest)?;
    if number < 1 {
        return None;
    }
    Some(number)
}

/// The limit of entries that the last words of a command say, `--entries K`, or the greatest one where
/// there are none.
pub fn entries_in(words: &[Text]) -> Option<u64>
    ensures entries { result ≡ entries_in words.now }
    ensures range { IfSome result (λ n. (1 ≤ n) × (n ≤ MAX_ENTRIES)) }
{
    match words {
        [] => Some(MAX_ENTRIES),
        [option, number] if option.bytes() == b"--entries".as_slice() => {
            positive(number.bytes(), MAX_ENTRIES)
        }
        _ => None,
    }
}

/// Whether the last words of a command ask for the audit text: `--audit`, or no word.
fn audit_in(words: &[Text]) -> Option<bool>
    ensures audit { result ≡ audit_in words.now }
{
    match words {
        [] => Some(false),
        [option] if option.bytes() == b"--audit".as_slice() => Some(true),
        _ => None,
    }
}

/// The words after `--live`, where the words begin with it.
fn behind_live(words: &[Text]) -> Option<&[Text]>
    ensures found { IfSome result (λ rest. behind_live words.now ≡ Some rest.now) }
    ensures none { IfNone result (behind_live words.now ≡ None) }
{
    match words {
        [option, rest @ ..] if option.bytes() == b"--live".as_slice() => Some(rest),
        _ => None,
    }
}

/// Whether a service looks at live processes, and whether it writes the audit text, as the last words
/// say: `[--live] [--audit]`.
fn manner_in(words: &[Text]) -> Option<Manner>
    ensures manner { result ≡ manner_in words.now }
{
    match behind_live(words) {
        Some(rest) => {
            let audit = audit_in(rest)?;
            Some(Manner { live: true, audit })
        }
        None => {
            let audit = audit_in(words)?;
            Some(Manner { live: false, audit })
        }
    }
}

/// The ending that the last words of a service say: `[--entries K] [--live] [--audit]`.
fn ending_in(words: &[Text]) -> Option<Ending>
    ensures ending { result ≡ ending_in words.now }
    ensures range { IfSome result (λ e. (1 ≤ e.entries) × (e.entries ≤ MAX_ENTRIES)) }
{
    match value_of(words, b"--entries") {
        Some((number, rest)) => {
            let entries = positive(number.bytes(), MAX_ENTRIES)?;
            let Manner { live, audit } = manner_in(rest)?;
            Some(Ending {
                entries,
                live,
                audit,
            })
        }
        None => {
            let Manner { live, audit } = manner_in(words)?;
            Some(Ending {
                entries: MAX_ENTRIES,
                live,
                audit,
            })
        }
    }
}

/// So many slots and connections, and this ending, if it was told rightly.
fn with_ending(slots: u64, stop_after: Option<u64>, ending: Option<Ending>) -> Option<Amounts>
    requires slots { (1 ≤ slots) × (slots ≤ MAX_SLOTS) }
    requires stop { IfSome stop_after (λ k. (1 ≤ k) × (k ≤ MAX_CONNECTIONS)) }
    requires ending { IfSome ending (λ e. (1 ≤ e.entries) × (e.entries ≤ MAX_ENTRIES)) }
    ensures amounts { result ≡ amounts_of slots stop_after ending }
    ensures range { IfSome result IsInRange }
{
    let Some(
        Ending {
            entries,
            live,
            audit,
        },
    ) = ending
    else {
        return None;
    };
    Some(Amounts {
        slots,
        stop_after,
        entries,
        live,
        audit,
    })
}

/// The amounts with so many slots and the number of connections that a word says.
fn stopping(slots: u64, number: &Text, rest: &[Text]) -> Option<Amounts>
    requires slots { (1 ≤ slots) × (slots ≤ MAX_SLOTS) }
    ensures amounts { result ≡ stopping slots number.now rest.now }
    ensures range { IfSome result IsInRange }
{
    let stop = positive(number.bytes(), MAX_CONNECTIONS)?;
    with_ending(slots, Some(stop), ending_in(rest))
}

/// The value of the option of this name, and the words behind it, where the words begin with that
/// option.
pub fn value_of<'a>(words: &'a [Text], name: &[u8]) -> Option<(&'a Text, &'a [Text])>
    ensures found { IfSome result (λ (value, rest). value_of name.now words.now ≡ Some (value.now, rest.now)) }
    ensures none { IfNone result (value_of name.now words.now ≡ None) }
{
    match words {
        [option, value, rest @ ..] if option.bytes() == name => Some((value, rest)),
        _ => None,
    }
}

/// The amounts with so many slots that the words behind them say.
fn behind_slots(slots: u64, words: &[Text]) -> Option<Amounts>
    requires slots { (1 ≤ slots) × (slots ≤ MAX_SLOTS) }
    ensures amounts { result ≡ behind_slots slots words.now }
    ensures range { IfSome result IsInRange }
{
    match value_of(words, b"--stop-after") {
        Some((number, rest)) => stopping(slots, number, rest),
        None => with_ending(slots, None, ending_in(words)),
    }
}

/// The amounts that the words behind the doors say.
pub fn amounts_in(words: &[Text]) -> Option<Amounts>
    ensures amounts { result ≡ amounts_in words.now }
    ensures range { IfSome result IsInRange }
{
    let (number, rest) = value_of(words, b"--slots")?;
    let slots = positive(number.bytes(), MAX_SLOTS)?;
    behind_slots(slots, rest)
}
