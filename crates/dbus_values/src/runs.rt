// Runs of structures that begin, or end, right behind each other.
ghost use Rattle.std.specs.Prelude.{◌≡◌, ◌+◌, ◌<◌, ◌≤◌, ℕ, Bool, true, Some, IfOk, length, slice_index};
ghost use Rattle.dbus_values.specs.Reading.{Gives};
ghost use Rattle.dbus_values.specs.Parts.{spot};
ghost use Rattle.dbus_values.specs.Parts as part;
ghost use Rattle.dbus_values.specs.Opened as opened_part;
ghost use Rattle.dbus_values.specs.Opened.{innermost};
ghost use Rattle.dbus_values.specs.Places.{place};
ghost use Rattle.dbus_values.specs.Walk.{walked, values_at};
ghost use Rattle.dbus_values.specs.Runs.{Repeats, RunLeads};

use crate::basics::gap;
use crate::cursor::{Cursor, bytes_behind};
use crate::fault::{Fault, FaultKind};
use crate::part::Part;
use crate::walk::{Walk, next_in, next_short};

/// Whether eight letters of a signature are this one. They are looked at together.
#[inline(always)]
fn are_eight(letter: u8, sig: &[u8], at: usize) -> bool
    requires within { at + 8 ≤ length sig.now }
    ensures same { result ≡ true → (k : ℕ) → k < 8 → slice_index sig.now (at + k) ≡ letter }
{
    (sig[at] == letter)
        & (sig[at + 1] == letter)
        & (sig[at + 2] == letter)
        & (sig[at + 3] == letter)
        & (sig[at + 4] == letter)
        & (sig[at + 5] == letter)
        & (sig[at + 6] == letter)
        & (sig[at + 7] == letter)
}

/// How often a letter stands at the front of a signature, up to so many, counted in eights.
#[inline(always)]
fn eights(letter: u8, sig: &[u8], most: usize) -> usize
    requires within { most ≤ length sig.now }
    ensures few { result ≤ most }
    ensures same { (k : ℕ) → k < result → slice_index sig.now k ≡ letter }
{
    let mut n = 0;
    while most - n >= 8 && are_eight(letter, sig, n) {
        n += 8;
    }
    n
}

/// How often a letter stands at the front of a signature, up to so many.
#[inline(always)]
fn times(letter: u8, sig: &[u8], most: usize) -> usize
    ensures few { result ≤ most }
    ensures within { result ≤ length sig.now }
    ensures same { (k : ℕ) → k < result → slice_index sig.now k ≡ letter }
{
    let most = most.min(sig.len());
    for i in eights(letter, sig, most)..most {
        if sig[i] != letter {
            return i;
        }
    }
    most
}

/// Opens the structures that begin here inside the innermost one, up to so many, and tells how
/// many.
#[inline(never)]
fn open_run<'a>(limit: usize, walk: &mut Walk<'a>, most: usize) -> usize
    requires limit { limit ≤ 64 }
    requires open { Some opened_part.Members ≡ innermost walk.old.frames }
    ensures few { result ≤ most }
    ensures run { (big : Bool) → Repeats result (part.Enter 40) limit big (place walk.old) (place walk.new) }
{
    if gap(8, walk.here.at) != 0 {
        return 0;
    }
    let len = walk.frames.len();
    if limit <= len {
        return 0;
    }
    let n = times(b'(', walk.types, most.min(limit - len));
    let types = bytes_behind(n, walk.types);
    if types.is_empty() {
        return 0;
    }
    if types[0] == b')' {
        return 0;
    }
    walk.frames.push_members(n);
    walk.types = types;
    n
}

/// Ends the structures that end here, up to so many, and tells how many.
#[inline(never)]
fn close_run<'a>(walk: &mut Walk<'a>, most: usize) -> usize
    ensures few { result ≤ most }
    ensures run { (limit : ℕ) (big : Bool) → Repeats result (part.Leave 40) limit big (place walk.old) (place walk.new) }
{
    let ends = times(b')', walk.types, most);
    let n = walk.frames.pop_members(ends);
    walk.types = bytes_behind(n, walk.types);
    n
}

/// Opens more structures where one has just begun, up to so many, and tells how many.
#[inline(always)]
pub fn more_begun<'a>(limit: usize, walk: &mut Walk<'a>, most: usize) -> usize
    requires { limit ≤ 64 }
    ensures few { result ≤ most }
    ensures run { (big : Bool) → Repeats result (part.Enter 40) limit big (place walk.old) (place walk.new) }
{
    if walk.types.is_empty() {
        return 0;
    }
    if walk.types[0] != b'(' {
        return 0;
    }
    if !walk.frames.is_in_structure() {
        return 0;
    }
    open_run(limit, walk, most)
}

/// Ends more structures where one has just ended, up to so many, and tells how many.
#[inline(always)]
pub fn more_ended<'a>(walk: &mut Walk<'a>, most: usize) -> usize
    ensures few { result ≤ most }
    ensures run { (limit : ℕ) (big : Bool) → Repeats result (part.Leave 40) limit big (place walk.old) (place walk.new) }
{
    if walk.types.is_empty() {
        return 0;
    }
    if walk.types[0] != b')' {
        return 0;
    }
    close_run(walk, most)
}

/// The next part, and how many of those behind it are the same and were gone over too, up to so
/// many.
#[inline(always)]
pub fn next_run<'a>(
    limit: usize,
    big: bool,
    walk: &mut Walk<'a>,
    most: usize,
) -> Result<(Part<'a>, usize), Fault>
    requires { limit ≤ 64 }
    ensures exact { RunLeads limit big result walk.new walk.old }
    ensures few { IfOk result (λ (part, more). more ≤ most) }
{
    match next_short(limit, walk, most) {
        Some((part, more)) => Ok((part, more)),
        None => match next_in(limit, big, walk) {
            Ok(part) => Ok((part, 0)),
            Err(fault) => Err(fault),
        },
    }
}

/// More parts than any message has.
pub const MOST_PARTS: usize = 4_294_967_296;

/// How many parts the values of a signature have, inside which at most `limit` containers stand,
/// and what follows them. Nothing of the walk before counts.
#[tactic(auto, using(crate::proofs::Repeated::walk_rules))]
pub fn values_at<'a>(
    limit: usize,
    big: bool,
    walk: &mut Walk<'a>,
    signature: &'a [u8],
    from: Cursor<'a>,
) -> Result<(usize, Cursor<'a>), Fault>
    requires { limit ≤ 64 }
    ensures exact { Gives (λ (parts, behind). walked parts (spot behind)) result (values_at limit big signature.now from.entry.at from.entry.rest.now) }
{
    walk.frames.clear();
    walk.types = signature;
    walk.here = from;
    let mut left = MOST_PARTS;
    while left > 0 {
        if walk.frames.len() == 0 && walk.types.is_empty() {
            return Ok((MOST_PARTS - left, walk.here));
        }
        let (_part, more) = next_run(limit, big, walk, left - 1)?;
        left -= more + 1;
    }
    Err(Fault::new(FaultKind::Length, walk.here.at))
}
