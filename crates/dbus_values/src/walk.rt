// A walk over values, part by part.
ghost use Rattle.std.specs.Prelude.{◌≡◌, ◌<◌, ◌≤◌, ◌+◌, ◌-◌, ◌∷◌, [], Bool, false, Some, Ok, Err, IfSome, MatchResult, length, take, drop, slice_index};
ghost use Rattle.dbus_values.specs.Reading.{Gives};
ghost use Rattle.dbus_values.specs.Parts.{piece};
ghost use Rattle.dbus_values.specs.Parts as part;
ghost use Rattle.dbus_values.specs.Opened as opened_part;
ghost use Rattle.dbus_values.specs.Signatures.{after_item, after_type};
ghost use Rattle.dbus_values.specs.Walk.{state, rest_of, resume, resumed, enter_array, enter_struct, enter_variant, enter_leaf, enter_by, enter_any, enter, enter_entry, enter_item, in_items, in_members, in_key, in_closing, next_in};
ghost use Rattle.dbus_values.specs.Opened.{innermost, outer, is_variant};
ghost use Rattle.dbus_values.specs.Places.{place, Leads};
ghost use Rattle.dbus_values.specs.Runs.{ShortLeads};

use crate::basics::{gap, pad, u32_at};
use crate::class::Class;
use crate::cursor::{Cursor, behind_first};
use crate::fault::{Fault, FaultKind};
use crate::frames::{Array, Frame, Frames};
use crate::part::Part;
use crate::runs::{more_begun, more_ended};
use crate::signature::{after_type, front_of, item_align};
use crate::strings::{leaf_at, signature_at};

/// A walk: the containers that are open, the types that are left of the innermost, and the place.
/// Each step moves it on where it stands, since moving it would cost more than most steps.
#[derive(Drop)]
pub struct Walk<'a> {
    pub frames: Frames<'a>,
    pub types: &'a [u8],
    pub here: Cursor<'a>,
}

impl<'a> Walk<'a> {
    /// The walk over the values of a signature, before its first step.
    #[inline(always)]
    pub fn new(types: &'a [u8], here: Cursor<'a>) -> Walk<'a>
        ensures { place result ≡ state [] types.now here.entry.at here.entry.rest.now }
    {
        Walk {
            frames: Frames::new(),
            types,
            here,
        }
    }
}

/// What follows the complete type at the front of a signature, or a fault.
pub fn rest_of(sig: &[u8], at: usize) -> Result<&[u8], Fault>
    ensures exact { Gives (λ x. x.now) result (rest_of (after_type sig.now) at) }
{
    match after_type(sig) {
        Some(rest) => Ok(rest),
        None => Err(Fault::new(FaultKind::Text, at)),
    }
}

/// What follows the item of an array, or a fault.
fn rest_of_item<'a>(frames: &mut Frames<'a>, sig: &'a [u8], at: usize) -> Result<&'a [u8], Fault>
    ensures exact { Gives (λ x. x.now) result (rest_of (after_item sig.now) at) }
    ensures same { frames.new ≡ frames.old }
{
    match frames.after_item(sig) {
        Some(rest) => Ok(rest),
        None => Err(Fault::new(FaultKind::Text, at)),
    }
}

/// Closes the variants whose value ends here, one after the other.
#[inline(never)]
#[tactic(auto, using(crate::proofs::Steps::resume_rules))]
fn close_variants<'a>(
    frames: &mut Frames<'a>,
    types: &'a [u8],
    at: usize,
) -> Result<&'a [u8], Fault>
    ensures exact { MatchResult result
        (λ x. resume frames.old types.now at ≡ Ok (frames.new, x.now))
        (λ e. resume frames.old types.now at ≡ Err e) }
{
    let mut here = types;
    for _i in 0..frames.len() {
        match frames.top() {
            None => return Ok(here),
            Some(frame) => match frame {
                Frame::Inner { types } => {
                    if !here.is_empty() {
                        return Err(Fault::new(FaultKind::Text, at));
                    }
                    frames.pop();
                    here = types;
                }
                Frame::Items { .. } => return Ok(here),
                Frame::Members => return Ok(here),
                Frame::Key => return Ok(here),
                Frame::Value => return Ok(here),
                Frame::Closing => return Ok(here),
            },
        }
    }
    Ok(here)
}

/// Closes the variants whose value ends here, and gives the types that are left behind them.
#[inline(always)]
#[tactic(auto, using(crate::proofs::Steps::resume_rules))]
fn resume<'a>(frames: &mut Frames<'a>, types: &'a [u8], at: usize) -> Result<&'a [u8], Fault>
    ensures exact { MatchResult result
        (λ x. resume frames.old types.now at ≡ Ok (frames.new, x.now))
        (λ e. resume frames.old types.now at ≡ Err e) }
{
    match frames.top() {
        None => Ok(types),
        Some(frame) => match frame {
            Frame::Inner { .. } => close_variants(frames, types, at),
            Frame::Items { .. } => Ok(types),
            Frame::Members => Ok(types),
            Frame::Key => Ok(types),
            Frame::Value => Ok(types),
            Frame::Closing => Ok(types),
        },
    }
}

/// A part that ends a value, and what the walk goes on with behind it.
#[inline(always)]
#[tactic(auto, unfolding(crate::specs::Walk::resumed))]
fn resumed<'a>(
    walk: &mut Walk<'a>,
    part: Part<'a>,
    types: &'a [u8],
    after: Cursor<'a>,
) -> Result<Part<'a>, Fault>
    ensures exact { Leads result walk.new (resumed (piece part.entry) walk.old.frames types.now after.entry.at after.entry.rest.now) }
{
    walk.types = resume(&mut walk.frames, types, after.at)?;
    walk.here = after;
    Ok(part)
}

/// No type.
fn nothing(sig: &[u8]) -> &[u8]
    ensures empty { result.now ≡ [] }
{
    &sig[..0]
}

/// The beginning of an array.
#[tactic(auto, unfolding(crate::specs::Walk::enter_array))]
fn enter_array<'a>(
    big: bool,
    walk: &mut Walk<'a>,
    sig: &'a [u8],
    from: Cursor<'a>,
) -> Result<Part<'a>, Fault>
    requires { length walk.old.frames < 64 }
    ensures exact { Leads result walk.new (enter_array big walk.old.frames sig.now from.entry.at from.entry.rest.now) }
{
    let end = rest_of_item(&mut walk.frames, sig, from.at)?;
    let (n, rest) = u32_at(big, from)?;
    let n = n as usize;
    let align = item_align(sig);
    if rest.rest.len() < gap(align, rest.at) + n {
        return Err(Fault::new(FaultKind::Length, from.at));
    }
    let start = pad(align, rest)?;
    let (inside, outside) = start.rest.split_at(n);
    walk.frames.push(Frame::Items {
        item: front_of(sig, end),
        types: end,
        behind: start.at + n,
        outside,
    });
    walk.types = nothing(sig);
    walk.here = Cursor {
        at: start.at,
        rest: inside,
    };
    Ok(Part::Enter { kind: b'a' })
}

/// The beginning of a structure, which has at least one member.
#[inline(always)]
#[tactic(auto, using(crate::proofs::Steps::struct_rules))]
fn enter_struct<'a>(walk: &mut Walk<'a>, sig: &'a [u8], from: Cursor<'a>) -> Result<Part<'a>, Fault>
    requires { length walk.old.frames < 64 }
    ensures exact { Leads result walk.new (enter_struct walk.old.frames sig.now from.entry.at from.entry.rest.now) }
{
    if sig.is_empty() {
        return Err(Fault::new(FaultKind::Text, from.at));
    }
    if sig[0] == b')' {
        Err(Fault::new(FaultKind::Text, from.at))
    } else {
        walk.frames.push(Frame::Members);
        walk.types = sig;
        walk.here = from;
        Ok(Part::Enter { kind: b'(' })
    }
}

/// The beginning of a variant: its signature, which is one complete type.
#[tactic(auto, unfolding(crate::specs::Walk::enter_variant))]
fn enter_variant<'a>(
    walk: &mut Walk<'a>,
    sig: &'a [u8],
    from: Cursor<'a>,
) -> Result<Part<'a>, Fault>
    requires { length walk.old.frames < 64 }
    ensures exact { Leads result walk.new (enter_variant walk.old.frames sig.now from.entry.at from.entry.rest.now) }
{
    let (signature, rest) = signature_at(from)?;
    let end = rest_of(signature, from.at)?;
    if end.is_empty() {
        walk.frames.push(Frame::Inner { types: sig });
        walk.types = signature;
        walk.here = rest;
        Ok(Part::Variant { signature })
    } else {
        Err(Fault::new(FaultKind::Text, from.at))
    }
}

/// The value of a basic type, from its first byte.
#[inline(always)]
fn enter_leaf<'a>(
    class: Class,
    big: bool,
    walk: &mut Walk<'a>,
    letter: u8,
    sig: &'a [u8],
    from: Cursor<'a>,
) -> Result<Part<'a>, Fault>
    ensures exact { Leads result walk.new (enter_leaf class big walk.old.frames letter sig.now from.entry.at from.entry.rest.now) }
{
    let (part, after) = leaf_at(class, big, letter, from)?;
    resumed(walk, part, sig, after)
}

/// The first part of a value, from its first byte. At most `limit` containers stand inside each
/// other.
#[inline(always)]
fn enter_by<'a>(
    class: Class,
    limit: usize,
    big: bool,
    walk: &mut Walk<'a>,
    letter: u8,
    sig: &'a [u8],
    from: Cursor<'a>,
) -> Result<Part<'a>, Fault>
    requires { limit ≤ 64 }
    ensures exact { Leads result walk.new (enter_by class limit big walk.old.frames letter sig.now from.entry.at from.entry.rest.now) }
{
    let room = walk.frames.len() < limit;
    match class {
        Class::Array => {
            if room {
                enter_array(big, walk, sig, from)
            } else {
                Err(Fault::new(FaultKind::Depth, from.at))
            }
        }
        Class::Struct => {
            if room {
                enter_struct(walk, sig, from)
            } else {
                Err(Fault::new(FaultKind::Depth, from.at))
            }
        }
        Class::Variant => {
            if room {
                enter_variant(walk, sig, from)
            } else {
                Err(Fault::new(FaultKind::Depth, from.at))
            }
        }
        Class::Entry | Class::Other => Err(Fault::new(FaultKind::Text, from.at)),
        Class::Byte
        | Class::Half
        | Class::Boolean
        | Class::Word
        | Class::Long
        | Class::Text
        | Class::Path
        | Class::Signature => enter_leaf(class, big, walk, letter, sig, from),
    }
}

/// The first part of a value of any class, with the padding before it.
#[inline(always)]
fn enter_any<'a>(
    class: Class,
    limit: usize,
    big: bool,
    walk: &mut Walk<'a>,
    letter: u8,
    sig: &'a [u8],
) -> Result<Part<'a>, Fault>
    requires { limit ≤ 64 }
    ensures exact { Leads result walk.new (enter_any class limit big walk.old.frames letter sig.now walk.old.here.at walk.old.here.rest.now) }
{
    let start = pad(class.align(), walk.here)?;
    enter_by(class, limit, big, walk, letter, sig, start)
}

/// The first part of the value of the first type, with the padding before it.
#[inline(always)]
#[tactic(auto, using(crate::proofs::Steps::enter_rules))]
fn enter<'a>(limit: usize, big: bool, walk: &mut Walk<'a>, sig: &'a [u8]) -> Result<Part<'a>, Fault>
    requires { limit ≤ 64 }
    ensures exact { Leads result walk.new (enter limit big walk.old.frames sig.now walk.old.here.at walk.old.here.rest.now) }
{
    if sig.is_empty() {
        return Err(Fault::new(FaultKind::Text, walk.here.at));
    }
    enter_any(
        Class::of(sig[0]),
        limit,
        big,
        walk,
        sig[0],
        behind_first(sig),
    )
}

/// The beginning of a dict entry, with the padding before it.
#[tactic(auto, unfolding(crate::specs::Walk::enter_entry))]
fn enter_entry<'a>(limit: usize, walk: &mut Walk<'a>, sig: &'a [u8]) -> Result<Part<'a>, Fault>
    requires { limit ≤ 64 }
    ensures exact { Leads result walk.new (enter_entry limit walk.old.frames sig.now walk.old.here.at walk.old.here.rest.now) }
{
    let start = pad(8, walk.here)?;
    if walk.frames.len() < limit {
        walk.frames.push(Frame::Key);
        walk.types = sig;
        walk.here = start;
        Ok(Part::Enter { kind: b'{' })
    } else {
        Err(Fault::new(FaultKind::Depth, start.at))
    }
}

/// The first part of an item of an array.
#[inline(always)]
#[tactic(auto, using(crate::proofs::Steps::item_rules))]
fn enter_item<'a>(
    limit: usize,
    big: bool,
    walk: &mut Walk<'a>,
    sig: &'a [u8],
) -> Result<Part<'a>, Fault>
    requires { limit ≤ 64 }
    ensures exact { Leads result walk.new (enter_item limit big walk.old.frames sig.now walk.old.here.at walk.old.here.rest.now) }
{
    if sig.is_empty() {
        return Err(Fault::new(FaultKind::Text, walk.here.at));
    }
    if sig[0] == b'{' {
        enter_entry(limit, walk, behind_first(sig))
    } else {
        enter(limit, big, walk, sig)
    }
}

/// The next member of a structure, or its end.
#[inline(always)]
#[tactic(auto, using(crate::proofs::Steps::members_rules))]
fn in_members<'a>(limit: usize, big: bool, walk: &mut Walk<'a>) -> Result<Part<'a>, Fault>
    requires limit { limit ≤ 64 }
    requires open { Some opened_part.Members ≡ innermost walk.old.frames }
    ensures exact { Leads result walk.new (in_members limit big (outer walk.old.frames) walk.old.types.now walk.old.here.at walk.old.here.rest.now) }
{
    let sig = walk.types;
    if sig.is_empty() {
        return Err(Fault::new(FaultKind::Text, walk.here.at));
    }
    if sig[0] == b')' {
        walk.frames.pop();
        let here = walk.here;
        resumed(walk, Part::Leave { kind: b'(' }, behind_first(sig), here)
    } else {
        enter(limit, big, walk, sig)
    }
}

/// The key of a dict entry, which has a basic type.
#[tactic(auto, using(crate::proofs::Steps::key_rules))]
fn in_key<'a>(limit: usize, big: bool, walk: &mut Walk<'a>) -> Result<Part<'a>, Fault>
    requires limit { limit ≤ 64 }
    requires open { Some opened_part.Key ≡ innermost walk.old.frames }
    ensures exact { Leads result walk.new (in_key limit big (outer walk.old.frames) walk.old.types.now walk.old.here.at walk.old.here.rest.now) }
{
    let sig = walk.types;
    if sig.is_empty() {
        return Err(Fault::new(FaultKind::Text, walk.here.at));
    }
    if Class::of(sig[0]).is_basic() {
        walk.frames.pop();
        walk.frames.push(Frame::Value);
        enter(limit, big, walk, sig)
    } else {
        Err(Fault::new(FaultKind::Text, walk.here.at))
    }
}

/// The end of a dict entry.
#[tactic(auto, using(crate::proofs::Steps::closing_rules))]
fn in_closing<'a>(walk: &mut Walk<'a>) -> Result<Part<'a>, Fault>
    ensures exact { Leads result walk.new (in_closing (outer walk.old.frames) walk.old.types.now walk.old.here.at walk.old.here.rest.now) }
{
    let sig = walk.types;
    if sig.is_empty() {
        return Err(Fault::new(FaultKind::Text, walk.here.at));
    }
    if sig[0] == b'}' {
        walk.frames.pop();
        let here = walk.here;
        resumed(walk, Part::Leave { kind: b'{' }, behind_first(sig), here)
    } else {
        Err(Fault::new(FaultKind::Text, walk.here.at))
    }
}

/// The next item of an array, or its end.
#[inline(always)]
#[tactic(auto, unfolding(crate::specs::Walk::in_items))]
fn in_items<'a>(
    limit: usize,
    big: bool,
    walk: &mut Walk<'a>,
    array: Array<'a>,
) -> Result<Part<'a>, Fault>
    requires limit { limit ≤ 64 }
    requires open { Some (opened_part.Items array.item.now array.types.now array.behind.at array.behind.rest.now) ≡ innermost walk.old.frames }
    ensures exact { Leads result walk.new (in_items limit big (outer walk.old.frames) array.entry.item.now array.entry.types.now array.entry.behind.at array.entry.behind.rest.now walk.old.types.now walk.old.here.at walk.old.here.rest.now) }
{
    if !walk.types.is_empty() {
        return Err(Fault::new(FaultKind::Text, walk.here.at));
    }
    if walk.here.rest.is_empty() {
        walk.frames.pop();
        resumed(walk, Part::Leave { kind: b'a' }, array.types, array.behind)
    } else {
        enter_item(limit, big, walk, array.item)
    }
}

/// The next part.
#[inline(always)]
#[tactic(auto, using(crate::proofs::Steps::next_rules))]
pub fn next_in<'a>(limit: usize, big: bool, walk: &mut Walk<'a>) -> Result<Part<'a>, Fault>
    requires { limit ≤ 64 }
    ensures exact { Leads result walk.new (next_in limit big walk.old.frames walk.old.types.now walk.old.here.at walk.old.here.rest.now) }
{
    if let Some(array) = walk.frames.array() {
        return in_items(limit, big, walk, array);
    }
    let sig = walk.types;
    match walk.frames.top() {
        None => enter(limit, big, walk, sig),
        Some(frame) => match frame {
            Frame::Members => in_members(limit, big, walk),
            Frame::Key => in_key(limit, big, walk),
            Frame::Value => {
                walk.frames.pop();
                walk.frames.push(Frame::Closing);
                enter(limit, big, walk, sig)
            }
            Frame::Closing => in_closing(walk),
            Frame::Inner { .. } => enter(limit, big, walk, sig),
            Frame::Items { .. } => unreachable!(),
        },
    }
}

/// A byte, behind which these types are left.
#[inline(always)]
fn byte_part<'a>(walk: &mut Walk<'a>, types: &'a [u8]) -> Part<'a>
    requires { 1 ≤ length walk.old.here.rest.now }
    ensures part { piece result ≡ part.Number 121 (slice_index walk.old.here.rest.now 0) }
    ensures left { place walk.new ≡ state walk.old.frames types.now (walk.old.here.at + 1) (drop 1 walk.old.here.rest.now) }
{
    let value = u64::from(walk.here.rest[0]);
    walk.types = types;
    walk.here = walk.here.ahead(1);
    Part::Number { kind: b'y', value }
}

/// The first part of a value of the first type, where it is a byte, or a structure that needs no
/// padding.
#[inline(always)]
#[tactic(auto, using(crate::proofs::Short::enter_rules))]
fn short_enter<'a>(
    limit: usize,
    walk: &mut Walk<'a>,
    sig: &'a [u8],
    most: usize,
) -> Option<(Part<'a>, usize)>
    requires limit { limit ≤ 64 }
    requires typed { 1 ≤ length sig.now }
    requires plain { is_variant (innermost walk.old.frames) ≡ false }
    ensures few { IfSome result (λ (part, more). more ≤ most) }
    ensures exact { (big : Bool) → ShortLeads limit big result walk.new walk.old (enter limit big walk.old.frames sig.now walk.old.here.at walk.old.here.rest.now) }
{
    let types = behind_first(sig);
    if sig[0] == b'y' && !walk.here.rest.is_empty() {
        return Some((byte_part(walk, types), 0));
    }
    if sig[0] == b'('
        && !types.is_empty()
        && types[0] != b')'
        && gap(8, walk.here.at) == 0
        && walk.frames.len() < limit
    {
        walk.frames.push(Frame::Members);
        walk.types = types;
        let more = more_begun(limit, walk, most);
        return Some((Part::Enter { kind: b'(' }, more));
    }
    None
}

/// The next item of an array or its end, in short.
#[inline(always)]
#[tactic(auto, using(crate::proofs::Short::item_rules))]
fn short_item<'a>(
    limit: usize,
    walk: &mut Walk<'a>,
    array: Array<'a>,
    most: usize,
) -> Option<(Part<'a>, usize)>
    requires limit { limit ≤ 64 }
    requires open { Some (opened_part.Items array.item.now array.types.now array.behind.at array.behind.rest.now) ≡ innermost walk.old.frames }
    ensures few { IfSome result (λ (part, more). more ≤ most) }
    ensures exact { (big : Bool) → ShortLeads limit big result walk.new walk.old (next_in limit big walk.old.frames walk.old.types.now walk.old.here.at walk.old.here.rest.now) }
{
    if !walk.types.is_empty() || array.item.is_empty() || array.item[0] == b'{' {
        return None;
    }
    if !walk.here.rest.is_empty() {
        return short_enter(limit, walk, array.item, most);
    }
    if walk.frames.is_in_variant() {
        return None;
    }
    walk.frames.pop();
    walk.types = array.types;
    walk.here = array.behind;
    Some((Part::Leave { kind: b'a' }, 0))
}

/// The next member of a structure or its end, in short.
#[inline(always)]
#[tactic(auto, using(crate::proofs::Short::member_rules))]
fn short_member<'a>(limit: usize, walk: &mut Walk<'a>, most: usize) -> Option<(Part<'a>, usize)>
    requires limit { limit ≤ 64 }
    requires open { Some opened_part.Members ≡ innermost walk.old.frames }
    ensures few { IfSome result (λ (part, more). more ≤ most) }
    ensures exact { (big : Bool) → ShortLeads limit big result walk.new walk.old (next_in limit big walk.old.frames walk.old.types.now walk.old.here.at walk.old.here.rest.now) }
{
    let sig = walk.types;
    if sig.is_empty() {
        return None;
    }
    if sig[0] != b')' {
        return short_enter(limit, walk, sig, most);
    }
    if walk.frames.is_in_variant() {
        return None;
    }
    walk.frames.pop();
    walk.types = behind_first(sig);
    let more = more_ended(walk, most);
    Some((Part::Leave { kind: b'(' }, more))
}

/// The next part, where a look at the types tells it.
#[inline(always)]
pub fn next_short<'a>(limit: usize, walk: &mut Walk<'a>, most: usize) -> Option<(Part<'a>, usize)>
    requires { limit ≤ 64 }
    ensures few { IfSome result (λ (part, more). more ≤ most) }
    ensures exact { (big : Bool) → ShortLeads limit big result walk.new walk.old (next_in limit big walk.old.frames walk.old.types.now walk.old.here.at walk.old.here.rest.now) }
{
    if let Some(array) = walk.frames.array() {
        return short_item(limit, walk, array, most);
    }
    if walk.frames.is_in_structure() {
        return short_member(limit, walk, most);
    }
    None
}
