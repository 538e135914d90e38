// The containers that are open, the innermost first.
ghost use Rattle.std.specs.Prelude.{◌≡◌, ◌<◌, ◌≤◌, ◌+◌, ◌-◌, ◌∷◌, length, drop, [], Some, IfSome, MatchOption, false};
ghost use Rattle.std.specs.Option.{option_map};
ghost use Rattle.dbus_values.specs.Opened.{opened, innermost, outer, is_variant, is_structure, is_array, with_members, seen, IsWithin, AllWithin, AllMembers};
ghost use Rattle.dbus_values.specs.Opened as open_part;
ghost use Rattle.dbus_values.specs.Signatures.{after_item};

use crate::cursor::Cursor;
use crate::known_items::KnownItems;
use crate::stretch::Stretch;
use std::marker::Model;

/// A container that is open, with what comes behind it.
#[derive(Clone, Copy)]
pub enum Frame<'a> {
    /// A structure. It stands first, so that room for containers is made of zeros alone.
    Members,
    /// An array: the signature of its items, the types behind it, the place behind it and the
    /// bytes from there on.
    Items {
        item: &'a [u8],
        types: &'a [u8],
        behind: usize,
        outside: &'a [u8],
    },
    /// A dict entry, of which the key comes next.
    Key,
    /// A dict entry, of which the value comes next.
    Value,
    /// A dict entry, which ends next.
    Closing,
    /// A variant: the types behind it.
    Inner {
        types: &'a [u8],
    },
}

/// An array that is open: the signature of its items, and the types and the bytes behind it.
#[derive(Clone, Copy)]
pub struct Array<'a> {
    pub item: &'a [u8],
    pub types: &'a [u8],
    pub behind: Cursor<'a>,
}

impl<'a> Frame<'a> {
    /// Whether it is a variant.
    #[inline(always)]
    fn is_variant(&self) -> bool
        ensures { result ≡ is_variant (Some (opened self.now)) }
    {
        matches!(self, Frame::Inner { .. })
    }

    /// Whether it is a structure.
    #[inline(always)]
    fn is_structure(&self) -> bool
        ensures { result ≡ is_structure (Some (opened self.now)) }
    {
        matches!(self, Frame::Members)
    }

    /// How many letters of the signatures at hand stand behind this container.
    fn letters(&self) -> usize {
        match self {
            Frame::Items { types, .. } => types.len(),
            Frame::Inner { types } => types.len(),
            Frame::Members | Frame::Key | Frame::Value | Frame::Closing => 0,
        }
    }
}

/// Puts structures into so many places. Most often they are there already, and a look takes less
/// than a write.
#[inline(always)]
fn put_members<'a>(frames: &mut [Frame<'a>], from: usize, n: usize)
    requires room { from + n ≤ length frames.old }
    ensures put { seen (from + n) frames.new ≡ with_members n (seen from frames.old) }
    ensures members { AllMembers from (from + n) frames.new }
    ensures within { AllWithin frames.old → AllWithin frames.new }
{
    for i in 0..n {
        if !frames[from + i].is_structure() {
            frames[from + i] = Frame::Members;
        }
    }
}

/// How many of the innermost containers are structures, up to so many.
#[inline(always)]
fn members_on<'a>(frames: &[Frame<'a>], len: usize, most: usize) -> usize
    requires all { len ≤ length frames.now }
    ensures few { result ≤ most }
    ensures within { result ≤ len }
    ensures exact { seen len frames.now ≡ with_members result (seen (len - result) frames.now) }
{
    for i in 0..most.min(len) {
        if !frames[len - 1 - i].is_structure() {
            return i;
        }
    }
    most.min(len)
}

/// How many of the innermost containers are structures, up to so many, where the places of this
/// stretch are known to hold structures.
#[inline(always)]
fn innermost_members<'a>(
    frames: &[Frame<'a>],
    structures: Stretch,
    len: usize,
    most: usize,
) -> usize
    requires all { len ≤ length frames.now }
    requires structures { AllMembers structures.from structures.to frames.now }
    ensures few { result ≤ most }
    ensures within { result ≤ len }
    ensures exact { seen len frames.now ≡ with_members result (seen (len - result) frames.now) }
{
    let most = most.min(len);
    if structures.holds(len - most, len) {
        return most;
    }
    members_on(frames, len, most)
}

/// At most 64 open containers, seen as a list, the innermost first. It knows a stretch of places
/// that hold structures alone, so that a run of them is opened and closed without a look at each.
#[derive(Drop)]
pub struct Frames<'a> {
    frames: [Frame<'a>; 64],
    structures: Stretch,
    len: usize,
    letters: usize,
    known: KnownItems<'a>,
}

impl<'a> Model for Frames<'a> {
    ghost use Rattle.std.specs.Prelude.{List, map, reverse, take, length, ◌≤◌, ◌≡◌, ◌<◌, ℕ, slice_index_or};
    ghost use Rattle.dbus_values.specs.Opened.{Open, opened, AllWithin, AllMembers};

    ghost Value = { List Open };

    ghost view = { λ s. map opened (reverse (take s.len s.frames)) };

    ghost invariant = { λ s. (s.len ≤ 64) × (length s.frames ≡ 64)
        × AllWithin s.frames
        × AllMembers s.structures.from s.structures.to s.frames };
}

impl<'a> Frames<'a> {
    /// None is open.
    #[inline(always)]
    pub fn new() -> Frames<'a>
        ensures empty { result ≡ [] }
    {
        Frames {
            frames: [Frame::Members; 64],
            structures: Stretch { from: 0, to: 64 },
            len: 0,
            letters: 0,
            known: KnownItems::new(),
        }
    }

    /// Closes all.
    pub fn clear(&mut self)
        ensures empty { self.new ≡ [] }
    {
        self.len = 0;
        self.letters = 0;
    }

    /// What follows the item of an array. The letters behind the open containers tell the place.
    pub fn after_item(&mut self, sig: &'a [u8]) -> Option<&'a [u8]>
        ensures exact { option_map (λ rest. rest.now) result ≡ after_item sig.now }
        ensures same { self.new ≡ self.old }
    {
        let place = self.letters.wrapping_add(sig.len());
        self.known.after_item(place, sig)
    }

    /// How many are open.
    #[inline(always)]
    pub fn len(&self) -> usize
        ensures length { result ≡ length self.now }
    {
        self.len
    }

    /// Opens one more.
    #[inline(always)]
    pub fn push(&mut self, frame: Frame<'a>)
        requires room { length self.old < 64 }
        requires within { IsWithin frame }
        ensures opened { self.new ≡ opened frame.entry ∷ self.old }
    {
        self.letters = self.letters.wrapping_add(frame.letters());
        self.structures = self.structures.put(self.len, frame.is_structure());
        self.frames[self.len] = frame;
        self.len += 1;
    }

    /// The innermost.
    #[inline(always)]
    pub fn top(&self) -> Option<Frame<'a>>
        ensures innermost { option_map opened result ≡ innermost self.now }
        ensures within { IfSome result IsWithin }
    {
        if self.len == 0 {
            None
        } else {
            Some(self.frames[self.len - 1])
        }
    }

    /// The innermost, where it is an array.
    #[inline(always)]
    pub fn array(&self) -> Option<Array<'a>>
        ensures exact { MatchOption result
            (is_array (innermost self.now) ≡ false)
            (λ array. Some (open_part.Items array.item.now array.types.now array.behind.at array.behind.rest.now) ≡ innermost self.now) }
    {
        match self.top() {
            None => None,
            Some(frame) => match frame {
                Frame::Items {
                    item,
                    types,
                    behind,
                    outside,
                } => {
                    let behind = Cursor {
                        at: behind,
                        rest: outside,
                    };
                    Some(Array {
                        item,
                        types,
                        behind,
                    })
                }
                Frame::Members => None,
                Frame::Key => None,
                Frame::Value => None,
                Frame::Closing => None,
                Frame::Inner { .. } => None,
            },
        }
    }

    /// Whether a variant stands around the innermost.
    #[inline(always)]
    pub fn is_in_variant(&self) -> bool
        ensures { result ≡ is_variant (innermost (outer self.now)) }
    {
        if self.len > 1 {
            self.frames[self.len - 2].is_variant()
        } else {
            false
        }
    }

    /// Closes the innermost.
    #[inline(always)]
    pub fn pop(&mut self)
        ensures outer { self.new ≡ outer self.old }
        ensures room { length self.new < 64 }
    {
        if self.len > 0 {
            self.len -= 1;
            self.letters = self.letters.wrapping_sub(self.frames[self.len].letters());
        }
    }

    /// Opens so many structures inside each other.
    #[inline(always)]
    pub fn push_members(&mut self, n: usize)
        requires room { length self.old + n ≤ 64 }
        ensures opened { self.new ≡ with_members n self.old }
    {
        let from = self.len;
        let to = from + n;
        if !self.structures.holds(from, to) {
            put_members(&mut self.frames, from, n);
            self.structures = Stretch { from, to };
        }
        self.len = to;
    }

    /// How many of the innermost are structures, up to so many. Where a variant stands around
    /// them, it is none.
    #[inline(always)]
    fn members(&self, most: usize) -> usize
        ensures few { result ≤ most }
        ensures within { result ≤ length self.now }
        ensures outer { self.now ≡ with_members result (drop result self.now) }
        ensures plain { 1 ≤ result → is_variant (innermost (drop result self.now)) ≡ false }
    {
        let n = innermost_members(&self.frames, self.structures, self.len, most);
        if n == self.len {
            return n;
        }
        if self.frames[self.len - 1 - n].is_variant() {
            return 0;
        }
        n
    }

    /// Closes so many.
    #[inline(always)]
    fn pop_all(&mut self, n: usize)
        requires open { n ≤ length self.old }
        ensures outer { self.new ≡ drop n self.old }
    {
        self.len -= n;
    }

    /// Closes the structures that are innermost, up to so many, and tells how many. Where a variant
    /// stands around them, none is closed.
    #[inline(always)]
    pub fn pop_members(&mut self, most: usize) -> usize
        ensures few { result ≤ most }
        ensures outer { self.old ≡ with_members result self.new }
        ensures plain { 1 ≤ result → is_variant (innermost self.new) ≡ false }
    {
        let n = self.members(most);
        self.pop_all(n);
        n
    }

    /// Whether the innermost is a structure.
    #[inline(always)]
    pub fn is_in_structure(&self) -> bool
        ensures { result ≡ is_structure (innermost self.now) }
    {
        if self.len > 0 {
            self.frames[self.len - 1].is_structure()
        } else {
            false
        }
    }
}
