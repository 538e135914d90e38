// The header of the check that was read last.
ghost use Rattle.std.specs.Prelude.{◌≡◌, ◌<◌, ◌≤◌, ◌∷◌, ◌++◌, ℕ, List, true, false, length, take, IfSome};
ghost use Rattle.std.specs.Int.{w32};
ghost use Rattle.dbus_values.specs.Next.{seen};
ghost use Rattle.dbus_values.specs.Streams.{IsForm};
ghost use Rattle.dbus_values.specs.Trees.{bytes_of};
ghost use Rattle.usual_calls.specs.Headers.{AreOfCheck, BeginsWithFields, SeenAsCheck, call_start};

use crate::fronts::{after, byte_from, gap_to_8, u32_from, zeros_from};
use authority_calls::{AUTHORITY_PATH, Method, method_named};
use dbus_values::{METHOD_CALL, WireMessage};
use std::alloc::Global;
use std::marker::Model;

/// The most bytes that are remembered.
const MOST: usize = 4096;

/// The header fields of the check that was read last, as they stood in its message. There are none
/// before the first.
#[derive(Drop)]
pub struct Usual {
    fields: Vec<u8>,
}

impl Model for Usual {
    ghost use Rattle.std.specs.Prelude.{ℕ, List};
    ghost use Rattle.usual_calls.specs.Headers.{AreRemembered};

    ghost Value = { List ℕ };

    ghost view = { λ u. u.fields.items };

    ghost invariant = { λ u. AreRemembered u.fields.items };
}

/// What the first bytes of a call say whose header fields are those that are remembered.
#[derive(Clone, Copy)]
pub struct Start<'a> {
    pub flags: u8,
    pub serial: u32,
    /// The body.
    pub body: &'a [u8],
    /// What follows the body.
    pub more: &'a [u8],
}

/// Whether a message is a check by its header.
fn is_check(message: &WireMessage) -> bool
    ensures check { result ≡ true → SeenAsCheck (seen message.now) }
{
    let Some(path) = message.path else {
        return false;
    };
    let Some(member) = message.member else {
        return false;
    };
    let method = Method::CheckAuthorization;
    message.kind == METHOD_CALL
        && path == AUTHORITY_PATH.as_bytes()
        && method_named(message.interface, member) == Some(method)
        && message.signature == method.row().takes.as_bytes()
}

/// The header fields of a little-endian message.
#[tactic(auto, using(crate::proofs::Learning::fields_begin))]
fn fields_of(bytes: &[u8]) -> Option<&[u8]>
    ensures fields { IfSome result (λ fields. BeginsWithFields fields.now bytes.now) }
    ensures few { IfSome result (λ fields. length fields.now ≤ 4096) }
{
    let rest = after(bytes, b"l")?;
    if rest.len() < 11 {
        return None;
    }
    let (_, rest) = rest.split_at(11);
    let (n, rest) = u32_from(rest)?;
    let n = n as usize;
    if MOST < n || rest.len() < n {
        return None;
    }
    let (fields, _) = rest.split_at(n);
    Some(fields)
}

/// The header fields of a message that was read from these bytes, where it is a check.
#[tactic(auto, using(crate::proofs::Learning::of_check))]
fn check_fields<'a>(message: &WireMessage, bytes: &'a [u8], used: usize) -> Option<&'a [u8]>
    requires read { IsForm (take used bytes.now) (seen message.now) }
    ensures fields { IfSome result (λ fields. AreOfCheck fields.now) }
    ensures few { IfSome result (λ fields. length fields.now ≤ 4096) }
{
    if is_check(message) {
        fields_of(bytes)
    } else {
        None
    }
}

/// The first four bytes of a little-endian call: its flags, and what follows them.
fn call_from(bytes: &[u8]) -> Option<(u8, &[u8])>
    ensures call { IfSome result (λ (flags, rest). bytes.now ≡ 108 ∷ 1 ∷ flags ∷ 1 ∷ rest.now) }
{
    let rest = after(bytes, &[b'l', METHOD_CALL])?;
    let (flags, rest) = byte_from(rest)?;
    let rest = after(rest, &[1])?;
    Some((flags, rest))
}

impl Usual {
    /// None was read.
    pub fn new(alloc: Global) -> Usual {
        Usual {
            fields: Vec::new(alloc),
        }
    }

    /// Remembers the header fields of a message that was read from these bytes, where it is a check.
    #[tactic(auto, using(crate::proofs::Learning::remembered_none, crate::proofs::Learning::remembered_some))]
    pub fn learn(&mut self, message: &WireMessage, bytes: &[u8], used: usize)
        requires read { IsForm (take used bytes.now) (seen message.now) }
    {
        if let Some(fields) = check_fields(message, bytes, used) {
            self.fields.clear();
            let _kept = self.fields.extend_from_slice(fields);
        }
    }

    /// What the first bytes of the message at the front say, where its header fields are those that
    /// are remembered and its body is there.
    pub fn start_in<'a>(&self, bytes: &'a [u8]) -> Option<Start<'a>>
        ensures start { IfSome result (λ s. bytes.now ≡ call_start self.now s.flags s.serial (length s.body.now) (s.body.now ++ s.more.now)) }
        ensures some { IfSome result (λ s. 0 < s.serial) }
        ensures short { IfSome result (λ s. length s.body.now ≤ 1000000) }
        ensures check { IfSome result (λ _. AreOfCheck self.now) }
        ensures few { IfSome result (λ _. length self.now ≤ 4096) }
    {
        let (flags, rest) = call_from(bytes)?;
        let (size, rest) = u32_from(rest)?;
        let (serial, rest) = u32_from(rest)?;
        let (n, rest) = u32_from(rest)?;
        let n = n as usize;
        if n == 0 || serial == 0 || n != self.fields.len() {
            return None;
        }
        let rest = after(rest, &self.fields)?;
        let rest = zeros_from(rest, gap_to_8(n))?;
        let size = size as usize;
        if 1_000_000 < size || rest.len() < size {
            return None;
        }
        let (body, more) = rest.split_at(size);
        Some(Start {
            flags,
            serial,
            body,
            more,
        })
    }
}
