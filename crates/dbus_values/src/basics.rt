// Padding and numbers.
ghost use Rattle.std.specs.Prelude.{◌≡◌, ◌+◌, ◌-◌, ◌<◌, ◌≤◌, length, drop};
ghost use Rattle.std.specs.Int.{w16, w32, w64};
ghost use Rattle.dbus_values.specs.Reading.{Gives};
ghost use Rattle.dbus_values.specs.Parts.{spot};
ghost use Rattle.dbus_values.specs.Basics.{gap, zeros, pad, number_at, byte_at};

use crate::cursor::Cursor;
use crate::fault::{Fault, FaultKind};

/// What follows so many bytes 0.
#[inline(never)]
#[tactic(auto, using(crate::proofs::Loops::zeros_step), unfolding(crate::specs::Basics::zeros))]
fn zeros(n: usize, from: Cursor) -> Result<Cursor, Fault>
    requires { n < 8 }
    ensures exact { Gives spot result (zeros n from.entry.at from.entry.rest.now) }
{
    let mut here = from;
    for i in 0..n {
        if here.rest.is_empty() {
            return Err(Fault::new(FaultKind::Length, here.at + (n - i)));
        }
        if here.rest[0] != 0 {
            return Err(Fault::new(FaultKind::Padding, here.at));
        }
        here = here.ahead(1);
    }
    Ok(here)
}

/// How far it is from a place to the next multiple of n.
#[inline(always)]
pub fn gap(n: usize, at: usize) -> usize
    requires low { 0 < n }
    requires high { n ≤ 8 }
    ensures exact { result ≡ gap n at }
    ensures small { result < 8 }
{
    // a divisor that is known spares a division
    match n {
        1 => (1 - at % 1) % 1,
        2 => (2 - at % 2) % 2,
        4 => (4 - at % 4) % 4,
        8 => (8 - at % 8) % 8,
        _ => (n - at % n) % n,
    }
}

/// What follows the padding up to the next multiple of n.
#[inline(always)]
#[tactic(auto, using(crate::proofs::Loops::zeros_none))]
pub fn pad(n: usize, from: Cursor) -> Result<Cursor, Fault>
    requires low { 0 < n }
    requires high { n ≤ 8 }
    ensures exact { Gives spot result (pad n from.entry.at from.entry.rest.now) }
{
    let padding = gap(n, from.at);
    if padding == 0 {
        Ok(from)
    } else {
        zeros(padding, from)
    }
}

/// A byte.
#[tactic(auto, unfolding(crate::specs::Basics::byte_at))]
pub fn byte_at(from: Cursor) -> Result<(u8, Cursor), Fault>
    ensures exact { Gives (λ (n, behind). (n, spot behind)) result (byte_at from.entry.at from.entry.rest.now) }
{
    match from.rest {
        [] => Err(Fault::new(FaultKind::Length, from.at)),
        [b, rest @ ..] => Ok((
            *b,
            Cursor {
                at: from.at + 1,
                rest,
            },
        )),
    }
}

/// A number of two bytes, unsigned, in the byte order of the message.
#[tactic(auto, unfolding(crate::specs::Basics::number_at))]
pub fn u16_at(big: bool, from: Cursor) -> Result<(u16, Cursor), Fault>
    ensures exact { Gives (λ (n, behind). (n, spot behind)) result (number_at big w16 from.entry.at from.entry.rest.now) }
{
    if from.rest.len() < 2 {
        return Err(Fault::new(FaultKind::Length, from.at));
    }
    let (front, rest) = from.rest.split_at(2);
    let bytes = [front[0], front[1]];
    let number = if big {
        u16::from_be_bytes(bytes)
    } else {
        u16::from_le_bytes(bytes)
    };
    Ok((
        number,
        Cursor {
            at: from.at + 2,
            rest,
        },
    ))
}

/// A number of four bytes, unsigned, in the byte order of the message.
#[tactic(auto, unfolding(crate::specs::Basics::number_at))]
pub fn u32_at(big: bool, from: Cursor) -> Result<(u32, Cursor), Fault>
    ensures exact { Gives (λ (n, behind). (n, spot behind)) result (number_at big w32 from.entry.at from.entry.rest.now) }
{
    if from.rest.len() < 4 {
        return Err(Fault::new(FaultKind::Length, from.at));
    }
    let (front, rest) = from.rest.split_at(4);
    let bytes = [front[0], front[1], front[2], front[3]];
    let number = if big {
        u32::from_be_bytes(bytes)
    } else {
        u32::from_le_bytes(bytes)
    };
    Ok((
        number,
        Cursor {
            at: from.at + 4,
            rest,
        },
    ))
}

/// A number of eight bytes, unsigned, in the byte order of the message.
#[tactic(auto, unfolding(crate::specs::Basics::number_at))]
pub fn u64_at(big: bool, from: Cursor) -> Result<(u64, Cursor), Fault>
    ensures exact { Gives (λ (n, behind). (n, spot behind)) result (number_at big w64 from.entry.at from.entry.rest.now) }
{
    if from.rest.len() < 8 {
        return Err(Fault::new(FaultKind::Length, from.at));
    }
    let (front, rest) = from.rest.split_at(8);
    let bytes = [
        front[0], front[1], front[2], front[3], front[4], front[5], front[6], front[7],
    ];
    let number = if big {
        u64::from_be_bytes(bytes)
    } else {
        u64::from_le_bytes(bytes)
    };
    Ok((
        number,
        Cursor {
            at: from.at + 8,
            rest,
        },
    ))
}
