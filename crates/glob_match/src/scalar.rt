// The Unicode scalars of a text, one after another.
ghost use Rattle.std.specs.Prelude.{◌≡◌, ℕ, suc, ◌+◌, ◌*◌, ◌<◌, ◌^◌, ◌∷◌, [], length, IfNone, IfSome};
ghost use Rattle.std.specs.Str.{chars, chars_after, continuation_len, lead_bits};

/// How many bytes follow the first byte of a scalar, and the bits of the scalar in that byte.
fn lead(b: u8) -> (u8, u32)
    ensures following { let (following, bits) = result in following ≡ continuation_len b }
    ensures bits { let (following, bits) = result in bits ≡ lead_bits b }
{
    match b {
        0..128 => (0, u32::from(b)),
        128..192 => (1, 0),
        192..224 => (1, u32::from(b - 192)),
        224..240 => (2, u32::from(b - 224)),
        240.. => (3, u32::from(b - 240)),
    }
}

/// A scalar's bits with those of its next byte, and the bytes behind it.
fn with_next(bits: u32, bytes: &[u8]) -> Option<(u32, &[u8])>
    requires { bits < 2 ^ 20 }
    ensures end { IfNone result (bytes.now ≡ []) }
    ensures bits { IfSome result
        (λ (longer, rest). (n : ℕ) → chars_after (suc n) bits bytes.now ≡ chars_after n longer rest.now) }
    ensures bound { IfSome result (λ (longer, rest). longer < bits * 64 + 128) }
    ensures fewer { IfSome result (λ (longer, rest). length rest.now < length bytes.now) }
{
    let (byte, rest) = bytes.split_first()?;
    Some((bits * 64 + u32::from(byte.saturating_sub(128)), rest))
}

/// The first scalar of a text, and the bytes behind it.
pub fn next_scalar(bytes: &[u8]) -> Option<(u32, &[u8])>
    ensures end { IfNone result (chars bytes.now ≡ []) }
    ensures scalar { IfSome result (λ (scalar, rest). chars bytes.now ≡ scalar ∷ chars rest.now) }
    ensures fewer { IfSome result (λ (scalar, rest). length rest.now < length bytes.now) }
{
    let (first, rest) = bytes.split_first()?;
    let (following, bits) = lead(*first);
    if following == 0 {
        return Some((bits, rest));
    }
    let (bits, rest) = with_next(bits, rest)?;
    if following == 1 {
        return Some((bits, rest));
    }
    let (bits, rest) = with_next(bits, rest)?;
    if following == 2 {
        return Some((bits, rest));
    }
    with_next(bits, rest)
}
