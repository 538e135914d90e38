// What stands at the front of bytes, and what follows it.
ghost use Rattle.std.specs.Prelude.{◌≡◌, ◌+◌, ◌<◌, ◌≤◌, ◌++◌, ◌∷◌, ◌^◌, false, length, IfSome};
ghost use Rattle.std.specs.Int.{w32, w64};
ghost use Rattle.dbus_values.specs.Basics.{gap};
ghost use Rattle.dbus_values.specs.Trees.{bytes_of, marshalled, padding};
ghost use Rattle.authority_messages.specs.Values.{string};

/// What follows these bytes, where they stand at the front.
#[tactic(auto, using(crate::proofs::Standing::first_is))]
pub fn after<'a>(bytes: &'a [u8], front: &[u8]) -> Option<&'a [u8]>
    ensures front { IfSome result (λ rest. bytes.now ≡ front.now ++ rest.now) }
{
    if bytes.len() < front.len() {
        return None;
    }
    let (first, rest) = bytes.split_at(front.len());
    if first == front { Some(rest) } else { None }
}

/// A byte, and what follows it.
#[tactic(auto, using(crate::proofs::Standing::one_is))]
pub fn byte_from(bytes: &[u8]) -> Option<(u8, &[u8])>
    ensures byte { IfSome result (λ (b, rest). bytes.now ≡ b ∷ rest.now) }
{
    if bytes.is_empty() {
        return None;
    }
    let (first, rest) = bytes.split_at(1);
    Some((first[0], rest))
}

/// A number of four bytes, and what follows it.
#[tactic(auto, using(crate::proofs::Standing::u32_front))]
pub fn u32_from(bytes: &[u8]) -> Option<(u32, &[u8])>
    ensures number { IfSome result (λ (n, rest). bytes.now ≡ bytes_of false w32 n ++ rest.now) }
    ensures small { IfSome result (λ (n, _). n < 2 ^ 32) }
{
    if bytes.len() < 4 {
        return None;
    }
    let (four, rest) = bytes.split_at(4);
    let n = u32::from_le_bytes([four[0], four[1], four[2], four[3]]);
    Some((n, rest))
}

/// A number of eight bytes, and what follows it.
#[tactic(auto, using(crate::proofs::Standing::u64_front))]
pub fn u64_from(bytes: &[u8]) -> Option<(u64, &[u8])>
    ensures number { IfSome result (λ (n, rest). bytes.now ≡ bytes_of false w64 n ++ rest.now) }
    ensures small { IfSome result (λ (n, _). n < 2 ^ 64) }
{
    if bytes.len() < 8 {
        return None;
    }
    let (it, rest) = bytes.split_at(8);
    let n = u64::from_le_bytes([it[0], it[1], it[2], it[3], it[4], it[5], it[6], it[7]]);
    Some((n, rest))
}

/// How far it is to the next multiple of 4.
pub fn gap_to_4(at: usize) -> usize
    ensures exact { result ≡ gap 4 at }
    ensures few { result < 4 }
{
    (4 - at % 4) % 4
}

/// How far it is to the next multiple of 8.
pub fn gap_to_8(at: usize) -> usize
    ensures exact { result ≡ gap 8 at }
    ensures few { result < 8 }
{
    (8 - at % 8) % 8
}

/// What follows so many bytes 0.
#[tactic(auto, using(crate::proofs::Standing::zeros_front))]
pub fn zeros_from(bytes: &[u8], n: usize) -> Option<&[u8]>
    requires few { n < 8 }
    ensures zeros { IfSome result (λ rest. bytes.now ≡ padding n ++ rest.now) }
{
    let zeros: [u8; 7] = [0, 0, 0, 0, 0, 0, 0];
    after(bytes, &zeros[..n])
}

/// A text at this place, with the padding before it, and what follows it.
#[tactic(auto, using(crate::proofs::Standing::text_front, crate::proofs::Standing::taken_front))]
pub fn text_from(bytes: &[u8], at: usize) -> Option<(&[u8], &[u8])>
    ensures text { IfSome result (λ (text, rest). bytes.now ≡ marshalled false at (string text.now) ++ rest.now) }
{
    let bytes = zeros_from(bytes, gap_to_4(at))?;
    let (n, bytes) = u32_from(bytes)?;
    let n = n as usize;
    if bytes.len() < n {
        return None;
    }
    let (text, bytes) = bytes.split_at(n);
    let rest = after(bytes, &[0])?;
    Some((text, rest))
}
