// Numbers in decimal digits.
ghost use Rattle.std.specs.Prelude.{◌≡◌, ◌≤◌, ◌&&◌, nat_le, IfSome, option_and_then};
ghost use Rattle.pk_types.specs.Decimals.{at_most, decimal_up_to, digits_after, number_of};

/// The greatest number of a user, a group, a process or a connection, and of a serial: that of 32 bits.
pub const MAX_NUMBER: u32 = 4_294_967_295;

fn is_digit(b: u8) -> bool
    ensures class { result ≡ (nat_le 48 b && nat_le b 57) }
{
    b.is_ascii_digit()
}

fn digits(word: &[u8], greatest: u64) -> Option<u64>
    ensures value { result ≡ option_and_then (at_most greatest) (digits_after 0 word.now) }
    ensures bound { IfSome result (λ n. n ≤ greatest) }
{
    let mut value = 0u64;
    let mut rest = word;
    while let [digit, after @ ..] = rest {
        if !is_digit(*digit) {
            return None;
        }
        let next = u128::from(value) * 10 + u128::from(*digit - b'0');
        if next > u128::from(greatest) {
            return None;
        }
        value = next as u64;
        rest = after;
    }
    Some(value)
}

/// The number that a word of decimal digits names, where it is at most the greatest.
///
/// The word has no sign, and no zero in front of other digits. It takes no memory.
pub fn number_up_to(word: &[u8], greatest: u64) -> Option<u64>
    ensures value { result ≡ decimal_up_to greatest word.now }
    ensures bound { IfSome result (λ n. n ≤ greatest) }
{
    match word {
        [] => None,
        [b'0', _, ..] => None,
        _ => digits(word, greatest),
    }
}

/// The number of 32 bits that a word of decimal digits names, as that of a user or a connection.
///
/// The word has no sign, and no zero in front of other digits. It takes no memory.
pub fn number(word: &[u8]) -> Option<u32>
    ensures number { result ≡ number_of word.now }
{
    match number_up_to(word, u64::from(MAX_NUMBER)) {
        Some(number) => Some(number as u32),
        None => None,
    }
}
