// A uid as its mechanism EXTERNAL spells it: its decimal digits, each as two hexadecimal digits.
ghost use Rattle.std.specs.Prelude.{◌≡◌, ◌++◌, ◌≤◌, length, take, IfOk, bytes_eq};
ghost use Rattle.link_handshake.specs.Digits.{uid_digits};

use itoa::Buffer;

/// Writes the digits of a uid at the front, and answers how many there are.
pub fn write_uid(uid: u32, digits: &mut [u8; 20]) -> usize
    ensures fits { result ≤ 20 }
    ensures digits { take result digits.new ≡ uid_digits uid }
{
    let mut buffer = Buffer::new();
    let decimal = buffer.format(uid).as_bytes();
    let len = 2 * decimal.len();
    let _ = hex::encode_to_slice(decimal, &mut digits[..len]);
    len
}

/// Whether these are the digits of that uid.
pub fn is_uid(uid: u32, word: &[u8]) -> bool
    ensures same { result ≡ bytes_eq word.now (uid_digits uid) }
{
    let mut digits = [0; 20];
    let len = write_uid(uid, &mut digits);
    word == &digits[..len]
}
