// Random words and cookies.
ghost use Rattle.std.specs.Prelude.{◌≡◌, ◌<◌, ◌∷◌, [], length, IfSome};
ghost use Rattle.authority_model.specs.Cookies.{hex, cookie_text};
ghost use Rattle.audit_words.specs.Buffers.{put};
ghost use Rattle.audit_words.specs.Codecs.{Plain};
ghost use Rattle.audit_words.specs.Lines.{written};
ghost use Rattle.audit_words.specs.Reads.{WordGives};
ghost use Rattle.audit_words.specs.Salts.{hex_after, salt_value, cookie_of_parts, cookie_value};
ghost use Rattle.audit_words.specs.declared.fault.Kind.TheVariants.{Value};

use crate::buffer::LineBuffer;
use crate::digits::Letters;
use crate::fault::{Kind, Stop};
use authority_model::Cookie;
use itoa::Buffer;
use pk_types::{cut, number_up_to};

/// How many hexadecimal digits a random word has.
const SALT_DIGITS: u8 = 32;

/// Puts the last hexadecimal digits of a number, as many as are asked for.
fn put_hex(line: &mut LineBuffer, digits: u8, n: u128)
    requires some { 0 < digits }
    ensures digits { line.new ≡ put line.old (hex digits n) }
{
    let last = Letters::Lower.digit((n % 16) as u8);
    if digits == 1 {
        line.put(&[last]);
        return;
    }
    put_hex(line, digits - 1, n / 16);
    line.put(&[last]);
}

/// Puts a random word behind a space.
#[tactic(auto, using(crate::proofs::Putting::put_rules))]
pub fn put_salt(line: &mut LineBuffer, salt: u128)
    ensures word { line.new ≡ put line.old (written (Plain (hex 32 salt) ∷ [])) }
{
    line.put(b" ");
    put_hex(line, SALT_DIGITS, salt);
}

/// Puts the text of a cookie behind a space.
#[tactic(auto, using(crate::proofs::Putting::put_rules))]
pub fn put_cookie(line: &mut LineBuffer, cookie: Cookie)
    ensures word { line.new ≡ put line.old (written (Plain (cookie_text cookie) ∷ [])) }
{
    let mut buffer = Buffer::new();
    line.put(b" ");
    line.put(buffer.format(cookie.serial).as_bytes());
    line.put(b"-");
    put_hex(line, SALT_DIGITS, cookie.salt);
}

/// The number of 32 digits.
fn digits_number(word: &[u8]) -> Option<u128>
    requires digits { length word.now ≡ 32 }
    ensures value { result ≡ hex_after 0 word.now }
{
    let mut value = 0u128;
    let mut rest = word;
    while let Some((c, behind)) = rest.split_first() {
        match Letters::Lower.value(*c) {
            Some(digit) => {
                value = value * 16 + u128::from(digit);
                rest = behind;
            }
            None => return None,
        }
    }
    Some(value)
}

/// The number of a random word.
fn salt_of(word: &[u8]) -> Option<u128>
    ensures value { result ≡ salt_value word.now }
{
    if word.len() == usize::from(SALT_DIGITS) {
        digits_number(word)
    } else {
        None
    }
}

/// The cookie whose text has these two parts.
fn cookie_of_parts(serial: &[u8], salt: &[u8]) -> Option<Cookie>
    ensures value { result ≡ cookie_of_parts (serial.now, salt.now) }
{
    match number_up_to(serial, u64::MAX) {
        None => None,
        Some(serial) => match salt_of(salt) {
            None => None,
            Some(salt) => Some(Cookie { serial, salt }),
        },
    }
}

/// The cookie that a word is the text of.
#[tactic(auto, using(crate::proofs::Cutting::cut_is_at, crate::proofs::Cutting::no_separator))]
fn cookie_of(word: &[u8]) -> Option<Cookie>
    ensures value { result ≡ cookie_value word.now }
{
    match cut(word, b'-') {
        None => None,
        Some((serial, salt)) => cookie_of_parts(serial, salt),
    }
}

/// The number that a random word spells.
pub fn read_salt(word: &[u8]) -> Result<u128, Stop>
    ensures salt { WordGives result Value (salt_value word.now) }
{
    match salt_of(word) {
        Some(salt) => Ok(salt),
        None => Err(Stop::Fault(Kind::Value)),
    }
}

/// The cookie that a word spells.
pub fn read_cookie(word: &[u8]) -> Result<Cookie, Stop>
    ensures cookie { WordGives result Value (cookie_value word.now) }
{
    match cookie_of(word) {
        Some(cookie) => Ok(cookie),
        None => Err(Stop::Fault(Kind::Value)),
    }
}
