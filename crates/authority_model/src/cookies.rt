// The texts of cookies and of temporary authorizations.
ghost use Rattle.std.specs.Prelude.{◌≡◌, ◌<◌, ◌++◌, ◌∷◌, [], ℕ, List, false, MatchOption, OnOk, bytes_eq, codes, decimal, string_bytes};
ghost use Rattle.authority_model.specs.Cookies.{hex, hex_digit, cookie_text, grant_text};

use crate::{Cookie, GrantRow};
use pk_types::Text;
use std::alloc::AllocError;

/// How many hexadecimal digits a cookie's salt has.
const SALT_DIGITS: u8 = 32;

/// What stands before the last byte of a text, if that is this one.
fn before(text: &[u8], last: u8) -> Option<&[u8]>
    ensures front { MatchOption result ((xs : List ℕ) → bytes_eq (xs ++ last ∷ []) text.now ≡ false) (λ front. (xs : List ℕ) → bytes_eq (xs ++ last ∷ []) text.now ≡ bytes_eq xs front.now) }
{
    let [front @ .., end] = text else {
        return None;
    };
    if *end == last { Some(front) } else { None }
}

/// Whether a text is a number in decimal digits.
fn is_decimal(text: &[u8], n: u64) -> bool
    ensures is { result ≡ bytes_eq (decimal n) text.now }
{
    match before(text, b'0' + (n % 10) as u8) {
        None => false,
        Some(front) => {
            if n < 10 {
                front.is_empty()
            } else {
                is_decimal(front, n / 10)
            }
        }
    }
}

/// The lower-case hexadecimal digit of a number below 16.
fn digit(n: u8) -> u8
    requires { n < 16 }
    ensures digit { result ≡ hex_digit n }
    ensures ascii { result < 128 }
{
    if n < 10 { b'0' + n } else { b'a' - 10 + n }
}

/// The same digit as a character.
fn digit_char(n: u8) -> char
    requires { n < 16 }
    ensures digit { result ≡ hex_digit n }
    ensures ascii { result < 128 }
{
    char::from(digit(n))
}

/// Whether a text is a serial and a dash.
fn is_dashed(text: &[u8], serial: u64) -> bool
    ensures is { result ≡ bytes_eq (decimal serial ++ codes "-") text.now }
{
    match before(text, b'-') {
        None => false,
        Some(front) => is_decimal(front, serial),
    }
}

/// Whether a text is a serial, a dash and the last so many hexadecimal digits of a number.
fn is_numbered(text: &[u8], serial: u64, digits: u8, n: u128) -> bool
    ensures is { result ≡ bytes_eq (decimal serial ++ codes "-" ++ hex digits n) text.now }
{
    if digits == 0 {
        return is_dashed(text, serial);
    }
    match before(text, digit((n % 16) as u8)) {
        None => false,
        Some(front) => is_numbered(front, serial, digits - 1, n / 16),
    }
}

/// Adds the last so many hexadecimal digits of a number.
fn push_hex(text: &mut String, digits: u8, n: u128) -> Result<(), AllocError>
    ensures ok { OnOk result (string_bytes text.new ≡ string_bytes text.old ++ hex digits n) }
{
    if digits == 0 {
        return Ok(());
    }
    push_hex(text, digits - 1, n / 16)?;
    text.push(digit_char((n % 16) as u8))?;
    Ok(())
}

/// Adds the text of the temporary authorization with this number: `tmpauthz` and the number.
pub fn push_grant_text(text: &mut String, id: u64) -> Result<(), AllocError>
    ensures ok { OnOk result (string_bytes text.new ≡ string_bytes text.old ++ grant_text id) }
{
    write!(text, "tmpauthz{id}")
}

impl Cookie {
    /// Whether a text is that of the cookie: its serial, a dash, and its salt in 32 lower-case
    /// hexadecimal digits.
    pub fn has_text(self, text: &Text) -> bool
        ensures is { result ≡ bytes_eq (cookie_text self) text.now }
    {
        is_numbered(text.bytes(), self.serial, SALT_DIGITS, self.salt)
    }

    /// Adds the text of the cookie.
    pub fn push_text(self, text: &mut String) -> Result<(), AllocError>
        ensures ok { OnOk result (string_bytes text.new ≡ string_bytes text.old ++ cookie_text self) }
    {
        write!(text, "{}-", self.serial)?;
        push_hex(text, SALT_DIGITS, self.salt)
    }
}

impl GrantRow {
    /// Whether a text names the temporary authorization: `tmpauthz` and its number.
    pub fn is_named(&self, text: &Text) -> bool
        ensures named { result ≡ bytes_eq text.now (grant_text self.now.id) }
    {
        match text.bytes().strip_prefix(b"tmpauthz") {
            Some(digits) => is_decimal(digits, self.id),
            None => false,
        }
    }
}
