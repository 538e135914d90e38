// Texts that are spelled out, and texts of numbers.
ghost use Rattle.std.specs.Prelude.{◌≡◌, ◌≤◌, length, None, Some, if◌then◌else◌, is_some, IsTrue, IfOk};
ghost use Rattle.pk_types.specs.Text.{IsText, text_fault_of};
ghost use Rattle.authority_model.specs.Cookies.{cookie_text, grant_text};
ghost use Rattle.authority_model.specs.Reasons.{reason_text};
ghost use Rattle.authority_messages.specs.Plain.{is_plain};

use authority_model::{Cookie, Reason, push_grant_text};
use pk_types::{NoMemory, Text, TextFault};
use std::alloc::Global;

/// A text of ASCII.
pub fn plain(alloc: Global, text: &str) -> Result<Text, NoMemory>
    requires plain { IsTrue (is_plain text.now) }
    ensures text { IfOk result (λ t. t ≡ text.now) }
{
    Text::of_known(alloc, text.as_bytes())
}

/// The text of the cookie with this number and salt.
fn numbered_cookie(alloc: Global, serial: u64, salt: u128) -> Result<Text, NoMemory>
    ensures text { IfOk result (λ t. t ≡ cookie_text (record { serial = serial; salt = salt })) }
    ensures known { IsText (cookie_text (record { serial = serial; salt = salt })) }
    ensures short { length (cookie_text (record { serial = serial; salt = salt })) ≤ 53 }
{
    let cookie = Cookie { serial, salt };
    let mut text = String::new(alloc);
    cookie.push_text(&mut text)?;
    Text::of_known(alloc, text.as_bytes())
}

/// The text of a cookie, which has at most 53 bytes.
pub fn cookie_text(alloc: Global, cookie: Cookie) -> Result<Text, NoMemory>
    ensures text { IfOk result (λ t. t ≡ cookie_text cookie) }
    ensures known { IsText (cookie_text cookie) }
    ensures short { length (cookie_text cookie) ≤ 53 }
{
    numbered_cookie(alloc, cookie.serial, cookie.salt)
}

/// The text of a temporary authorization's number.
pub fn grant_text(alloc: Global, id: u64) -> Result<Text, NoMemory>
    ensures text { IfOk result (λ t. t ≡ grant_text id) }
{
    let mut text = String::new(alloc);
    push_grant_text(&mut text, id)?;
    Text::of_known(alloc, text.as_bytes())
}

/// The text of these bytes, and `None` exactly where they are no text.
fn text_of(alloc: Global, bytes: &[u8]) -> Result<Option<Text>, NoMemory>
    ensures text { IfOk result (λ found. found ≡ (if is_some (text_fault_of bytes.now) then None else Some bytes.now)) }
{
    match Text::try_from_bytes(alloc, bytes) {
        Ok(text) => Ok(Some(text)),
        Err(TextFault::NoMemory) => Err(NoMemory),
        Err(_) => Ok(None),
    }
}

/// The text of a reason, and `None` exactly where it is longer than a text may be.
pub fn reason_text(alloc: Global, reason: &Reason) -> Result<Option<Text>, NoMemory>
    ensures text { IfOk result (λ found. found ≡ (if is_some (text_fault_of (reason_text reason.now)) then None else Some (reason_text reason.now))) }
{
    let bytes = reason.text(alloc)?;
    text_of(alloc, &bytes)
}
