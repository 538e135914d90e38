// Texts and numbers as an answer line writes them: each is added at the end.
ghost use Rattle.std.specs.Prelude.{◌≡◌, ◌<◌, ◌++◌, true, string_bytes, OnOk};
ghost use Rattle.std.specs.Fmt.{digit_glyph};
ghost use Rattle.scenario_text.specs.Escapes.{is_plain, escape_of, escaped, identity_text, identities_text, grants_text, pair_text, pairs_text};

use authority_model::{GrantRow, push_grant_text};
use pk_types::{Identity, Pair};
use std::alloc::AllocError;

fn is_plain(b: u8) -> bool
    ensures class { result ≡ is_plain b }
{
    b.is_ascii_graphic() && b != b'%'
}

/// The upper-case hexadecimal digit of a number below 16.
fn upper_digit(n: u8) -> char
    requires { n < 16 }
    ensures digit { result ≡ digit_glyph true n }
    ensures ascii { result < 128 }
{
    if n < 10 {
        char::from(b'0' + n)
    } else {
        char::from(b'A' - 10 + n)
    }
}

/// Adds a byte, or its escape.
fn push_byte(text: &mut String, b: u8) -> Result<(), AllocError>
    ensures ok { OnOk result (string_bytes text.new ≡ string_bytes text.old ++ escape_of b) }
{
    if is_plain(b) {
        return text.push(char::from(b));
    }
    text.push('%')?;
    text.push(upper_digit(b / 16))?;
    text.push(upper_digit(b % 16))
}

/// Adds the bytes, with each one escaped that doesn't stand for itself.
pub fn push_escaped(text: &mut String, bytes: &[u8]) -> Result<(), AllocError>
    ensures ok { OnOk result (string_bytes text.new ≡ string_bytes text.old ++ escaped bytes.now) }
{
    for b in bytes {
        push_byte(text, *b)?;
    }
    Ok(())
}

fn push_identity(text: &mut String, identity: Identity) -> Result<(), AllocError>
    ensures ok { OnOk result (string_bytes text.new ≡ string_bytes text.old ++ identity_text identity) }
{
    match identity {
        Identity::User(uid) => write!(text, "user:{uid}"),
        Identity::Group(gid) => write!(text, "group:{gid}"),
    }
}

/// Adds the identities with commas between them, or `-` for none.
pub fn push_identities(text: &mut String, identities: &[Identity]) -> Result<(), AllocError>
    ensures ok { OnOk result (string_bytes text.new ≡ string_bytes text.old ++ identities_text identities.now) }
{
    let Some((first, others)) = identities.split_first() else {
        return text.push_str("-");
    };
    push_identity(text, *first)?;
    for identity in others {
        text.push_str(",")?;
        push_identity(text, *identity)?;
    }
    Ok(())
}

/// Adds the ids of the temporary authorizations with commas between them, or `-` for none.
pub fn push_grants(text: &mut String, rows: &[GrantRow]) -> Result<(), AllocError>
    ensures ok { OnOk result (string_bytes text.new ≡ string_bytes text.old ++ grants_text rows.now) }
{
    let Some((first, others)) = rows.split_first() else {
        return text.push_str("-");
    };
    push_grant_text(text, first.id)?;
    for row in others {
        text.push_str(",")?;
        push_grant_text(text, row.id)?;
    }
    Ok(())
}

fn push_pair(text: &mut String, pair: &Pair) -> Result<(), AllocError>
    ensures ok { OnOk result (string_bytes text.new ≡ string_bytes text.old ++ pair_text pair.now) }
{
    text.push_str(" ")?;
    push_escaped(text, pair.key.bytes())?;
    text.push_str("=")?;
    push_escaped(text, pair.value.bytes())
}

/// Adds the pairs of a verdict, each after a space.
pub fn push_pairs(text: &mut String, pairs: &[Pair]) -> Result<(), AllocError>
    ensures ok { OnOk result (string_bytes text.new ≡ string_bytes text.old ++ pairs_text pairs.now) }
{
    for pair in pairs {
        push_pair(text, pair)?;
    }
    Ok(())
}
