// Texts that the run puts together.
ghost use Rattle.std.specs.Prelude.{◌≡◌, ◌++◌, IfOk, codes};
ghost use Rattle.scenario_text.specs.Faults.{Gives};
ghost use Rattle.scenario_text.specs.Words.{any_text_in};
ghost use Rattle.scenario_run.specs.Drafts.{owners};

use pk_types::{NoMemory, Text};
use scenario_text::LineKind;
use std::alloc::Global;

fn joined(alloc: Global, front: &[u8], rest: &[u8]) -> Result<Vec<u8>, NoMemory>
    ensures bytes { IfOk result (λ bytes. bytes.items ≡ front.now ++ rest.now) }
{
    let mut bytes = Vec::from_slice(alloc, front)?;
    bytes.extend_from_slice(rest)?;
    Ok(bytes)
}

fn label(alloc: Global, kind: &[u8], name: &Text) -> Result<Text, LineKind>
    ensures value { Gives result (any_text_in (kind.now ++ name.now)) }
{
    let bytes = joined(alloc, kind, name.bytes())?;
    Ok(Text::try_from_bytes(alloc, &bytes)?)
}

/// `unix-user:NAME`, and `Value` exactly where that is not a text.
pub fn user_label(alloc: Global, name: &Text) -> Result<Text, LineKind>
    ensures value { Gives result (any_text_in (codes "unix-user:" ++ name.now)) }
{
    label(alloc, b"unix-user:".as_slice(), name)
}

/// `unix-group:NAME`, and `Value` exactly where that is not a text.
pub fn group_label(alloc: Global, name: &Text) -> Result<Text, LineKind>
    ensures value { Gives result (any_text_in (codes "unix-group:" ++ name.now)) }
{
    label(alloc, b"unix-group:".as_slice(), name)
}

/// Identities with one space between them.
pub fn owners(alloc: Global, identities: &[Text]) -> Result<Vec<u8>, NoMemory>
    ensures bytes { IfOk result (λ bytes. bytes.items ≡ owners identities.now) }
{
    let mut joined = Vec::new(alloc);
    let [first, others @ ..] = identities else {
        return Ok(joined);
    };
    joined.extend_from_slice(first.bytes())?;
    for identity in others {
        joined.push(b' ')?;
        joined.extend_from_slice(identity.bytes())?;
    }
    Ok(joined)
}
