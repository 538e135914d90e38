// Texts of bytes that are a valid text.
ghost use Rattle.std.specs.Prelude.{◌≡◌, IfOk};

use pk_types::{ActionId, NoMemory, Text};
use std::alloc::Global;

/// The text of bytes that are a valid text, so only memory can be refused.
pub fn text(alloc: Global, bytes: &[u8]) -> Result<Text, NoMemory>
    ensures text { IfOk result (λ text. text ≡ bytes.now) }
{
    match Text::try_from_bytes(alloc, bytes) {
        Ok(text) => Ok(text),
        Err(_) => Err(NoMemory),
    }
}

/// The action id of bytes that are a valid action id, so only memory can be refused.
pub fn action_id(alloc: Global, bytes: &[u8]) -> Result<ActionId, NoMemory>
    ensures id { IfOk result (λ id. id ≡ bytes.now) }
{
    let text = text(alloc, bytes)?;
    match ActionId::read(&text) {
        Ok(id) => Ok(id),
        Err(_) => Err(NoMemory),
    }
}
