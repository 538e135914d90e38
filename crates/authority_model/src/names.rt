// The bus names of connections.
ghost use Rattle.std.specs.Prelude.{◌≡◌, IfOk};
ghost use Rattle.authority_model.specs.Words.{bus_name as bus_name_of};

use pk_types::{NoMemory, Text};
use std::alloc::Global;

/// The bus name of a connection: `:1.` and its number.
pub fn bus_name(alloc: Global, caller: u32) -> Result<Text, NoMemory>
    ensures name { IfOk result (λ name. name ≡ bus_name_of caller) }
{
    let name = format!(in alloc; ":1.{caller}")?;
    Text::of_known(alloc, name.as_bytes())
}
