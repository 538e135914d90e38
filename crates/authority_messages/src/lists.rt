// The replies that list actions and temporary authorizations.
ghost use Rattle.std.specs.Prelude.{◌≡◌, ◌<◌, [], ◌∷◌, map, codes, IfOk};
ghost use Rattle.authority_messages.specs.Values.{array as array_tree, description, authorization};
ghost use Rattle.authority_messages.specs.Outgoing.{outgoing, return_to as return_of, MayBeSent};
ghost use Rattle.authority_messages.specs.Messages.{actions_of};

use crate::actions::listed;
use crate::containers::array;
use crate::grants::authorization_items;
use crate::replies::returning;
use authority_model::{GrantRow, Loaded};
use dbus_values::WireOut;
use pk_types::{NoMemory, Text};
use std::alloc::Global;

/// The return of EnumerateActions.
pub fn actions(
    alloc: Global,
    answered: u32,
    loads: &[Loaded],
    load: u32,
    locale: &Text,
) -> Result<WireOut, NoMemory>
    requires { 0 < answered }
    ensures message { IfOk result (λ out. outgoing out ≡ return_of answered (array_tree (codes "(ssssssuuua{ss})") (map (description locale.now) (actions_of loads.now load)) ∷ [])) }
    ensures form { IfOk result (λ out. MayBeSent (outgoing out)) }
{
    let items = listed(alloc, loads, load, locale)?;
    let value = array(alloc, "(ssssssuuua{ss})", items)?;
    returning(alloc, answered, value)
}

/// The return of EnumerateTemporaryAuthorizations.
pub fn grants(alloc: Global, answered: u32, rows: &[GrantRow]) -> Result<WireOut, NoMemory>
    requires { 0 < answered }
    ensures message { IfOk result (λ out. outgoing out ≡ return_of answered (array_tree (codes "(ss(sa{sv})tt)") (map authorization rows.now) ∷ [])) }
    ensures form { IfOk result (λ out. MayBeSent (outgoing out)) }
{
    let items = authorization_items(alloc, rows)?;
    let value = array(alloc, "(ss(sa{sv})tt)", items)?;
    returning(alloc, answered, value)
}
