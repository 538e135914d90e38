// The descriptions of temporary authorizations.
ghost use Rattle.std.specs.Prelude.{false, map, codes, IfOk};
ghost use Rattle.authority_messages.specs.Values.{authorization as authorization_tree};
ghost use Rattle.authority_messages.specs.Built.{Builds, Items};

use crate::containers::structure;
use crate::subjects::subject;
use crate::texts::grant_text;
use crate::values::{add, add_string, add_uint64, no_values};
use authority_model::GrantRow;
use dbus_values::{Value, ValueList};
use pk_types::NoMemory;
use std::alloc::Global;

/// A temporary authorization (TemporaryAuthorization in the reference manual).
fn authorization(alloc: Global, row: &GrantRow) -> Result<Value, NoMemory>
    ensures value { IfOk result (λ v. Builds false 5 v (authorization_tree row.now)) }
{
    let id = grant_text(alloc, row.id)?;
    let key = subject(alloc, &row.key)?;
    let mut members = no_values(alloc);
    add_string(alloc, &mut members, &id)?;
    add_string(alloc, &mut members, &row.action)?;
    add(&mut members, key)?;
    add_uint64(&mut members, row.obtained)?;
    add_uint64(&mut members, row.expires)?;
    Ok(structure(members))
}

/// Temporary authorizations, in their order.
pub fn authorization_items(alloc: Global, rows: &[GrantRow]) -> Result<ValueList, NoMemory>
    ensures items { IfOk result (λ list. Items 5 (codes "(ss(sa{sv})tt)") list (map authorization_tree rows.now)) }
{
    let mut items = ValueList::new(alloc);
    for row in rows {
        let item = authorization(alloc, row)?;
        items.try_push(item)?;
    }
    Ok(items)
}
