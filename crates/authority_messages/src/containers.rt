// STRUCT, ARRAY, VARIANT and DICT_ENTRY.
ghost use Rattle.std.specs.Prelude.{◌≡◌, ℕ, suc, false, ◌∷◌, List, IsTrue, IfOk};
ghost use Rattle.dbus_values.specs.Trees.{Tree, Entry, Variant, IsItem};
ghost use Rattle.dbus_values.specs.Written.{tree};
ghost use Rattle.authority_messages.specs.Plain.{is_plain};
ghost use Rattle.authority_messages.specs.Values.{struct, array};
ghost use Rattle.authority_messages.specs.Built.{Builds, Rows, Items};

use crate::texts::plain;
use dbus_values::{Value, ValueList};
use pk_types::NoMemory;
use std::alloc::Global;

/// A STRUCT of at least one member.
pub fn structure(members: ValueList) -> Value
    ensures value { (deep : ℕ) (t : Tree) (ts : List Tree) → Rows deep members (t ∷ ts) → Builds false (suc deep) result (struct (t ∷ ts)) }
{
    Value::Struct(members)
}

/// An ARRAY, the items of which have this signature.
pub fn array(alloc: Global, of: &str, items: ValueList) -> Result<Value, NoMemory>
    requires plain { IsTrue (is_plain of.now) }
    requires item { IsItem of.now }
    ensures value { IfOk result (λ v. (deep : ℕ) (ts : List Tree) → Items deep of.now items ts → Builds false (suc deep) v (array of.now ts)) }
{
    let of = plain(alloc, of)?;
    Ok(Value::Array { of, items })
}

/// A VARIANT.
pub fn variant(alloc: Global, value: Value) -> Result<Value, NoMemory>
    ensures tree { IfOk result (λ v. tree v ≡ Variant (tree value)) }
{
    let inner = Box::new(alloc, value)?;
    Ok(Value::Variant(inner))
}

/// A DICT_ENTRY.
pub fn entry(alloc: Global, key: Value, value: Value) -> Result<Value, NoMemory>
    ensures tree { IfOk result (λ v. tree v ≡ Entry (tree key) (tree value)) }
{
    let key = Box::new(alloc, key)?;
    let value = Box::new(alloc, value)?;
    Ok(Value::Entry(key, value))
}
