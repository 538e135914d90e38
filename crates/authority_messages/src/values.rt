// Values of basic types, and rows of values.
ghost use Rattle.std.specs.Prelude.{ℕ, false, [], IsTrue, IfOk, OnOk};
ghost use Rattle.pk_types.specs.Text.{IsText};
ghost use Rattle.dbus_values.specs.Trees.{Tree};
ghost use Rattle.authority_messages.specs.Plain.{is_plain};
ghost use Rattle.authority_messages.specs.Values.{string, boolean, uint32, uint64};
ghost use Rattle.authority_messages.specs.Built.{Builds, Rows, Adds};

use crate::texts::plain;
use dbus_values::{Value, ValueList};
use pk_types::{NoMemory, Text};
use std::alloc::Global;

/// No values.
pub fn no_values(alloc: Global) -> ValueList
    ensures none { Rows 0 result [] }
{
    ValueList::new(alloc)
}

/// A STRING.
pub fn string(alloc: Global, text: &Text) -> Result<Value, NoMemory>
    ensures value { IfOk result (λ v. Builds false 0 v (string text.now)) }
{
    let text = Text::of_known(alloc, text.bytes())?;
    Ok(Value::Text(text))
}

/// Puts a value at the end.
pub fn add(values: &mut ValueList, value: Value) -> Result<(), NoMemory>
    ensures ok { OnOk result ((deep : ℕ) (t : Tree) → Builds false deep value t → Adds values.old values.new deep t) }
{
    values.try_push(value)
}

/// Puts a STRING at the end.
pub fn add_string(alloc: Global, values: &mut ValueList, text: &Text) -> Result<(), NoMemory>
    ensures ok { OnOk result (Adds values.old values.new 0 (string text.now)) }
{
    let value = string(alloc, text)?;
    add(values, value)
}

/// Puts bytes that are known to be a text at the end, as a STRING.
pub fn add_bytes(alloc: Global, values: &mut ValueList, bytes: &[u8]) -> Result<(), NoMemory>
    requires text { IsText bytes.now }
    ensures ok { OnOk result (Adds values.old values.new 0 (string bytes.now)) }
{
    let text = Text::of_known(alloc, bytes)?;
    add(values, Value::Text(text))
}

/// Puts a STRING of ASCII at the end.
pub fn add_plain(alloc: Global, values: &mut ValueList, text: &str) -> Result<(), NoMemory>
    requires plain { IsTrue (is_plain text.now) }
    ensures ok { OnOk result (Adds values.old values.new 0 (string text.now)) }
{
    let text = plain(alloc, text)?;
    add_string(alloc, values, &text)
}

/// Puts a BOOLEAN at the end.
pub fn add_boolean(values: &mut ValueList, truth: bool) -> Result<(), NoMemory>
    ensures ok { OnOk result (Adds values.old values.new 0 (boolean truth)) }
{
    add(values, Value::Bool(truth))
}

/// Puts a UINT32 at the end.
pub fn add_uint32(values: &mut ValueList, n: u32) -> Result<(), NoMemory>
    ensures ok { OnOk result (Adds values.old values.new 0 (uint32 n)) }
{
    add(values, Value::U32(n))
}

/// Puts a UINT64 at the end.
pub fn add_uint64(values: &mut ValueList, n: u64) -> Result<(), NoMemory>
    ensures ok { OnOk result (Adds values.old values.new 0 (uint64 n)) }
{
    add(values, Value::U64(n))
}
