// Values and messages to be written.
ghost use Rattle.std.specs.Prelude.{◌≡◌, ◌↔◌, [], ◌∷◌, ◌++◌, length, IsTrue, OnOk, OnErr, slice_get};
ghost use Rattle.std.specs.Option.{option_copied};

use pk_types::{NoMemory, Text};
use std::alloc::Global;

/// Values one after the other.
#[cycle(values)]
#[derive(Drop)]
pub struct ValueList {
    pub(crate) items: Vec<Value>,
}

/// A value of the D-Bus type system.
#[cycle(values)]
#[derive(Drop)]
pub enum Value {
    /// BOOLEAN.
    Bool(bool),
    /// UINT32.
    U32(u32),
    /// UINT64.
    U64(u64),
    /// STRING.
    Text(Text),
    /// ARRAY: the signature of one item, and the items.
    Array { of: Text, items: ValueList },
    /// STRUCT.
    Struct(ValueList),
    /// DICT_ENTRY, which may stand only as the item of an array.
    Entry(Box<Value>, Box<Value>),
    /// VARIANT.
    Variant(Box<Value>),
}

impl ValueList {
    ghost use Rattle.dbus_values.specs.Values.{values_of};

    /// The empty list. It takes no memory.
    pub fn new(alloc: Global) -> Self
        ensures empty { values_of result ≡ [] }
    {
        ValueList {
            items: Vec::new(alloc),
        }
    }

    /// How many values the list has.
    pub fn len(&self) -> usize
        ensures length { result ≡ length (values_of self.now) }
    {
        self.items.len()
    }

    /// Whether the list has no value.
    pub fn is_empty(&self) -> bool
        ensures empty { IsTrue result ↔ (values_of self.now ≡ []) }
    {
        self.items.is_empty()
    }

    /// The value at a place counted from 0, and `None` exactly past the end.
    pub fn get(&self, i: usize) -> Option<&Value>
        ensures item { option_copied result ≡ slice_get (values_of self.now) i }
    {
        self.items.get(i)
    }

    /// Puts a value at the end. A refusal leaves the list as it was.
    pub fn try_push(&mut self, item: Value) -> Result<(), NoMemory>
        ensures ok { OnOk result (values_of self.new ≡ values_of self.old ++ item ∷ []) }
        ensures err { OnErr result (values_of self.new ≡ values_of self.old) }
    {
        self.items.push(item)?;
        Ok(())
    }
}
