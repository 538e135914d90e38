// What a type code stands for.
ghost use Rattle.std.specs.Prelude.{◌≡◌, ◌<◌, ◌≤◌};
ghost use Rattle.dbus_values.specs.Types.{class_of, is_basic, align_of};

/// The types of the D-Bus Specification, "Type System", grouped by how their values are marshalled.
#[derive(Clone, Copy, Debug, PartialEq, Eq)]
pub enum Class {
    /// BYTE.
    Byte,
    /// INT16 and UINT16.
    Half,
    /// BOOLEAN.
    Boolean,
    /// INT32, UINT32 and UNIX_FD.
    Word,
    /// INT64, UINT64 and DOUBLE.
    Long,
    /// STRING.
    Text,
    /// OBJECT_PATH.
    Path,
    /// SIGNATURE.
    Signature,
    /// ARRAY.
    Array,
    /// STRUCT.
    Struct,
    /// DICT_ENTRY.
    Entry,
    /// VARIANT.
    Variant,
    /// No type begins with this letter.
    Other,
}

impl Class {
    /// The class of the type that begins with a letter.
    #[inline(always)]
    pub fn of(letter: u8) -> Class
        ensures class { result ≡ class_of letter }
    {
        match letter {
            b'y' => Class::Byte,
            b'n' | b'q' => Class::Half,
            b'b' => Class::Boolean,
            b'i' | b'u' | b'h' => Class::Word,
            b'x' | b't' | b'd' => Class::Long,
            b's' => Class::Text,
            b'o' => Class::Path,
            b'g' => Class::Signature,
            b'a' => Class::Array,
            b'(' => Class::Struct,
            b'{' => Class::Entry,
            b'v' => Class::Variant,
            _ => Class::Other,
        }
    }

    /// Whether the key of a dict entry may have such a type.
    #[inline(always)]
    pub fn is_basic(self) -> bool
        ensures basic { result ≡ is_basic self }
    {
        !matches!(
            self,
            Class::Array | Class::Struct | Class::Entry | Class::Variant | Class::Other
        )
    }

    /// The alignment of the values of a class, in bytes.
    #[inline(always)]
    pub fn align(self) -> usize
        ensures exact { result ≡ align_of self }
        ensures low { 0 < result }
        ensures high { result ≤ 8 }
    {
        match self {
            Class::Byte | Class::Signature | Class::Variant | Class::Other => 1,
            Class::Half => 2,
            Class::Boolean | Class::Word | Class::Text | Class::Path | Class::Array => 4,
            Class::Long | Class::Struct | Class::Entry => 8,
        }
    }
}
