// Why a journal takes nothing more.
use pk_types::NoMemory;

/// How full a journal is: its entries, and its counted bytes.
#[derive(Clone, Copy, Debug, PartialEq, Eq)]
pub struct Fullness {
    pub entries: u64,
    pub bytes: u64,
}

/// Why nothing was added to a journal.
#[derive(Clone, Copy, Debug, PartialEq, Eq)]
pub enum Halt {
    /// The journal has reached its limit of entries or of bytes. It is this full.
    Full(Fullness),
    /// Memory was refused.
    NoMemory,
}

impl From<NoMemory> for Halt {
    ghost use Rattle.std.specs.Prelude.{◌≡◌};
    ghost use Rattle.authority_core.specs.declared.halt.Halt.TheVariants as halt;

    ghost from_gives = { λ _ given. given ≡ halt.NoMemory };

    fn from(_: NoMemory) -> Self {
        Halt::NoMemory
    }
}
