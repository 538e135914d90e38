// Why arguments are not read.
use pk_types::NoMemory;

/// Why the arguments of a call are not read.
#[derive(Clone, Copy, Debug, PartialEq, Eq)]
pub enum ArgumentFault {
    /// They are not those of the method.
    OutOfForm,
    /// Memory was refused. It says nothing of the arguments.
    NoMemory,
}

impl From<NoMemory> for ArgumentFault {
    ghost use Rattle.std.specs.Prelude.{◌≡◌};
    ghost use Rattle.authority_calls.specs.declared.fault.ArgumentFault.TheVariants as fault;

    ghost from_gives = { λ _ e. e ≡ fault.NoMemory };

    fn from(_: NoMemory) -> Self {
        ArgumentFault::NoMemory
    }
}
