// Why files name no administrators.
use pk_types::NoMemory;
use thiserror::Error;

/// What is wrong with the administrators of several files.
#[derive(Clone, Copy, Debug, PartialEq, Eq, Error)]
pub enum AdminFault {
    /// An item names neither a user nor a group: the place of its file and its place among the
    /// items of that file's `AdminIdentities`, both counted from 0.
    #[error("item {item} of file {file} is neither a unix-user nor a unix-group")]
    BadIdentity { file: u64, item: u64 },
    /// Memory was refused. It says nothing of the files.
    #[error("out of memory")]
    NoMemory,
}

impl AdminFault {
    ghost use Rattle.std.specs.Prelude.{◌≡◌};
    ghost use Rattle.admin_identities.specs.Configured.{fault_name};

    /// The variant's name, by which a report of a skipped file tells the fault.
    pub fn name(self) -> &'static str
        ensures name { result.now ≡ fault_name self }
    {
        match self {
            AdminFault::BadIdentity { .. } => "BadIdentity",
            AdminFault::NoMemory => "NoMemory",
        }
    }
}

impl From<NoMemory> for AdminFault {
    ghost use Rattle.std.specs.Prelude.{◌≡◌};
    ghost use Rattle.admin_identities.specs.declared.fault.AdminFault.TheVariants as fault;

    ghost from_gives = { λ _ e. e ≡ fault.NoMemory };

    fn from(_: NoMemory) -> Self {
        AdminFault::NoMemory
    }
}
