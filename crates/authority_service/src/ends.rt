// How a service ends.
use authority_core::Fullness;
use policy_load::LoadRefused;

/// How a service ended. Where several of these apply once the slots have ended, the first of
/// `Full`, `Admissions`, `NoMemory`, `DoorFault`, `WriteFault` and `Done` is answered.
#[derive(Debug, Drop)]
pub enum ServiceEnd {
    /// All slots have ended, and all was written.
    Done,
    /// The tree counted a fault while the first load was read. The count is that after the load.
    TreeFault { count: u64 },
    /// The first load was refused by a limit or by a table.
    LoadRefused { refused: LoadRefused },
    /// The output counted a fault.
    WriteFault,
    /// The lock ended since the journal was full. It is this full.
    Full(Fullness),
    /// The lock ended since all passes were made, which are so many.
    Admissions { admitted: u32 },
    /// A door could not be made, or failed.
    DoorFault,
    /// Memory was refused.
    NoMemory,
}
