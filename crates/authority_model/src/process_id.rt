// Which process.

/// A process, by its pid and its start.
///
/// A pid may be used again, but never with the same start (Subject in the reference manual).
#[derive(Clone, Copy, Debug, PartialEq, Eq)]
pub struct ProcessId {
    pub pid: u32,
    /// When it started, as the kernel counts it: in ticks since boot.
    pub start: u64,
}
