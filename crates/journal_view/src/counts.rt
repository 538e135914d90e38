// What is counted of a history.
/// What is counted of a history, and when its last entry was made.
#[derive(Clone, Copy, Debug, PartialEq, Eq)]
pub struct ViewCounts {
    /// How many entries it has.
    pub entries: u64,
    /// How many loads it has, which is the number of the last one.
    pub loads: u32,
    /// How many challenges were opened.
    pub opened: u64,
    /// How many temporary authorizations were made, which is the number of the next one.
    pub made: u64,
    /// The moment of the last entry in seconds, and 0 where there is none.
    pub last_moment: u64,
}
