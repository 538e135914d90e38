// What comes of a run of a client, and whether it is what a fault of a link leaves.
use crate::doors::{TwoDoors, written};
use memory_outside::ByteSink;
use pk_types::NoMemory;
use std::alloc::Global;

/// How a run ended: the text of its status and its exit code, what it printed, what it sent on its two
/// links, and how many faults its station counted.
#[derive(Drop)]
pub struct Ended {
    status: String,
    code: u8,
    printed: Vec<u8>,
    sent: Vec<u8>,
    asked: Vec<u8>,
    faults: u64,
}

impl Ended {
    /// The end of a run with this status, this output and this station.
    pub fn new(
        alloc: Global,
        status: String,
        code: u8,
        output: &ByteSink,
        station: &TwoDoors,
    ) -> Result<Ended, NoMemory> {
        let printed = output.bytes().to_vec(alloc)?;
        let sent = written(&station.first).to_vec(alloc)?;
        let asked = written(&station.second).to_vec(alloc)?;
        Ok(Ended {
            status,
            code,
            printed,
            sent,
            asked,
            faults: station.faults,
        })
    }

    /// Whether it is the same as the other.
    pub fn is_alike(&self, other: &Ended) -> bool {
        self.status == other.status
            && self.code == other.code
            && self.printed == other.printed
            && self.sent == other.sent
            && self.asked == other.asked
            && self.faults == other.faults
    }

    /// Whether a link failed before the end of a run that is whole: the station counted this once, the links
    /// were sent no more than in that one, and nothing was printed.
    pub fn is_stopped(&self, whole: &Ended) -> bool {
        self.status.as_str() == "StationFault"
            && self.code == 127
            && self.printed.is_empty()
            && whole.sent.starts_with(&self.sent)
            && whole.asked.starts_with(&self.asked)
            && self.faults == 1
    }

    /// Whether a run with two faults came to the same as one with one of them alone, and was whole only
    /// where both are.
    pub fn is_one_of(&self, one: &Ended, other: &Ended) -> bool {
        (self.is_alike(one) || self.is_alike(other)) && (self.code != 0 || one.code == other.code)
    }
}
