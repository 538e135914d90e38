// What is told of words that are wrong.
use crate::told::ProgramTexts;

/// What stands between a fault and the usage that `clap` puts behind it.
const CLAP_USAGE: &str = "\n\nUsage:";

/// What ends the usage in a help.
const USAGE_END: &str = "\n\n";

/// The text of a fault without the usage that `clap` puts behind it.
fn fault_alone(fault: &str) -> &str {
    match fault.split_once(CLAP_USAGE) {
        Some((alone, _)) => alone,
        None => fault.trim_end(),
    }
}

impl ProgramTexts {
    /// How the words are to be: the help up to its first empty line.
    pub fn usage(&self) -> &'static str {
        match self.help.split_once(USAGE_END) {
            Some((usage, _)) => usage,
            None => self.help,
        }
    }

    /// Tells on standard error what is wrong with the words, and then how they are to be.
    pub fn tell_usage<R: Eprint>(&self, rt: &R, fault: &str) {
        let _ = eprintln!(rt; "{}\n{}", fault_alone(fault), self.usage());
    }
}
