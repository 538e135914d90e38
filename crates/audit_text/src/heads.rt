// The lines that tell how many others follow.
ghost use Rattle.std.specs.Prelude.{◌≡◌};
ghost use Rattle.audit_words.specs.Reads.{Gives};
ghost use Rattle.audit_text.specs.Audit.{load_head, load_head_of, text_head, history_headed, version};

use audit_values::Spell;
use audit_words::{Kind, LineBuffer, Stop, Words, put_number, put_plain};
use authority_model::{History, Loaded};

/// How many lines a load has of each kind.
#[derive(Clone, Copy)]
pub struct LoadHead {
    pub actions: u64,
    pub rules: u64,
    pub admins: u64,
    pub users: u64,
    pub groups: u64,
    pub sessions: u64,
    pub processes: u64,
    pub faults: u64,
}

/// How many loads and entries a history has.
#[derive(Clone, Copy)]
pub struct TextHead {
    pub loads: u64,
    pub entries: u64,
}

impl LoadHead {
    /// The lengths of a load.
    pub fn of(load: &Loaded) -> LoadHead
        ensures head { result ≡ load_head_of load.now }
    {
        LoadHead {
            actions: load.policy.actions.len() as u64,
            rules: load.policy.entries.len() as u64,
            admins: load.policy.admins.len() as u64,
            users: load.world.users.len() as u64,
            groups: load.world.groups.len() as u64,
            sessions: load.world.sessions.len() as u64,
            processes: load.world.processes.len() as u64,
            faults: load.faults.len() as u64,
        }
    }
}

impl TextHead {
    /// The lengths of a history.
    pub fn of(history: &History) -> TextHead
        ensures head { result ≡ history_headed.head_of history.now }
    {
        TextHead {
            loads: history.loads.len() as u64,
            entries: history.entries.len() as u64,
        }
    }
}

impl Spell for LoadHead {
    ghost codec = { load_head };

    #[tactic(auto, using(audit_words::proofs::Putting::put_rules))]
    fn put_words(&self, line: &mut LineBuffer) {
        put_number(line, self.actions);
        put_number(line, self.rules);
        put_number(line, self.admins);
        put_number(line, self.users);
        put_number(line, self.groups);
        put_number(line, self.sessions);
        put_number(line, self.processes);
        put_number(line, self.faults);
    }

    fn take_from(words: &mut Words) -> Result<LoadHead, Stop> {
        let actions = words.u32()?;
        let rules = words.u32()?;
        let admins = words.u32()?;
        let users = words.u32()?;
        let groups = words.u32()?;
        let sessions = words.u32()?;
        let processes = words.u32()?;
        let faults = words.u32()?;
        Ok(LoadHead {
            actions: u64::from(actions),
            rules: u64::from(rules),
            admins: u64::from(admins),
            users: u64::from(users),
            groups: u64::from(groups),
            sessions: u64::from(sessions),
            processes: u64::from(processes),
            faults: u64::from(faults),
        })
    }
}

/// Takes the version of the text, which is 1.
fn take_version(words: &mut Words) -> Result<(), Stop>
    ensures taken { Gives result words.new (version.take words.old) }
{
    let word = words.name()?;
    if word == b"1".as_slice() {
        Ok(())
    } else {
        Err(Stop::Fault(Kind::Value))
    }
}

impl Spell for TextHead {
    ghost codec = { text_head };

    #[tactic(auto, using(audit_words::proofs::Putting::put_rules))]
    fn put_words(&self, line: &mut LineBuffer) {
        put_plain(line, b"1");
        put_number(line, self.loads);
        put_number(line, self.entries);
    }

    fn take_from(words: &mut Words) -> Result<TextHead, Stop> {
        take_version(words)?;
        let loads = words.u32()?;
        let entries = words.u64()?;
        Ok(TextHead {
            loads: u64::from(loads),
            entries,
        })
    }
}
