// Copies of what a load gives, as far as there is memory.
ghost use Rattle.std.specs.Prelude.{◌≡◌, IfOk};

use crate::{
    Action, FileFault, Group, Loaded, Localized, Policy, Process, RuleEntry, Session, User, World,
};
use pk_types::{NoMemory, Text, TryCopy};

impl TryCopy for Localized {
    fn try_copy(&self) -> Result<Localized, NoMemory> {
        Ok(Localized {
            lang: self.lang.try_copy()?,
            text: self.text.try_copy()?,
        })
    }
}

impl TryCopy for Action {
    fn try_copy(&self) -> Result<Action, NoMemory> {
        Ok(Action {
            id: self.id.try_copy()?,
            descriptions: self.descriptions.try_copy()?,
            messages: self.messages.try_copy()?,
            vendor: self.vendor.try_copy()?,
            vendor_url: self.vendor_url.try_copy()?,
            icon: self.icon.try_copy()?,
            any: self.any,
            inactive: self.inactive,
            active: self.active,
            annotations: self.annotations.try_copy()?,
        })
    }
}

impl TryCopy for RuleEntry {
    fn try_copy(&self) -> Result<RuleEntry, NoMemory> {
        Ok(RuleEntry {
            identities: self.identities.try_copy()?,
            actions: self.actions.try_copy()?,
            any: self.any,
            inactive: self.inactive,
            active: self.active,
            pairs: self.pairs.try_copy()?,
        })
    }
}

impl TryCopy for Policy {
    fn try_copy(&self) -> Result<Policy, NoMemory> {
        Ok(Policy {
            actions: self.actions.try_copy()?,
            entries: self.entries.try_copy()?,
            admins: self.admins.try_copy()?,
        })
    }
}

impl TryCopy for User {
    fn try_copy(&self) -> Result<User, NoMemory> {
        Ok(User {
            uid: self.uid,
            name: self.name.try_copy()?,
            label: self.label.try_copy()?,
            gids: self.gids.try_copy()?,
        })
    }
}

impl TryCopy for Group {
    fn try_copy(&self) -> Result<Group, NoMemory> {
        Ok(Group {
            gid: self.gid,
            name: self.name.try_copy()?,
            label: self.label.try_copy()?,
        })
    }
}

impl TryCopy for Session {
    fn try_copy(&self) -> Result<Session, NoMemory> {
        Ok(Session {
            id: self.id.try_copy()?,
            uid: self.uid,
            local: self.local,
            active: self.active,
        })
    }
}

/// A copy of a text that is optional.
fn copy_of(text: &Option<Text>) -> Result<Option<Text>, NoMemory>
    ensures copy { IfOk result (λ copy. copy ≡ text.now) }
{
    match text {
        Some(text) => Ok(Some(text.try_copy()?)),
        None => Ok(None),
    }
}

impl TryCopy for Process {
    fn try_copy(&self) -> Result<Process, NoMemory> {
        Ok(Process {
            pid: self.pid,
            start: self.start,
            uid: self.uid,
            session: copy_of(&self.session)?,
        })
    }
}

impl TryCopy for World {
    fn try_copy(&self) -> Result<World, NoMemory> {
        Ok(World {
            users: self.users.try_copy()?,
            groups: self.groups.try_copy()?,
            sessions: self.sessions.try_copy()?,
            processes: self.processes.try_copy()?,
        })
    }
}

impl TryCopy for FileFault {
    fn try_copy(&self) -> Result<FileFault, NoMemory> {
        Ok(FileFault {
            file: self.file.try_copy()?,
            kind: self.kind.try_copy()?,
            at: self.at,
        })
    }
}

impl TryCopy for Loaded {
    fn try_copy(&self) -> Result<Loaded, NoMemory> {
        Ok(Loaded {
            policy: self.policy.try_copy()?,
            world: self.world.try_copy()?,
            faults: self.faults.try_copy()?,
        })
    }
}
