// Users, groups, sessions and processes.
ghost use Rattle.std.specs.Prelude.{◌≡◌, ◌≤◌, ◌++◌, length, IfOk};
ghost use Rattle.pk_types.specs.Text.{IsText};
ghost use Rattle.authority_model.specs.Worlds.{user_label, group_label};
ghost use Rattle.audit_values.specs.Worlds.{user, group, session, process};

use crate::spell::Spell;
use audit_words::{LineBuffer, Stop, Words};
use authority_model::{Group, Process, Session, User};
use pk_types::{List, NoMemory, Text};
use std::alloc::Global;

/// A text of an ASCII front and a name.
fn label(alloc: Global, front: &[u8], name: &[u8]) -> Result<Text, NoMemory>
    requires text { IsText (front.now ++ name.now) }
    ensures label { IfOk result (λ label. label ≡ front.now ++ name.now) }
{
    let mut bytes = Vec::from_slice(alloc, front)?;
    bytes.extend_from_slice(name)?;
    Text::of_known(alloc, &bytes)
}

/// The label of a user of this name.
fn user_label(alloc: Global, name: &Text) -> Result<Text, NoMemory>
    requires short { length name.now ≤ 4096 }
    ensures label { IfOk result (λ label. label ≡ user_label name.now) }
{
    label(alloc, b"unix-user:".as_slice(), name.bytes())
}

/// The label of a group of this name.
fn group_label(alloc: Global, name: &Text) -> Result<Text, NoMemory>
    requires short { length name.now ≤ 4096 }
    ensures label { IfOk result (λ label. label ≡ group_label name.now) }
{
    label(alloc, b"unix-group:".as_slice(), name.bytes())
}

impl Spell for User {
    ghost codec = { user };

    #[tactic(auto, using(audit_words::proofs::Putting::put_rules))]
    fn put_words(&self, line: &mut LineBuffer) {
        self.uid.put_words(line);
        self.name.put_words(line);
        self.gids.put_words(line);
    }

    fn take_from(words: &mut Words) -> Result<User, Stop> {
        let uid = words.u32()?;
        let name = words.short_text()?;
        let label = user_label(words.allocator(), &name)?;
        let gids = List::take_from(words)?;
        Ok(User {
            uid,
            name,
            label,
            gids,
        })
    }
}

impl Spell for Group {
    ghost codec = { group };

    #[tactic(auto, using(audit_words::proofs::Putting::put_rules))]
    fn put_words(&self, line: &mut LineBuffer) {
        self.gid.put_words(line);
        self.name.put_words(line);
    }

    fn take_from(words: &mut Words) -> Result<Group, Stop> {
        let gid = words.u32()?;
        let name = words.short_text()?;
        let label = group_label(words.allocator(), &name)?;
        Ok(Group { gid, name, label })
    }
}

impl Spell for Session {
    ghost codec = { session };

    #[tactic(auto, using(audit_words::proofs::Putting::put_rules))]
    fn put_words(&self, line: &mut LineBuffer) {
        self.id.put_words(line);
        self.uid.put_words(line);
        self.local.put_words(line);
        self.active.put_words(line);
    }

    fn take_from(words: &mut Words) -> Result<Session, Stop> {
        let id = words.text()?;
        let uid = words.u32()?;
        let local = words.boolean()?;
        let active = words.boolean()?;
        Ok(Session {
            id,
            uid,
            local,
            active,
        })
    }
}

impl Spell for Process {
    ghost codec = { process };

    #[tactic(auto, using(audit_words::proofs::Putting::put_rules))]
    fn put_words(&self, line: &mut LineBuffer) {
        self.pid.put_words(line);
        self.start.put_words(line);
        self.uid.put_words(line);
        self.session.put_words(line);
    }

    fn take_from(words: &mut Words) -> Result<Process, Stop> {
        let pid = words.u32()?;
        let start = words.u64()?;
        let uid = words.u32()?;
        let session = Option::take_from(words)?;
        Ok(Process {
            pid,
            start,
            uid,
            session,
        })
    }
}
