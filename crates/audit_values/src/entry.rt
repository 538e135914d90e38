// Messages, and entries of a journal.
ghost use Rattle.audit_values.specs.Entries.{message, output, entry};

use crate::spell::Spell;
use audit_words::{Kind, LineBuffer, Stop, Words, put_plain};
use authority_model::{Answer, Entry, Event, Message, Output};
use pk_types::List;

impl Spell for Message {
    ghost codec = { message };

    #[tactic(auto, using(audit_words::proofs::Putting::put_rules))]
    fn put_words(&self, line: &mut LineBuffer) {
        match self {
            Message::Reply { serial, answer } => {
                put_plain(line, b"Reply");
                serial.put_words(line);
                answer.put_words(line);
            }
            Message::Begin {
                path,
                action,
                text,
                icon,
                details,
                cookie,
                identities,
            } => {
                put_plain(line, b"Begin");
                path.put_words(line);
                action.put_words(line);
                text.put_words(line);
                icon.put_words(line);
                details.put_words(line);
                cookie.put_words(line);
                identities.put_words(line);
            }
            Message::CancelBegin { path, cookie } => {
                put_plain(line, b"CancelBegin");
                path.put_words(line);
                cookie.put_words(line);
            }
            Message::Changed => put_plain(line, b"Changed"),
            Message::LoadWanted => put_plain(line, b"LoadWanted"),
            Message::StopWanted => put_plain(line, b"StopWanted"),
        }
    }

    fn take_from(words: &mut Words) -> Result<Message, Stop> {
        let name = words.name()?;
        if name == b"Reply".as_slice() {
            let serial = words.u32()?;
            let answer = Answer::take_from(words)?;
            Ok(Message::Reply { serial, answer })
        } else if name == b"Begin".as_slice() {
            let path = words.text()?;
            let action = words.text()?;
            let text = words.text()?;
            let icon = words.text()?;
            let details = List::take_from(words)?;
            let cookie = words.cookie()?;
            let identities = List::take_from(words)?;
            Ok(Message::Begin {
                path,
                action,
                text,
                icon,
                details,
                cookie,
                identities,
            })
        } else if name == b"CancelBegin".as_slice() {
            let path = words.text()?;
            let cookie = words.cookie()?;
            Ok(Message::CancelBegin { path, cookie })
        } else if name == b"Changed".as_slice() {
            Ok(Message::Changed)
        } else if name == b"LoadWanted".as_slice() {
            Ok(Message::LoadWanted)
        } else if name == b"StopWanted".as_slice() {
            Ok(Message::StopWanted)
        } else {
            Err(Stop::Fault(Kind::Value))
        }
    }
}

impl Spell for Output {
    ghost codec = { output };

    #[tactic(auto, using(audit_words::proofs::Putting::put_rules))]
    fn put_words(&self, line: &mut LineBuffer) {
        self.to.put_words(line);
        self.message.put_words(line);
    }

    fn take_from(words: &mut Words) -> Result<Output, Stop> {
        let to = words.u32()?;
        let message = Message::take_from(words)?;
        Ok(Output { to, message })
    }
}

impl Spell for Entry {
    ghost codec = { entry };

    #[tactic(auto, using(audit_words::proofs::Putting::put_rules))]
    fn put_words(&self, line: &mut LineBuffer) {
        self.caller.put_words(line);
        self.moment.put_words(line);
        self.salt.put_words(line);
        self.event.put_words(line);
        self.outputs.put_words(line);
    }

    fn take_from(words: &mut Words) -> Result<Entry, Stop> {
        let caller = words.u32()?;
        let moment = words.u64()?;
        let salt = words.salt()?;
        let event = Event::take_from(words)?;
        let outputs = List::take_from(words)?;
        Ok(Entry {
            caller,
            moment,
            salt,
            event,
            outputs,
        })
    }
}
