// Subjects, identities and the values of actions.
ghost use Rattle.std.specs.Prelude.{◌≡◌};
ghost use Rattle.audit_words.specs.Codecs.{named_in};
ghost use Rattle.audit_values.specs.Values.{pair, subject, identity, implicit, implicit_name, implicit_names, category, category_name, category_names};

use crate::spell::Spell;
use audit_words::{Kind, LineBuffer, Stop, Words, put_plain};
use pk_types::{Category, Identity, Implicit, Pair, Subject};

impl Spell for Pair {
    ghost codec = { pair };

    #[tactic(auto, using(audit_words::proofs::Putting::put_rules))]
    fn put_words(&self, line: &mut LineBuffer) {
        self.key.put_words(line);
        self.value.put_words(line);
    }

    fn take_from(words: &mut Words) -> Result<Pair, Stop> {
        let key = words.text()?;
        let value = words.text()?;
        Ok(Pair { key, value })
    }
}

impl Spell for Subject {
    ghost codec = { subject };

    #[tactic(auto, using(audit_words::proofs::Putting::put_rules))]
    fn put_words(&self, line: &mut LineBuffer) {
        match self {
            Subject::Process { pid, start } => {
                put_plain(line, b"Process");
                pid.put_words(line);
                start.put_words(line);
            }
            Subject::Session { id } => {
                put_plain(line, b"Session");
                id.put_words(line);
            }
            Subject::BusName { name } => {
                put_plain(line, b"BusName");
                name.put_words(line);
            }
        }
    }

    fn take_from(words: &mut Words) -> Result<Subject, Stop> {
        let name = words.name()?;
        if name == b"Process".as_slice() {
            let pid = words.u32()?;
            let start = words.u64()?;
            Ok(Subject::Process { pid, start })
        } else if name == b"Session".as_slice() {
            let id = words.text()?;
            Ok(Subject::Session { id })
        } else if name == b"BusName".as_slice() {
            let name = words.text()?;
            Ok(Subject::BusName { name })
        } else {
            Err(Stop::Fault(Kind::Value))
        }
    }
}

impl Spell for Identity {
    ghost codec = { identity };

    #[tactic(auto, using(audit_words::proofs::Putting::put_rules))]
    fn put_words(&self, line: &mut LineBuffer) {
        match self {
            Identity::User(number) => {
                put_plain(line, b"User");
                number.put_words(line);
            }
            Identity::Group(number) => {
                put_plain(line, b"Group");
                number.put_words(line);
            }
        }
    }

    fn take_from(words: &mut Words) -> Result<Identity, Stop> {
        let name = words.name()?;
        if name == b"User".as_slice() {
            let number = words.u32()?;
            Ok(Identity::User(number))
        } else if name == b"Group".as_slice() {
            let number = words.u32()?;
            Ok(Identity::Group(number))
        } else {
            Err(Stop::Fault(Kind::Value))
        }
    }
}

/// The name of the variant.
fn implicit_name(value: Implicit) -> &'static str
    ensures name { result.now ≡ implicit_name value }
{
    match value {
        Implicit::No => "No",
        Implicit::AuthSelf => "AuthSelf",
        Implicit::AuthAdmin => "AuthAdmin",
        Implicit::AuthSelfKeep => "AuthSelfKeep",
        Implicit::AuthAdminKeep => "AuthAdminKeep",
        Implicit::Yes => "Yes",
    }
}

/// The variant that has this name.
fn implicit_named(name: &[u8]) -> Option<Implicit>
    ensures named { result ≡ named_in implicit_names name.now }
{
    if name == b"No".as_slice() {
        Some(Implicit::No)
    } else if name == b"AuthSelf".as_slice() {
        Some(Implicit::AuthSelf)
    } else if name == b"AuthAdmin".as_slice() {
        Some(Implicit::AuthAdmin)
    } else if name == b"AuthSelfKeep".as_slice() {
        Some(Implicit::AuthSelfKeep)
    } else if name == b"AuthAdminKeep".as_slice() {
        Some(Implicit::AuthAdminKeep)
    } else if name == b"Yes".as_slice() {
        Some(Implicit::Yes)
    } else {
        None
    }
}

impl Spell for Implicit {
    ghost codec = { implicit };

    fn put_words(&self, line: &mut LineBuffer) {
        put_plain(line, implicit_name(*self).as_bytes());
    }

    fn take_from(words: &mut Words) -> Result<Implicit, Stop> {
        match implicit_named(words.name()?) {
            Some(value) => Ok(value),
            None => Err(Stop::Fault(Kind::Value)),
        }
    }
}

/// The name of the variant.
fn category_name(value: Category) -> &'static str
    ensures name { result.now ≡ category_name value }
{
    match value {
        Category::Any => "Any",
        Category::Inactive => "Inactive",
        Category::Active => "Active",
    }
}

/// The variant that has this name.
fn category_named(name: &[u8]) -> Option<Category>
    ensures named { result ≡ named_in category_names name.now }
{
    if name == b"Any".as_slice() {
        Some(Category::Any)
    } else if name == b"Inactive".as_slice() {
        Some(Category::Inactive)
    } else if name == b"Active".as_slice() {
        Some(Category::Active)
    } else {
        None
    }
}

impl Spell for Category {
    ghost codec = { category };

    fn put_words(&self, line: &mut LineBuffer) {
        put_plain(line, category_name(*self).as_bytes());
    }

    fn take_from(words: &mut Words) -> Result<Category, Stop> {
        match category_named(words.name()?) {
            Some(value) => Ok(value),
            None => Err(Stop::Fault(Kind::Value)),
        }
    }
}
