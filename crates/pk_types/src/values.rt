// Subjects, identities and the values of an action.
ghost use Rattle.std.specs.Prelude.{◌≡◌, ◌<◌, ◌↔◌, IsSome, IfSome, IfOk, Some};
ghost use Rattle.pk_types.specs.Values.{implicit_of_word, implicit_of_code, code_of_implicit};

use crate::list::NoMemory;
use crate::text::Text;

/// Who a check is about, as the structure Subject of the polkit D-Bus interface.
#[derive(Drop, Debug)]
pub enum Subject {
    /// `unix-process`: a process by its pid and its start time.
    Process { pid: u32, start: u64 },
    /// `unix-session`: a login session by its id.
    Session { id: Text },
    /// `system-bus-name`: a connection by its name.
    BusName { name: Text },
}

impl Subject {
    /// A copy of the subject.
    pub fn try_copy(&self) -> Result<Subject, NoMemory>
        ensures copy { IfOk result (λ subject. subject ≡ self.now) }
    {
        match self {
            Subject::Process { pid, start } => Ok(Subject::Process {
                pid: *pid,
                start: *start,
            }),
            Subject::Session { id } => {
                let id = id.try_copy()?;
                Ok(Subject::Session { id })
            }
            Subject::BusName { name } => {
                let name = name.try_copy()?;
                Ok(Subject::BusName { name })
            }
        }
    }
}

/// A user or a group by its number, as the structure Identity of the polkit D-Bus interface.
#[derive(Clone, Copy, Debug, PartialEq, Eq)]
pub enum Identity {
    /// `unix-user`: a user by its uid.
    User(u32),
    /// `unix-group`: a group by its gid.
    Group(u32),
}

/// What an action gives to a subject without a temporary authorization, as the implicit
/// authorizations of polkit(8).
#[derive(Clone, Copy, Debug, PartialEq, Eq)]
pub enum Implicit {
    /// Not authorized.
    No,
    /// Authentication by the subject's own user is asked for.
    AuthSelf,
    /// Authentication by an administrator is asked for.
    AuthAdmin,
    /// As `AuthSelf`, and the authorization is kept for a while.
    AuthSelfKeep,
    /// As `AuthAdmin`, and the authorization is kept for a while.
    AuthAdminKeep,
    /// Authorized.
    Yes,
}

/// Where a subject's session stands: the three cases of an action's defaults in polkit(8).
#[derive(Clone, Copy, Debug, PartialEq, Eq)]
pub enum Category {
    /// No local session.
    Any,
    /// A local session that is not the active one.
    Inactive,
    /// The active local session.
    Active,
}

/// A key with its value.
#[derive(Drop, Debug)]
pub struct Pair {
    pub key: Text,
    pub value: Text,
}

impl Pair {
    /// A copy of the pair.
    pub fn try_copy(&self) -> Result<Pair, NoMemory>
        ensures copy { IfOk result (λ pair. pair ≡ self.now) }
    {
        let key = self.key.try_copy()?;
        let value = self.value.try_copy()?;
        Ok(Pair { key, value })
    }
}

impl Implicit {
    /// The value that a word of an action file names, and `None` exactly for another word.
    pub fn read(word: &[u8]) -> Option<Implicit>
        ensures word { result ≡ implicit_of_word word.now }
    {
        if word == b"no".as_slice() {
            Some(Implicit::No)
        } else if word == b"auth_self".as_slice() {
            Some(Implicit::AuthSelf)
        } else if word == b"auth_admin".as_slice() {
            Some(Implicit::AuthAdmin)
        } else if word == b"auth_self_keep".as_slice() {
            Some(Implicit::AuthSelfKeep)
        } else if word == b"auth_admin_keep".as_slice() {
            Some(Implicit::AuthAdminKeep)
        } else if word == b"yes".as_slice() {
            Some(Implicit::Yes)
        } else {
            None
        }
    }

    /// The code of the value, 0 to 5 in the order of the variants. `of_code` gives the value back.
    pub fn code(self) -> u32
        ensures code { result ≡ code_of_implicit self }
        ensures back { implicit_of_code result ≡ Some self }
    {
        match self {
            Implicit::No => 0,
            Implicit::AuthSelf => 1,
            Implicit::AuthAdmin => 2,
            Implicit::AuthSelfKeep => 3,
            Implicit::AuthAdminKeep => 4,
            Implicit::Yes => 5,
        }
    }

    /// The value of a code, and `None` exactly above 5.
    pub fn of_code(n: u32) -> Option<Implicit>
        ensures value { result ≡ implicit_of_code n }
        ensures some { IsSome result ↔ (n < 6) }
        ensures code { IfSome result (λ v. code_of_implicit v ≡ n) }
    {
        match n {
            0 => Some(Implicit::No),
            1 => Some(Implicit::AuthSelf),
            2 => Some(Implicit::AuthAdmin),
            3 => Some(Implicit::AuthSelfKeep),
            4 => Some(Implicit::AuthAdminKeep),
            5 => Some(Implicit::Yes),
            _ => None,
        }
    }
}
