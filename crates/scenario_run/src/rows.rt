// The lists of the draft, in which a line takes the place of the row with its key.
ghost use Rattle.std.specs.Prelude.{◌≡◌, ◌<◌, Bool, Ok, OnOk, OnErr, IfErr, IfSome, length};
ghost use Rattle.scenario_text.specs.Faults.{IsFaultOf};
ghost use Rattle.scenario_run.specs.Rows.{place_of, put_in, put_last, without_at, same_action, same_pair, same_user, same_group, same_session, same_process};

use authority_model::{Action, Group, Process, Session, User};
use pk_types::{List, NoMemory, Pair};
use scenario_text::LineKind;

/// How many rows a list of the draft may have.
pub const MAX_ROWS: usize = 1_048_576;

/// A row of the draft, of which there is one for each key.
pub trait Keyed: Drop {
    /// Whether two rows have one key.
    ghost same: { Self → Self → Bool };

    fn has_key_of(&self, other: &Self) -> bool
        ensures same { result ≡ same self.now other.now };
}

impl Keyed for Action {
    ghost same = { same_action };

    fn has_key_of(&self, other: &Action) -> bool {
        self.id.bytes() == other.id.bytes()
    }
}

impl Keyed for Pair {
    ghost same = { same_pair };

    fn has_key_of(&self, other: &Pair) -> bool {
        self.key.bytes() == other.key.bytes()
    }
}

impl Keyed for User {
    ghost same = { same_user };

    fn has_key_of(&self, other: &User) -> bool {
        self.uid == other.uid
    }
}

impl Keyed for Group {
    ghost same = { same_group };

    fn has_key_of(&self, other: &Group) -> bool {
        self.gid == other.gid
    }
}

impl Keyed for Session {
    ghost same = { same_session };

    fn has_key_of(&self, other: &Session) -> bool {
        self.id.bytes() == other.id.bytes()
    }
}

impl Keyed for Process {
    ghost same = { same_process };

    fn has_key_of(&self, other: &Process) -> bool {
        self.pid == other.pid
    }
}

/// The place of the first row with the key.
fn place<T: Keyed>(rows: &[T], row: &T) -> Option<usize>
    ensures first { result ≡ place_of T.same rows.now row.now }
{
    rows.iter().position(|x| x.has_key_of(row))
}

/// Puts a row in the place of the one with its key, or last.
///
/// # Errors
/// `Value` exactly where the row's key is new and the list has its greatest number of rows;
/// `NoMemory`. The rows then stay as they are.
pub fn put<T: Keyed>(rows: &mut List<T>, row: T) -> Result<(), LineKind>
    ensures ok { OnOk result (put_in T.same rows.old row ≡ Ok rows.new) }
    ensures err { IfErr result (λ kind. IsFaultOf kind (put_in T.same rows.old row)) }
    ensures same { OnErr result (rows.new ≡ rows.old) }
{
    if let Some(at) = place(rows.as_slice(), &row) {
        rows.set(at, row);
        return Ok(());
    }
    put_last(rows, row)
}

/// Puts a row last.
///
/// # Errors
/// `Value` exactly where the list has its greatest number of rows; `NoMemory`. The rows then stay as
/// they are.
pub fn put_last<T: Drop>(rows: &mut List<T>, row: T) -> Result<(), LineKind>
    ensures ok { OnOk result (put_last rows.old row ≡ Ok rows.new) }
    ensures err { IfErr result (λ kind. IsFaultOf kind (put_last rows.old row)) }
    ensures same { OnErr result (rows.new ≡ rows.old) }
{
    if rows.len() >= MAX_ROWS {
        return Err(LineKind::Value);
    }
    match rows.try_push(row) {
        Ok(()) => Ok(()),
        Err(NoMemory) => Err(LineKind::NoMemory),
    }
}

/// Takes the row at a place out, where there is one.
pub fn take_out<T: Drop>(rows: &mut List<T>, place: Option<usize>)
    requires { IfSome place (λ at. at < length rows.old) }
    ensures rows { rows.new ≡ without_at rows.old place }
{
    if let Some(at) = place {
        rows.remove(at);
    }
}
