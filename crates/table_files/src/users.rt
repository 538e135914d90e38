// The users of a file of passwd(5).
ghost use Rattle.std.specs.Prelude.{◌≡◌, ◌++◌, ◌∷◌, [], false, IfErr, IfOk, map};
ghost use Rattle.table_files.specs.Faults.{IsDueFault, Reads};
ghost use Rattle.table_files.specs.Users.{user_of_row, user_of_fields, user_stands, with_user, users_of};
ghost use Rattle.table_files.specs.Kept.{IsName, user_in};

use crate::fault::TableFault;
use crate::fields::{is_name, label, number_32};
use crate::kept::UserTable;
use crate::limits::MAX_ROWS;
use crate::table::{Table, read_lines};
use authority_model::{GidList, User, UserList};
use indexmap::IndexSet;
use pk_types::{NoMemory, Text, pieces};
use std::alloc::Global;

/// What a row has of a user.
#[derive(Clone, Copy)]
pub struct UserRow<'a> {
    name: &'a [u8],
    uid: u32,
    gid: u32,
}

/// The row of the fields that count.
fn row<'a>(line: usize, name: &'a [u8], uid: &[u8], gid: &[u8]) -> Result<UserRow<'a>, TableFault>
    ensures row { Reads user_in result (user_of_row line name.now uid.now gid.now) }
    ensures name { IfOk result (λ row. IsName row.name.now) }
{
    if !is_name(name) {
        return Err(TableFault::Fields { line });
    }
    let uid = number_32(line, uid)?;
    let gid = number_32(line, gid)?;
    Ok(UserRow { name, uid, gid })
}

/// The row of all its fields.
fn row_of_fields<'a>(line: usize, fields: &[&'a [u8]]) -> Result<UserRow<'a>, TableFault>
    ensures row { Reads user_in result (user_of_fields line (map (λ field. field.now) fields.now)) }
    ensures name { IfOk result (λ row. IsName row.name.now) }
{
    match fields {
        [name, _, uid, gid, _, _, _] => row(line, name, uid, gid),
        _ => Err(TableFault::Fields { line }),
    }
}

/// The user of a row.
fn user(alloc: Global, row: &UserRow<'_>) -> Result<User, NoMemory>
    requires { IsName row.now.name.now }
    ensures user { IfOk result (λ user. user ≡ user_in row.now) }
{
    let name = Text::of_known(alloc, row.name)?;
    let label = label(alloc, b"unix-user:".as_slice(), row.name)?;
    let gids = GidList::try_from_slice(alloc, [row.gid].as_slice())?;
    Ok(User {
        uid: row.uid,
        name,
        label,
        gids,
    })
}

impl<'a> UserTable<'a> {
    /// No users.
    fn new(alloc: Global) -> Self
        ensures empty { result.users ≡ [] }
    {
        UserTable {
            users: UserList::new(alloc),
            uids: IndexSet::new(alloc),
            names: IndexSet::new(alloc),
        }
    }

    /// Whether the uid or the name of a row stands already.
    fn stands(&self, row: &UserRow<'a>) -> bool
        ensures stands { result ≡ user_stands (user_in row.now) self.now.users }
    {
        self.uids.contains(&row.uid) || self.names.contains(&row.name)
    }

    /// A user is added whose uid and name are new.
    fn with_new(self, alloc: Global, row: &UserRow<'a>) -> Result<Self, NoMemory>
        requires name { IsName row.now.name.now }
        requires new { user_stands (user_in row.now) self.users ≡ false }
        ensures users { IfOk result (λ table. table.users ≡ self.entry.users ++ user_in row.now ∷ []) }
    {
        let mut users = self.users;
        let mut uids = self.uids;
        let mut names = self.names;
        users.try_push(user(alloc, row)?)?;
        uids.insert(row.uid)?;
        names.insert(row.name)?;
        Ok(UserTable { users, uids, names })
    }

    /// The user of a row is added, or passed over.
    fn with_row(self, alloc: Global, row: &UserRow<'a>) -> Result<Self, TableFault>
        requires { IsName row.now.name.now }
        ensures users { Reads (λ table. table.users) result (with_user (user_in row.now) self.entry.users) }
    {
        if self.stands(row) {
            return Ok(self);
        }
        if self.users.len() >= MAX_ROWS {
            return Err(TableFault::TooMany { rows: MAX_ROWS + 1 });
        }
        let table = self.with_new(alloc, row)?;
        Ok(table)
    }
}

impl<'a> Table<'a> for UserTable<'a> {
    ghost use Rattle.std.specs.Prelude as prelude;
    ghost use Rattle.authority_model.specs.declared.world.User.{User as UserRecord};
    ghost use Rattle.table_files.specs.Users.{with_user_line};

    ghost Rows = { prelude.List UserRecord };

    ghost rows = { λ table. table.users };

    ghost with_line = { λ _. with_user_line };

    fn add_line(self, alloc: Global, number: usize, line: &'a [u8]) -> Result<Self, TableFault> {
        let fields = pieces(alloc, line, b':')?;
        let row = row_of_fields(number, fields.as_slice())?;
        self.with_row(alloc, &row)
    }
}

/// The users of a file as passwd(5) has it.
///
/// A row has seven fields with a colon between them, of which the name, the uid and the gid count.
/// Empty lines and lines that begin with `#` are passed over, and so is a row whose uid or name
/// stands already. The gids of a user are its own gid.
///
/// # Errors
/// `TooLong` over 16 MiB; else the first fault of the first faulty line: `Fields` where there are
/// not seven or the name is not UTF-8, holds byte 0 or has more than 4,096 bytes, `Number` where
/// the uid or the gid is not a decimal number of 32 bits without sign and leading zeros, `TooMany`
/// at the 65,537th row; `NoMemory`.
pub fn read_passwd(alloc: Global, bytes: &[u8]) -> Result<UserList, TableFault>
    ensures users { IfOk result (λ users. users_of bytes.now ≡ Ok users) }
    ensures fault { IfErr result (λ fault. IsDueFault fault (users_of bytes.now)) }
{
    let table = read_lines(alloc, UserTable::new(alloc), bytes)?;
    Ok(table.users)
}
