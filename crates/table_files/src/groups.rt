// The groups of a file of group(5).
ghost use Rattle.std.specs.Prelude.{◌≡◌, ◌++◌, ◌∷◌, [], false, IfErr, IfOk, OnErr, OnOk, map};
ghost use Rattle.table_files.specs.Faults.{IsDueFault, Reads};
ghost use Rattle.table_files.specs.Groups.{listing_of_row, listing_of_fields, group_stands, with_listing, groups_of, with_members};
ghost use Rattle.table_files.specs.Kept.{listing_in};

use crate::fault::TableFault;
use crate::fields::{is_name, label, number_32};
use crate::kept::{GroupRow, GroupTable};
use crate::limits::MAX_ROWS;
use crate::memberships::joined;
use crate::table::{Table, read_lines};
use authority_model::{Group, GroupList, UserList};
use indexmap::IndexSet;
use pk_types::{NoMemory, Text, pieces};
use std::alloc::Global;

/// The row of the fields that count.
fn row<'a>(
    line: usize,
    name: &'a [u8],
    gid: &[u8],
    members: &'a [u8],
) -> Result<GroupRow<'a>, TableFault>
    ensures row { Reads listing_in result (listing_of_row line name.now gid.now members.now) }
{
    if !is_name(name) {
        return Err(TableFault::Fields { line });
    }
    let gid = number_32(line, gid)?;
    Ok(GroupRow { name, gid, members })
}

/// The row of all its fields.
fn row_of_fields<'a>(line: usize, fields: &[&'a [u8]]) -> Result<GroupRow<'a>, TableFault>
    ensures row { Reads listing_in result (listing_of_fields line (map (λ field. field.now) fields.now)) }
{
    match fields {
        [name, _, gid, members] => row(line, name, gid, members),
        _ => Err(TableFault::Fields { line }),
    }
}

/// The group of a row.
fn group(alloc: Global, row: &GroupRow<'_>) -> Result<Group, NoMemory>
    ensures group { IfOk result (λ group. group ≡ (listing_in row.now).group) }
{
    let name = Text::of_known(alloc, row.name)?;
    let label = label(alloc, b"unix-group:".as_slice(), row.name)?;
    Ok(Group {
        gid: row.gid,
        name,
        label,
    })
}

/// The groups of the rows.
fn groups(alloc: Global, rows: &[GroupRow<'_>]) -> Result<GroupList, NoMemory>
    ensures groups { IfOk result (λ groups. groups ≡ map (λ row. (listing_in row).group) rows.now) }
{
    let mut groups = GroupList::new(alloc);
    for row in rows {
        groups.try_push(group(alloc, row)?)?;
    }
    Ok(groups)
}

impl<'a> GroupTable<'a> {
    /// No rows.
    fn new(alloc: Global) -> Self
        ensures empty { result.rows.items ≡ [] }
    {
        GroupTable {
            rows: Vec::new(alloc),
            gids: IndexSet::new(alloc),
            names: IndexSet::new(alloc),
        }
    }

    /// Whether the gid or the name of a row stands already.
    fn stands(&self, row: &GroupRow<'a>) -> bool
        ensures stands { result ≡ group_stands (listing_in row.now).group (map listing_in self.now.rows.items) }
    {
        self.gids.contains(&row.gid) || self.names.contains(&row.name)
    }

    /// A row is added whose gid and name are new.
    fn with_new(self, row: &GroupRow<'a>) -> Result<Self, NoMemory>
        requires { group_stands (listing_in row.now).group (map listing_in self.rows.items) ≡ false }
        ensures rows { IfOk result (λ table. map listing_in table.rows.items ≡ map listing_in self.entry.rows.items ++ listing_in row.now ∷ []) }
    {
        let mut rows = self.rows;
        let mut gids = self.gids;
        let mut names = self.names;
        rows.push(*row)?;
        gids.insert(row.gid)?;
        names.insert(row.name)?;
        Ok(GroupTable { rows, gids, names })
    }

    /// A row is added, or passed over.
    fn with_row(self, row: &GroupRow<'a>) -> Result<Self, TableFault>
        ensures rows { Reads (λ table. map listing_in table.rows.items) result
            (with_listing (listing_in row.now) (map listing_in self.entry.rows.items)) }
    {
        if self.stands(row) {
            return Ok(self);
        }
        if self.rows.len() >= MAX_ROWS {
            return Err(TableFault::TooMany { rows: MAX_ROWS + 1 });
        }
        let table = self.with_new(row)?;
        Ok(table)
    }
}

impl<'a> Table<'a> for GroupTable<'a> {
    ghost use Rattle.std.specs.Prelude as prelude;
    ghost use Rattle.table_files.specs.Groups.{Listing, with_group_line};

    ghost Rows = { prelude.List Listing };

    ghost rows = { λ table. prelude.map listing_in table.rows.items };

    ghost with_line = { λ _. with_group_line };

    fn add_line(self, alloc: Global, number: usize, line: &'a [u8]) -> Result<Self, TableFault> {
        let fields = pieces(alloc, line, b':')?;
        let row = row_of_fields(number, fields.as_slice())?;
        self.with_row(&row)
    }
}

/// The groups of a file as group(5) has it. The users get its memberships.
///
/// A row has four fields with a colon between them: the name, one that does not count, the gid,
/// and the names of the members with commas between them, of which an empty field has none. Empty
/// lines and lines that begin with `#` are passed over, and so is a row whose gid or name stands
/// already; its members do not count. The gids of a user are its own gids, and then those of the
/// rows that name it, in their order, each once. A member that names no user is passed over.
///
/// A refusal leaves the users as they were.
///
/// # Errors
/// `TooLong` over 16 MiB; else the first fault of the first faulty line: `Fields` where there are
/// not four or the name is not UTF-8, holds byte 0 or has more than 4,096 bytes, `Number` where
/// the gid is not a decimal number of 32 bits without sign and leading zeros, `TooMany` at the
/// 65,537th row; `NoMemory`.
pub fn read_group(
    alloc: Global,
    bytes: &[u8],
    users: &mut UserList,
) -> Result<GroupList, TableFault>
    ensures groups { IfOk result (λ groups. groups_of bytes.now ≡ Ok groups) }
    ensures fault { IfErr result (λ fault. IsDueFault fault (groups_of bytes.now)) }
    ensures members { OnOk result (users.new ≡ with_members bytes.now users.old) }
    ensures err { OnErr result (users.new ≡ users.old) }
{
    let table = read_lines(alloc, GroupTable::new(alloc), bytes)?;
    let groups = groups(alloc, &table.rows)?;
    let members = joined(alloc, &table.rows, users.as_slice())?;
    *users = members;
    Ok(groups)
}
