// The memberships that the rows of groups add to users.
ghost use Rattle.std.specs.Prelude.{◌≡◌, ◌==◌, ◌++◌, ◌∷◌, [], ℕ, List, nat_eq, true, bytes_eq, fold, map, IfOk};
ghost use Rattle.authority_model.specs.Lists.{any_of};
ghost use Rattle.indexmap.specs.IndexSet.{contains};
ghost use Rattle.table_files.specs.Groups.{members_of, with_gid, member_of};
ghost use Rattle.table_files.specs.Sets.{has_name};
ghost use Rattle.table_files.specs.Kept.{listing_in, kept_gids, gid_of_each, gids_of_each};

use crate::kept::{GroupRow, Memberships};
use crate::names::names_of;
use authority_model::{GidList, User, UserList};
use indexmap::IndexSet;
use pk_types::{NoMemory, TryCopy, pieces};
use std::alloc::Global;

/// The members that a field names.
fn members<'a>(alloc: Global, field: &'a [u8]) -> Result<Vec<&'a [u8]>, NoMemory>
    ensures members { IfOk result (λ members. map (λ member. member.now) members.items ≡ members_of field.now) }
{
    if field.is_empty() {
        return Ok(Vec::new(alloc));
    }
    pieces(alloc, field, b',')
}

impl<'a> Memberships<'a> {
    /// No memberships of users with these names.
    fn new(alloc: Global, names: IndexSet<&'a [u8]>) -> Result<Self, NoMemory>
        ensures names { IfOk result (λ all. all.names ≡ names.entry) }
        ensures none { IfOk result (λ all. (name : List ℕ) → kept_gids all name ≡ []) }
    {
        let gids = names.iter().map(|_| GidList::new(alloc)).collect(alloc)?;
        Ok(Memberships { names, gids })
    }

    /// The memberships with one more, where the member is a user.
    fn with_member(self, member: &'a [u8], gid: u32) -> Result<Self, NoMemory>
        ensures names { IfOk result (λ all. all.names ≡ self.entry.names) }
        ensures kept { IfOk result (λ all. (name : List ℕ) → has_name self.entry.names name ≡ true
            → kept_gids all name ≡ kept_gids self.entry name ++ gid_of_each name gid (member.now ∷ [])) }
    {
        let Some(place) = self.names.get_index_of(&member) else {
            return Ok(self);
        };
        let names = self.names;
        let mut gids = self.gids;
        gids[place].try_push(gid)?;
        Ok(Memberships { names, gids })
    }

    /// The memberships with those of one more row.
    fn with_row(self, alloc: Global, row: &GroupRow<'a>) -> Result<Self, NoMemory>
        ensures names { IfOk result (λ all. all.names ≡ self.entry.names) }
        ensures kept { IfOk result (λ all. (name : List ℕ) → has_name self.entry.names name ≡ true
            → kept_gids all name ≡ kept_gids self.entry name ++ gid_of_each name row.now.gid (members_of row.now.members.now)) }
    {
        let members = members(alloc, row.members)?;
        let mut all = self;
        for member in &members {
            all = all.with_member(member, row.gid)?;
        }
        Ok(all)
    }

    /// The gids of the rows that name a user.
    fn of(&self, name: &'a [u8]) -> &[u32]
        ensures gids { result.now ≡ kept_gids self.now name.now }
    {
        match self.names.get_index_of(&name) {
            Some(place) => self.gids[place].as_slice(),
            None => &[],
        }
    }
}

/// The memberships of the rows, for the names of these users.
fn memberships<'a>(
    alloc: Global,
    rows: &[GroupRow<'a>],
    users: &'a [User],
) -> Result<Memberships<'a>, NoMemory>
    ensures kept { IfOk result (λ all. (name : List ℕ) → any_of (λ user. bytes_eq name user.name) users.now ≡ true
        → kept_gids all name ≡ gids_of_each name (map listing_in rows.now)) }
{
    let mut all = Memberships::new(alloc, names_of(alloc, users)?)?;
    for row in rows {
        all = all.with_row(alloc, row)?;
    }
    Ok(all)
}

/// The set of these gids.
fn set_of(alloc: Global, gids: &[u32]) -> Result<IndexSet<u32>, NoMemory>
    ensures gids { IfOk result (λ set. (gid : ℕ) → contains nat_eq set gid ≡ any_of (λ g. gid == g) gids.now) }
{
    let mut set = IndexSet::new(alloc);
    for gid in gids {
        set.insert(*gid)?;
    }
    Ok(set)
}

/// The gids with more of them, each unless it is among them yet.
fn with_gids(alloc: Global, own: &[u32], more: &[u32]) -> Result<GidList, NoMemory>
    ensures gids { IfOk result (λ gids. gids ≡ fold with_gid own.now more.now) }
{
    let mut set = set_of(alloc, own)?;
    let mut gids = GidList::try_from_slice(alloc, own)?;
    for gid in more {
        if set.insert(*gid)? {
            gids.try_push(*gid)?;
        }
    }
    Ok(gids)
}

/// A copy of the user, with more gids.
fn with_more(alloc: Global, user: &User, more: &[u32]) -> Result<User, NoMemory>
    ensures user { IfOk result (λ copy. copy ≡ record user.now { gids = fold with_gid user.now.gids more.now }) }
{
    Ok(User {
        uid: user.uid,
        name: user.name.try_copy()?,
        label: user.label.try_copy()?,
        gids: with_gids(alloc, user.gids.as_slice(), more)?,
    })
}

/// The users in the groups of the rows that name them.
pub fn joined(alloc: Global, rows: &[GroupRow<'_>], users: &[User]) -> Result<UserList, NoMemory>
    ensures users { IfOk result (λ joined. joined ≡ map (member_of (map listing_in rows.now)) users.now) }
{
    let memberships = memberships(alloc, rows, users)?;
    let mut joined = UserList::new(alloc);
    for user in users {
        let gids = memberships.of(user.name.bytes());
        joined.try_push(with_more(alloc, user, gids)?)?;
    }
    Ok(joined)
}
