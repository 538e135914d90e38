// The groups so far, in maps that keep the order in which names and keys first came.
ghost use Rattle.std.specs.Prelude.{◌≡◌, ℕ, IfOk, OnOk, is_some};
ghost use Rattle.keyfile_text.specs.KeyFiles.{no_groups, add_line, set_open};
ghost use Rattle.keyfile_text.specs.Merging.{open_group, set_key};
ghost use Rattle.keyfile_text.specs.Maps.{grouped, groups_in, put_group, pairs_in, line_in, SaysTexts, PairsAreTexts, GroupsAreTexts};

use crate::groups::{Groups, KeyGroup};
use crate::line::Said;
use indexmap::IndexMap;
use pk_types::{NoMemory, Pair, PairList, Text};
use std::alloc::Global;

/// Keys with their values.
pub type PairMap<'a> = IndexMap<&'a [u8], &'a [u8]>;

/// Names of groups with their pairs.
pub type GroupMap<'a> = IndexMap<&'a [u8], PairMap<'a>>;

/// The group that lines now set keys in. Its pairs are kept apart from the other groups'.
#[derive(Drop)]
pub struct OpenGroup<'a> {
    name: &'a [u8],
    pairs: PairMap<'a>,
}

/// The groups so far.
#[derive(Drop)]
pub struct Grouping<'a> {
    groups: GroupMap<'a>,
    current: Option<OpenGroup<'a>>,
}

/// Gives the group of that name these pairs, at its place or as the last one.
fn put_group_in<'a>(
    groups: &mut GroupMap<'a>,
    name: &'a [u8],
    pairs: PairMap<'a>,
) -> Result<(), NoMemory>
    ensures put { OnOk result
        (groups_in groups.new ≡ put_group name.now (pairs_in pairs.entry) (groups_in groups.old)) }
{
    groups.insert(name, pairs)?;
    Ok(())
}

/// Gives the key the value, at its place or as the last one.
fn set_key_in<'a>(pairs: &mut PairMap<'a>, key: &'a [u8], value: &'a [u8]) -> Result<(), NoMemory>
    ensures set { OnOk result
        (pairs_in pairs.new ≡ set_key key.now value.now (pairs_in pairs.old)) }
{
    pairs.insert(key, value)?;
    Ok(())
}

/// Takes the pairs of the group of that name out, or makes a new group.
fn take_group<'a>(
    alloc: Global,
    groups: &mut GroupMap<'a>,
    name: &'a [u8],
) -> Result<PairMap<'a>, NoMemory>
    ensures taken { IfOk result (λ pairs.
        put_group name.now (pairs_in pairs) (groups_in groups.new) ≡ open_group name.now (groups_in groups.old)) }
{
    match groups.insert(name, IndexMap::new(alloc))? {
        Some(pairs) => Ok(pairs),
        None => Ok(IndexMap::new(alloc)),
    }
}

impl<'a> OpenGroup<'a> {
    /// A key is set in the group.
    fn with_key(self, key: &'a [u8], value: &'a [u8]) -> Result<Self, NoMemory>
        ensures name { IfOk result (λ group. group.name.now ≡ self.entry.name.now) }
        ensures pairs { IfOk result (λ group.
            pairs_in group.pairs ≡ set_key key.now value.now (pairs_in self.entry.pairs)) }
    {
        let name = self.name;
        let mut pairs = self.pairs;
        set_key_in(&mut pairs, key, value)?;
        Ok(OpenGroup { name, pairs })
    }
}

impl<'a> Grouping<'a> {
    /// No group yet.
    pub fn new(alloc: Global) -> Self
        ensures none { grouped result ≡ no_groups }
    {
        Grouping {
            groups: IndexMap::new(alloc),
            current: None,
        }
    }

    /// Whether a group has begun.
    pub fn is_open(&self) -> bool
        ensures open { result ≡ is_some (grouped self.now).current }
    {
        self.current.is_some()
    }

    /// All groups, the open one among them.
    pub fn closed(self) -> Result<GroupMap<'a>, NoMemory>
        ensures groups { IfOk result (λ groups. groups_in groups ≡ (grouped self.entry).groups) }
    {
        let mut groups = self.groups;
        match self.current {
            None => Ok(groups),
            Some(last) => {
                put_group_in(&mut groups, last.name, last.pairs)?;
                Ok(groups)
            }
        }
    }

    /// A group of that name is opened, the one that stands or a new one.
    fn opened(self, alloc: Global, name: &'a [u8]) -> Result<Self, NoMemory>
        ensures opened { IfOk result (λ g. grouped g
            ≡ record { current = Some name.now; groups = open_group name.now (grouped self.entry).groups }) }
    {
        let mut groups = self.closed()?;
        let pairs = take_group(alloc, &mut groups, name)?;
        Ok(Grouping {
            groups,
            current: Some(OpenGroup { name, pairs }),
        })
    }

    /// A key is set in the open group.
    fn with_key(self, key: &'a [u8], value: &'a [u8]) -> Result<Self, NoMemory>
        ensures set { IfOk result (λ g. grouped g
            ≡ record {
              current = (grouped self.entry).current;
              groups = set_open (grouped self.entry).current key.now value.now (grouped self.entry).groups;
            }) }
    {
        let groups = self.groups;
        match self.current {
            None => Ok(Grouping {
                groups,
                current: None,
            }),
            Some(last) => {
                let last = last.with_key(key, value)?;
                Ok(Grouping {
                    groups,
                    current: Some(last),
                })
            }
        }
    }

    /// What a line adds.
    pub fn with_line(self, alloc: Global, said: Said<'a>) -> Result<Self, NoMemory>
        ensures adds { IfOk result (λ g. (at : ℕ) →
            add_line at (line_in (Ok said.entry)) (grouped self.entry) ≡ Ok (grouped g)) }
        ensures texts { IfOk result (λ g. SaysTexts said.entry →
            GroupsAreTexts (grouped self.entry).groups → GroupsAreTexts (grouped g).groups) }
    {
        match said {
            Said::Blank => Ok(self),
            Said::Header(name) => self.opened(alloc, name),
            Said::Setting { key, value } => self.with_key(key, value),
        }
    }
}

fn pair_list(alloc: Global, pairs: &PairMap<'_>) -> Result<PairList, NoMemory>
    requires { PairsAreTexts (pairs_in pairs.now) }
    ensures pairs { IfOk result (λ list. list ≡ pairs_in pairs.now) }
{
    let mut list = PairList::new(alloc);
    while let Some((key, value)) = pairs.get_index(list.len()) {
        let key = Text::of_known(alloc, key)?;
        let value = Text::of_known(alloc, value)?;
        list.try_push(Pair { key, value })?;
    }
    Ok(list)
}

/// The groups that the maps stand for.
pub fn group_list(alloc: Global, groups: &GroupMap<'_>) -> Result<Groups, NoMemory>
    requires { GroupsAreTexts (groups_in groups.now) }
    ensures groups { IfOk result (λ list. list ≡ groups_in groups.now) }
{
    let mut list = Groups::new(alloc);
    while let Some((name, pairs)) = groups.get_index(list.len()) {
        let name = Text::of_known(alloc, name)?;
        let pairs = pair_list(alloc, pairs)?;
        list.try_push(KeyGroup { name, pairs })?;
    }
    Ok(list)
}
