// The numbers of the temporary authorizations of each subject.
ghost use Rattle.std.specs.Prelude.{◌≡◌, ◌<◌, ◌==◌, ◌++◌, ◌∷◌, [], None, IsSome, not, cond, filter, OnOk};
ghost use Rattle.std.specs.Map.{lookup};
ghost use Rattle.key_index.specs.declared.keys.KeyOf.{KeyOf as TheKey};
ghost use Rattle.key_index.specs.contracts.keys.KeyOfPartialEq.TheImpl as derived;
ghost use Rattle.key_index.specs.Held.{key_held};
ghost use Rattle.grant_store.specs.Listed.{numbers_at, room_at, KeepsNumbers, HasRoomFor};

use crate::numbers::Numbers;
use authority_model::Key;
use indexmap::IndexMap;
use key_index::KeyOf;
use pk_types::NoMemory;
use std::alloc::Global;

/// The numbers of the temporary authorizations of each subject, in their order. Numbers of what ended may
/// stand among them.
pub type KeyNumbers = IndexMap<KeyOf<'static>, Numbers>;

/// The numbers at a subject.
pub fn numbers_of<'a>(lists: &'a KeyNumbers, key: &KeyOf<'a>) -> &'a [u64]
    ensures numbers { result.now ≡ numbers_at lists.now.entries key.now }
{
    match lists.get(key) {
        Some(numbers) => numbers.as_slice(),
        None => &[],
    }
}

/// Takes room for one more number at a subject that has numbers.
fn widen(lists: &mut KeyNumbers, key: &KeyOf<'static>) -> Result<(), NoMemory>
    requires there { IsSome (lookup (derived.ghosts.eq key.now) lists.old.entries) }
    ensures numbers { KeepsNumbers lists.old.entries lists.new.entries }
    ensures ok { OnOk result (HasRoomFor (key_held key.now) lists.new.entries) }
{
    match lists.get_mut(key) {
        Some(numbers) => numbers.reserve(),
        None => unreachable!(),
    }
}

/// Takes room for the first number at a subject.
fn begin(alloc: Global, lists: &mut KeyNumbers, key: KeyOf<'static>) -> Result<(), NoMemory>
    requires absent { lookup (derived.ghosts.eq key) lists.old.entries ≡ None }
    ensures numbers { KeepsNumbers lists.old.entries lists.new.entries }
    ensures ok { OnOk result (HasRoomFor (key_held key.entry) lists.new.entries) }
{
    let mut numbers = Numbers::new(alloc);
    numbers.reserve()?;
    lists.insert(key, numbers)?;
    Ok(())
}

/// Takes room for one more number at a subject. The numbers stay.
///
/// # Errors
/// `NoMemory` alone.
pub fn claim(alloc: Global, lists: &mut KeyNumbers, key: &Key) -> Result<(), NoMemory>
    ensures numbers { KeepsNumbers lists.old.entries lists.new.entries }
    ensures ok { OnOk result (HasRoomFor key.now lists.new.entries) }
{
    let own = KeyOf::try_own(alloc, key)?;
    if lists.contains_key(&own) {
        widen(lists, &own)
    } else {
        begin(alloc, lists, own)
    }
}

/// Puts a number at the end of those of a subject. It takes no memory.
pub fn put(lists: &mut KeyNumbers, key: &KeyOf<'static>, number: u64)
    requires room { 0 < room_at lists.old.entries key.now }
    ensures put { (q : TheKey) → numbers_at lists.new.entries q ≡ cond (derived.ghosts.eq key.now q) (filter (λ n. not (n == number)) (numbers_at lists.old.entries q) ++ number ∷ []) (numbers_at lists.old.entries q) }
{
    match lists.get_mut(key) {
        Some(numbers) => numbers.put(number),
        None => unreachable!(),
    }
}
