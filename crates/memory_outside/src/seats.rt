// A list that grows without taking memory, since each item brings the seat that it is kept in.
ghost use Rattle.std.specs.Prelude.{◌≡◌, ◌≤◌, [], ◌∷◌, ◌++◌, Some, length, slice_get, IfOk, IfErr};
ghost use Rattle.std.specs.Option.{option_copied};
ghost use Rattle.memory_outside.specs.Returned.{chain_items};

use pk_types::NoMemory;
use std::alloc::Global;
use std::marker::Model;

/// A place of the chain, with the places before it. It holds an item once one came back.
#[derive(Drop)]
struct Node<T> {
    item: Option<T>,
    before: Option<Box<Node<T>>>,
}

/// The memory in which one item will be kept.
#[derive(Drop)]
pub(crate) struct Seat<T> {
    node: Box<Node<T>>,
}

impl<T: Drop> Seat<T> {
    /// Takes the memory.
    pub(crate) fn new(alloc: Global) -> Result<Self, NoMemory> {
        let node = Box::new(
            alloc,
            Node {
                item: None,
                before: None,
            },
        )?;
        Ok(Seat { node })
    }
}

/// What came back, in order. It takes no memory as it grows: each item comes with its seat, so that
/// there is always room for one more. Contracts see it as the list of its items.
pub struct Returned<T> {
    last: Option<Box<Node<T>>>,
}

// A loop, so that a long chain does not run out of stack.
impl<T: Drop> Drop for Returned<T> {
    fn drop(self) {
        let Returned { mut last } = self;
        while let Some(node) = last {
            let Node { item, before } = Box::into_inner(node);
            drop(item);
            last = before;
        }
    }
}

impl<T> Model for Returned<T> {
    ghost use Rattle.std.specs.Prelude as prelude;
    ghost use Rattle.memory_outside.specs.Returned.{chain_items};

    ghost Value = { prelude.List T };

    ghost view = { λ r. chain_items r.last };
}

impl<T: Drop> Returned<T> {
    /// Nothing came back.
    pub fn new() -> Self
        ensures empty { result ≡ [] }
    {
        Returned { last: None }
    }

    /// Keeps an item behind the others, in its seat.
    pub(crate) fn keep(&mut self, seat: Seat<T>, item: T)
        ensures items { self.new ≡ self.old ++ item ∷ [] }
    {
        let mut node = seat.node;
        node.item = Some(item);
        node.before = self.last.take();
        self.last = Some(node);
    }

    /// The item at a place counted from 0, and `None` exactly past the end.
    pub fn get(&self, place: usize) -> Option<&T>
        ensures item { option_copied result ≡ slice_get self.now place }
    {
        item_at(&self.last, place).ok()
    }
}

/// The item at a place of the chain, or its number of items where it has none at the place.
fn item_at<T>(last: &Option<Box<Node<T>>>, place: usize) -> Result<&T, usize>
    ensures item { IfOk result (λ item. slice_get (chain_items last.now) place ≡ Some item.now) }
    ensures fewer { IfErr result (λ count. (length (chain_items last.now) ≡ count) × (count ≤ place)) }
{
    let Some(node) = last else {
        return Err(0);
    };
    let count = match item_at(&node.before, place) {
        Ok(item) => return Ok(item),
        Err(count) => count,
    };
    match &node.item {
        None => Err(count),
        Some(item) if count == place => Ok(item),
        Some(_) => Err(count + 1),
    }
}
