// Lists that grow and shrink, and room that is taken first.
use pk_types::{List, NoMemory, Reserved};
use std::alloc::Global;
use std::test::Fail;

/// Whether a new list has no item.
fn new_list_is_empty(alloc: Global) -> bool {
    let list: List<u32> = List::new(alloc);
    list.is_empty() && list.get(0).is_none()
}

/// The list of 7, 8 and 9.
fn numbers(alloc: Global) -> Result<List<u32>, NoMemory> {
    let mut list = List::new(alloc);
    list.try_push(7)?;
    list.push_or_return(8).map_err(|_| NoMemory)?;
    list.try_push(9)?;
    Ok(list)
}

/// Puts 5 in the second place, and answers whether it stands there among three items.
fn sets_second(list: &mut List<u32>) -> bool {
    if 1 < list.len() {
        list.set(1, 5);
    }
    list.get(1) == Some(&5) && list.len() == 3
}

/// Takes the first item out.
fn removed(list: &mut List<u32>) -> Option<u32> {
    if 0 < list.len() {
        Some(list.remove(0))
    } else {
        None
    }
}

/// Takes the last item out, and once more after a cut to no item.
fn popped(list: &mut List<u32>) -> [Option<u32>; 2] {
    let last = list.pop();
    list.truncate(0);
    [last, list.pop()]
}

/// Whether a copy of the list with two more items has the same.
fn is_copied(list: &mut List<u32>) -> Result<bool, NoMemory> {
    list.try_push(4)?;
    list.try_push(6)?;
    let copy = list.try_copy()?;
    Ok(copy.as_slice() == list.as_slice())
}

/// What the list of three numbers tells as it grows and shrinks.
#[derive(Clone, Copy, Debug, PartialEq, Eq)]
struct ListTold {
    has_numbers: bool,
    is_set: bool,
    removed: Option<u32>,
    popped: [Option<u32>; 2],
    is_copied: bool,
}

/// What that list tells.
fn list_told(alloc: Global) -> Result<ListTold, NoMemory> {
    let mut list = numbers(alloc)?;
    let has_numbers = list.as_slice() == [7, 8, 9].as_slice();
    let is_set = sets_second(&mut list);
    let removed = removed(&mut list);
    let popped = popped(&mut list);
    let is_copied = is_copied(&mut list)?;
    Ok(ListTold {
        has_numbers,
        is_set,
        removed,
        popped,
        is_copied,
    })
}

/// Whether a list of bytes has them still when it was a vector in between.
fn vector_keeps_bytes(alloc: Global) -> Result<bool, NoMemory> {
    let bytes = List::try_from_slice(alloc, b"abc")?;
    let again = List::from_vec(bytes.into_vec());
    Ok(again.as_slice() == b"abc".as_slice())
}

#[test]
fn lists_grow_and_shrink(rt: HostRuntime) -> Result<(), Fail> {
    assert!(rt; new_list_is_empty(rt.alloc()));
    let want = ListTold {
        has_numbers: true,
        is_set: true,
        removed: Some(7),
        popped: [Some(9), None],
        is_copied: true,
    };
    assert_eq!(rt; list_told(rt.alloc())?, want);
    assert!(rt; vector_keeps_bytes(rt.alloc())?);
    Ok(())
}

/// Whether these are 1 and 2.
fn are_two(items: &[u32]) -> bool {
    items == [1, 2].as_slice()
}

/// Whether a list for which room is taken first is empty, has the room, has the two items that were
/// pushed, and has them still as a plain list.
fn reserved_told(alloc: Global) -> Result<[bool; 4], NoMemory> {
    let mut list: Reserved<u32> = Reserved::new(alloc);
    let is_empty = list.is_empty();
    list.try_reserve(2)?;
    let has_room = list.room() >= 2;
    list.push_reserved(1);
    list.push_reserved(2);
    let has_two = list.len() == 2 && are_two(list.as_slice());
    let plain = list.into_list();
    Ok([is_empty, has_room, has_two, are_two(plain.as_slice())])
}

#[test]
fn room_is_taken_first(rt: HostRuntime) -> Result<(), Fail> {
    assert_eq!(rt; reserved_told(rt.alloc())?, [true; 4]);
    let refused: NoMemory = NoMemory;
    assert!(rt; refused == NoMemory);
    Ok(())
}
