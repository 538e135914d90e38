// The numbers of the live connections, by rising number.
ghost use Rattle.std.specs.Prelude.{◌≡◌, ◌==◌, not, filter, OnOk, OnErr};
ghost use Rattle.std.specs.List.Sorted.{IsStrictlySortedBy};
ghost use Rattle.std.specs.Ordering.{nat_cmp};
ghost use Rattle.authority_model.specs.Peers.{insert_rising};

use pk_types::NoMemory;

/// Puts the number of a connection in its place among the live ones, where it does not stand already.
///
/// # Errors
/// `NoMemory`: the numbers are as they were.
pub fn now_live(live: &mut Vec<u32>, number: u32) -> Result<(), NoMemory>
    requires rising { IsStrictlySortedBy nat_cmp live.old.items }
    ensures ok { OnOk result (live.new.items ≡ insert_rising number live.old.items) }
    ensures err { OnErr result (live.new.items ≡ live.old.items) }
{
    if let Err(place) = live.binary_search(&number) {
        live.insert(place, number)?;
    }
    Ok(())
}

/// Takes the number of a connection out of the live ones. It takes no memory.
pub fn no_longer_live(live: &mut Vec<u32>, number: u32)
    ensures items { live.new.items ≡ filter (λ n. not (n == number)) live.old.items }
{
    live.retain(|other| *other != number);
}
