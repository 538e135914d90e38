// Pairs of texts.
use crate::row::{Row, Wrong};
use pk_types::{List, Pair, PairList};

/// The most times that pairs are repeated.
const MOST: u64 = 65536;

/// The next words, which are keys and values up to a `]`.
fn pairs(row: &mut Row) -> PairList {
    let mut pairs = List::new(row.alloc);
    for _ in 0..u64::MAX {
        if !row.has_item() {
            break;
        }
        let key = row.text();
        let value = row.text();
        if pairs.try_push(Pair { key, value }).is_err() {
            row.mark(Wrong::NoMemory);
        }
    }
    pairs
}

/// Adds a copy of a pair.
fn add_copy(row: &mut Row, pairs: &mut PairList, pair: &Pair) {
    match pair.try_copy() {
        Ok(copy) => {
            if pairs.try_push(copy).is_err() {
                row.mark(Wrong::NoMemory);
            }
        }
        Err(_) => row.mark(Wrong::NoMemory),
    }
}

/// `TIMES KEY VALUE .. ]`: the pairs, so many times.
pub fn repeated_pairs(row: &mut Row) -> PairList {
    let times = row.number(MOST);
    let pairs = pairs(row);
    let mut all = List::new(row.alloc);
    for _ in 0..times {
        for pair in pairs.as_slice() {
            add_copy(row, &mut all, pair);
        }
    }
    all
}
