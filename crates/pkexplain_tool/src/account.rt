// What was explained.
ghost use Rattle.std.specs.Prelude.{◌≡◌, None, IfOk, replicate};

use crate::case::Case;
use pk_types::{List, NoMemory};
use std::alloc::Global;

/// For each rule by its place the first case that it decides, if there is one.
pub type Firsts = List<Option<Case>>;

/// What was explained so far.
#[derive(Drop)]
pub struct Account {
    /// Lines that were not written yet.
    pub text: Vec<u8>,
    pub firsts: Firsts,
}

/// For each of so many rules no case.
pub fn no_firsts(alloc: Global, rules: usize) -> Result<Firsts, NoMemory>
    ensures none { IfOk result (λ firsts. firsts ≡ replicate rules None) }
{
    let mut firsts = List::new(alloc);
    for _ in 0..rules {
        firsts.try_push(None)?;
    }
    Ok(firsts)
}
