// The pairs of `ReturnValue`.
ghost use Rattle.std.specs.Prelude.{◌≡◌, false, None, Some, if◌then◌else◌, IfErr, IfOk, MatchResult};
ghost use Rattle.std.specs.List.{list_any, filter_map};
ghost use Rattle.pkla_files.specs.Faults.{IsDueKind, return_fault};
ghost use Rattle.pkla_files.specs.Returned.{is_other_escape, escapes_other, is_no_pair, pair_of, pairs_of};

use crate::fault::PklaFaultKind;
use keyfile_text::items;
use pk_types::{Pair, PairList, Text, cut};
use std::alloc::Global;

/// Whether a byte after a `\` makes an escape other than `\;`.
fn is_other_escape(b: u8) -> bool
    ensures other { result ≡ is_other_escape b }
{
    matches!(b, b's' | b'n' | b't' | b'r' | b'\\')
}

/// Whether a value has an escape other than `\;`.
fn has_other_escape(value: &[u8]) -> bool
    ensures other { result ≡ escapes_other false value.now }
{
    let mut rest = value;
    let mut behind = false;
    while let Some((b, later)) = rest.split_first() {
        if behind && is_other_escape(*b) {
            return true;
        }
        behind = !behind && *b == b'\\';
        rest = later;
    }
    false
}

/// The pair that an item says.
fn pair(alloc: Global, item: &Text) -> Result<Pair, PklaFaultKind>
    ensures pair { IfOk result (λ pair. pair_of item.now ≡ Some pair) }
    ensures fault { IfErr result (λ fault.
        IsDueKind fault (if is_no_pair item.now then Some PklaFaultKind.ReturnValue else None)) }
{
    let Some((key, value)) = cut(item.bytes(), b'=') else {
        return Err(PklaFaultKind::ReturnValue);
    };
    if key.is_empty() {
        return Err(PklaFaultKind::ReturnValue);
    }
    let key = Text::of_known(alloc, key)?;
    let value = Text::of_known(alloc, value)?;
    Ok(Pair { key, value })
}

/// The pairs that items say.
fn pair_list(alloc: Global, items: &[Text]) -> Result<PairList, PklaFaultKind>
    ensures pairs { IfOk result (λ pairs. pairs ≡ filter_map pair_of items.now) }
    ensures fault { MatchResult result (λ _. list_any is_no_pair items.now ≡ false)
        (λ fault. IsDueKind fault (if list_any is_no_pair items.now then Some PklaFaultKind.ReturnValue else None)) }
{
    let mut pairs = PairList::new(alloc);
    for item in items {
        let pair = pair(alloc, item)?;
        pairs.try_push(pair)?;
    }
    Ok(pairs)
}

/// The pairs of a value of `ReturnValue`.
pub fn returned(alloc: Global, value: &Text) -> Result<PairList, PklaFaultKind>
    ensures pairs { IfOk result (λ pairs. pairs ≡ pairs_of value.now) }
    ensures fault { MatchResult result (λ _. return_fault (Some value.now) ≡ None)
        (λ fault. IsDueKind fault (return_fault (Some value.now))) }
{
    if has_other_escape(value.bytes()) {
        return Err(PklaFaultKind::ReturnValue);
    }
    let items = items(alloc, value)?;
    pair_list(alloc, items.as_slice())
}
