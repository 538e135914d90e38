// How many outputs went to each connection.
ghost use Rattle.std.specs.Prelude.{◌≡◌, ◌==◌, ◌+◌, ℕ, if◌then◌else◌, find, OnOk};
ghost use Rattle.std.specs.Option.{option_copied};
ghost use Rattle.authority_model.specs.Items.{count_to};
ghost use Rattle.plain_view.specs.Plain.{count_among};

use authority_model::Output;
use pk_types::NoMemory;
use plain_view::SentRow;

/// The row of what went to a connection.
fn row_of(rows: &[SentRow], caller: u32) -> Option<&SentRow>
    ensures first { option_copied result ≡ find (λ r. r.caller == caller) rows.now }
{
    rows.iter().find(|row| row.caller == caller)
}

/// How many outputs went to a connection; none to one without a row.
fn count_of(rows: &[SentRow], caller: u32) -> u32
    ensures count { result ≡ count_among rows.now caller }
{
    match row_of(rows, caller) {
        Some(row) => row.count,
        None => 0,
    }
}

/// Puts down how many outputs went to a connection.
fn put_count(rows: &mut Vec<SentRow>, caller: u32, count: u32) -> Result<(), NoMemory>
    ensures put { OnOk result ((c : ℕ) → count_among rows.new.items c ≡ (if caller == c then count else count_among rows.old.items c)) }
{
    rows.retain(|row| row.caller != caller);
    rows.push(SentRow { caller, count })?;
    Ok(())
}

/// Counts one output more to a connection.
fn count_one(rows: &mut Vec<SentRow>, caller: u32) -> Result<(), NoMemory>
    ensures counted { OnOk result ((c : ℕ) → count_among rows.new.items c ≡ count_among rows.old.items c + (if caller == c then 1 else 0)) }
{
    match count_of(rows.as_slice(), caller).checked_add(1) {
        Some(count) => put_count(rows, caller, count),
        None => Err(NoMemory),
    }
}

/// Counts these outputs.
pub fn carry_sent(rows: &mut Vec<SentRow>, outputs: &[Output]) -> Result<(), NoMemory>
    ensures counted { OnOk result ((c : ℕ) → count_among rows.new.items c ≡ count_among rows.old.items c + count_to c outputs.now) }
{
    for output in outputs {
        count_one(rows, output.to)?;
    }
    Ok(())
}
