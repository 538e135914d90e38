// The fields of a row.
ghost use Rattle.std.specs.Prelude.{◌≡◌, ◌++◌, IfOk};
ghost use Rattle.pk_types.specs.Text.{IsText};
ghost use Rattle.table_files.specs.Faults.{Reads};
ghost use Rattle.table_files.specs.Fields.{is_name, number_32, number_64};

use crate::fault::TableFault;
use crate::limits::MAX_NAME;
use pk_types::{NoMemory, Text, bad_byte, number, number_up_to};
use std::alloc::Global;

/// Whether a field may be a name or a session id.
pub fn is_name(field: &[u8]) -> bool
    ensures name { result ≡ is_name field.now }
{
    field.len() <= MAX_NAME && bad_byte(field).is_none()
}

/// A number of 32 bits.
pub fn number_32(line: usize, field: &[u8]) -> Result<u32, TableFault>
    ensures number { Reads (λ n. n) result (number_32 line field.now) }
{
    match number(field) {
        Some(number) => Ok(number),
        None => Err(TableFault::Number { line }),
    }
}

/// A number of 64 bits.
pub fn number_64(line: usize, field: &[u8]) -> Result<u64, TableFault>
    ensures number { Reads (λ n. n) result (number_64 line field.now) }
{
    match number_up_to(field, u64::MAX) {
        Some(number) => Ok(number),
        None => Err(TableFault::Number { line }),
    }
}

/// A front and a name behind it.
fn joined(alloc: Global, front: &[u8], name: &[u8]) -> Result<Vec<u8>, NoMemory>
    ensures bytes { IfOk result (λ bytes. bytes.items ≡ front.now ++ name.now) }
{
    let mut bytes = Vec::from_slice(alloc, front)?;
    bytes.extend_from_slice(name)?;
    Ok(bytes)
}

/// The text of a front and a name behind it.
pub fn label(alloc: Global, front: &[u8], name: &[u8]) -> Result<Text, NoMemory>
    requires { IsText (front.now ++ name.now) }
    ensures text { IfOk result (λ text. text ≡ front.now ++ name.now) }
{
    let bytes = joined(alloc, front, name)?;
    Text::of_known(alloc, &bytes)
}
