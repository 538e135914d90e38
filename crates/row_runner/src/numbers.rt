// Numbers of sixteen bytes.
use crate::row::Row;

/// The next word, whose last sixteen bytes are a number, the highest first.
pub fn number_128(row: &mut Row) -> u128 {
    let mut number: u128 = 0;
    for b in row.bytes() {
        number = (number << 8) | u128::from(*b);
    }
    number
}
