// Steps of a loop over the bytes that are left.

/// What a step of a loop gives: the bytes that are left, and whether the loop goes on with them.
#[derive(Clone, Copy)]
pub enum Walk<'a> {
    /// The loop goes on from here.
    On(&'a [u8]),
    /// The loop is done, and this is what follows.
    Done(&'a [u8]),
}
