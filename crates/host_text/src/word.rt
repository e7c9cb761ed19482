use host_block::Bytes;

/// A word of a line, as it is printed.
#[derive(Clone, Copy)]
pub enum Word<'a> {
    Text(&'a [u8]),
    /// In decimal digits.
    Number(u64),
    /// The same, where the sum of many numbers has to fit.
    Total(u128),
    /// In decimal digits, with a sign where it is negative.
    Signed(i32),
    /// As two hexadecimal digits.
    Byte(u8),
    /// Each byte as two hexadecimal digits.
    Hex(&'a [u8]),
    /// The bytes of a block: `all` and one byte where they are equal, else each.
    Block(&'a [u8]),
    /// The same of the bytes that a step or an entry has.
    Stored(&'a Bytes),
}
