/// The numbers of one component of some cells, lent in the width that they are kept in. A run in
/// which all numbers are equal is kept as one of them, and doesn't say how many cells it has.
#[derive(Clone, Copy, Debug)]
pub enum Run<'a> {
    /// This number at each cell.
    Uniform(i64),
    /// Numbers from 0 to 255, a byte each: truth values and chars.
    U8(&'a [u8]),
    /// Numbers from -128 to 127, a byte each: octets.
    I8(&'a [i8]),
    /// Numbers from 0 to 65535, two bytes each: ushorts.
    U16(&'a [u16]),
    /// Numbers from -32768 to 32767, two bytes each: shorts.
    I16(&'a [i16]),
    /// Numbers from 0 to 2^32 - 1, four bytes each: ulongs.
    U32(&'a [u32]),
    /// Numbers from -2^31 to 2^31 - 1, four bytes each: longs.
    I32(&'a [i32]),
    /// Numbers of 64 bits, eight bytes each.
    Plain(&'a [i64]),
}
