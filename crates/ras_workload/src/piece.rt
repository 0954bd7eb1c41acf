ghost use Rattle.std.specs.Prelude.{◌<◌, ◌^◌, length};

/// A statement or a type line: the line of its first byte, and its text without the blanks and
/// comments before it.
#[derive(Clone, Copy)]
pub struct Piece<'t> {
    pub line: u64,
    pub text: &'t [u8],
    ghost short: { length text.now < 2 ^ 32 },
}
