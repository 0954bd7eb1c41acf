ghost use Rattle.std.specs.Prelude.{◌<◌, ◌≤◌, ◌^◌, length};

/// A heading, and the bytes behind it up to the next one.
#[derive(Clone, Copy)]
pub struct Section<'t> {
    /// The heading's line.
    pub line: u64,
    /// The heading without the blanks at its end.
    pub heading: &'t [u8],
    /// Where the line behind the heading begins.
    pub behind: usize,
    pub body: &'t [u8],
    ghost few: { line ≤ 2 ^ 32 },
    ghost short: { length body.now < 2 ^ 32 },
}
