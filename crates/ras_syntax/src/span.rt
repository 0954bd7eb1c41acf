use ras_domain::Name;

/// A part of a statement's text, from its first byte to the byte after its last one, counted from
/// the text's start.
#[derive(Clone, Copy, Debug, PartialEq, Eq)]
pub struct Span {
    pub from: u32,
    pub to: u32,
}

/// A name and where it stands.
#[derive(Debug, Drop)]
pub struct Spanned {
    pub name: Name,
    pub span: Span,
}
