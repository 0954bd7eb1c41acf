//! What a heading opens.
ghost use Rattle.std.specs.Prelude.{◌≡◌};
ghost use Rattle.std.specs.List.{list_all};
ghost use Rattle.spec_grammar.specs.Tokens as grammar;
ghost use Rattle.spec_workloads.specs.Outline as spec;
ghost use Rattle.ras_workload.specs.Headings.{heading_seen};

use ras_parse::bytes::{begins_with_name, continues_name};
use ras_parse::tables::is_reserved;

/// What a heading opens, if it is one of a workload's.
#[derive(Clone, Copy, Debug, PartialEq, Eq)]
pub enum Heading<'t> {
    Types,
    Setup,
    /// The session of this name.
    Session(&'t [u8]),
    End,
    /// Any other.
    Unknown,
}

/// Whether two texts are the same.
pub fn is_same(a: &[u8], b: &[u8]) -> bool
    ensures { result ≡ grammar.is_same a.now b.now }
{
    a == b
}

/// Whether each byte may go on a name.
fn all_continue(text: &[u8]) -> bool
    ensures { result ≡ list_all grammar.continues_name text.now }
{
    text.iter().all(|byte| continues_name(*byte))
}

/// Whether a text is a name: a letter or `_` and then letters, digits and `_`, and no reserved word.
pub fn is_name(text: &[u8]) -> bool
    ensures { result ≡ spec.is_name text.now }
{
    begins_with_name(text) && all_continue(text) && !is_reserved(text)
}

/// What the bytes behind `#session ` open.
fn session_heading(name: &[u8]) -> Heading<'_>
    ensures { heading_seen result ≡ spec.session_heading name.now }
{
    if is_name(name) {
        Heading::Session(name)
    } else {
        Heading::Unknown
    }
}

/// What a heading without the blanks at its end opens.
pub fn heading_of(text: &[u8]) -> Heading<'_>
    ensures { heading_seen result ≡ spec.heading_of text.now }
{
    if is_same(text, b"#types") {
        Heading::Types
    } else if is_same(text, b"#setup") {
        Heading::Setup
    } else if is_same(text, b"#end") {
        Heading::End
    } else if text.starts_with(b"#session ") {
        session_heading(&text[9..])
    } else {
        Heading::Unknown
    }
}
