//! Lines of a text, and what stands on them.
ghost use Rattle.std.specs.Prelude.{◌≡◌, ◌<◌, ◌≤◌, ◌∷◌, drop, length, slice_range, not, false};
ghost use Rattle.std.specs.List.{prefix_len};
ghost use Rattle.spec_grammar.specs.Tokens.{is_line_feed};
ghost use Rattle.spec_workloads.specs.Sections as spec;
ghost use Rattle.ras_workload.specs.Lines.{line_length, part_length};

use ras_parse::bytes::is_blank;

/// How many bytes stand before the first line feed.
fn feed_place(text: &[u8]) -> usize
    ensures value { result ≡ prefix_len (λ b. not (is_line_feed b)) text.now }
    ensures within { result ≤ length text.now }
{
    text.iter().take_while(|byte| **byte != b'\n').count()
}

/// How many bytes the line takes that a text begins with, its line feed among them.
#[tactic(auto, using(crate::proofs::ByLine::line_length_is))]
fn line_len(text: &[u8]) -> usize
    ensures value { result ≡ line_length text.now }
    ensures within { result ≤ length text.now }
    ensures some { 0 < length text.now → 0 < result }
{
    let len = feed_place(text);
    if len < text.len() { len + 1 } else { len }
}

/// Where the line ends that begins at a place: behind its line feed, or at the text's end.
pub fn line_end(text: &[u8], at: usize) -> usize
    requires { at < length text.now }
    ensures after { at < result }
    ensures within { result ≤ length text.now }
    ensures line { spec.lines_of (drop at text.now) ≡ slice_range text.now at result ∷ spec.lines_of (drop result text.now) }
{
    at + line_len(&text[at..])
}

/// A line without the blanks at its end.
pub fn without_blank_end(line: &[u8]) -> &[u8]
    ensures { result.now ≡ spec.without_blank_end line.now }
{
    let mut end = line.len();
    while end > 0 && is_blank(line[end - 1]) {
        end -= 1;
    }
    &line[..end]
}

/// How many line feeds a text has.
pub fn line_feeds(text: &[u8]) -> u64
    ensures value { result ≡ spec.line_feeds text.now }
    ensures few { result ≤ length text.now }
{
    text.iter().filter(|byte| **byte == b'\n').count() as u64
}

/// How many bytes stand before the first semicolon that is in no comment.
pub fn part_len(text: &[u8]) -> usize
    ensures value { result ≡ part_length false text.now }
    ensures within { result ≤ length text.now }
{
    let mut in_comment = false;
    for (at, byte) in text.iter().enumerate() {
        if in_comment {
            in_comment = *byte != b'\n';
        } else if *byte == b';' {
            return at;
        } else {
            in_comment = text[at..].starts_with(b"--");
        }
    }
    text.len()
}
