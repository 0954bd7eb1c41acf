//! A text by its headings.
ghost use Rattle.std.specs.Prelude.{◌≡◌, ◌∷◌, ◌+◌, ◌<◌, ◌≤◌, ◌^◌, [], length, slice_index, slice_range, MatchOption, IfSome, IfNone, Some, Err};
ghost use Rattle.spec_workloads.specs.Outline as outline;
ghost use Rattle.spec_workloads.specs.Sections as spec;
ghost use Rattle.ras_workload.specs.Headed.{headed_at, cut_by};
ghost use Rattle.ras_workload.specs.Pieces.{pieces_on};
ghost use Rattle.ras_workload.specs.SectionViews.{section_seen};
ghost use Rattle.ras_workload.specs.Told.{fault_seen};

use crate::fault::WorkloadFault;
use crate::lines::{line_end, without_blank_end};
use crate::pieces::Pieces;
use crate::section::Section;
use std::marker::Model;

impl<'t> Section<'t> {
    /// The pieces of the body.
    pub fn pieces(&self) -> Pieces<'t>
        ensures { result ≡ spec.pieces_of (section_seen self.now) }
    {
        Pieces::new(self.line + 1, self.body)
    }
}

/// Where the next heading stands from the start of a line on, and on which line; or the text's end
/// and one line more than there are.
fn to_heading(text: &[u8], from: usize, first: u64) -> (usize, u64)
    requires within { from ≤ length text.now }
    requires few { first ≤ from + 1 }
    requires short { length text.now < 2 ^ 32 }
    ensures order { from ≤ result.0 }
    ensures within { result.0 ≤ length text.now }
    ensures few { result.1 ≤ result.0 + 1 }
    ensures heading { result.0 < length text.now → slice_index text.now result.0 ≡ 35 }
    ensures headed { headed_at first from text.now
        ≡ record { front = slice_range text.now from result.0; sections = (headed_at result.1 result.0 text.now).sections } }
{
    let mut at = from;
    let mut line = first;
    while at < text.len() && text[at] != b'#' {
        at = line_end(text, at);
        line += 1;
    }
    (at, line)
}

/// The sections from a place on at which a heading stands, or the text ends.
#[derive(Drop)]
pub struct Sections<'t> {
    text: &'t [u8],
    at: usize,
    /// The line that begins at the place.
    line: u64,
}

impl<'t> Model for Sections<'t> {
    ghost use Rattle.std.specs.Prelude.{List};
    ghost use Rattle.spec_workloads.specs.Sections as spec;

    ghost Value = { List spec.Section };

    ghost use Rattle.ras_workload.specs.SectionViews.{sections_in, AreSections};

    ghost view = { sections_in };

    ghost invariant = { AreSections };
}

impl<'t> Sections<'t> {
    /// The sections of a text that begins with a heading.
    pub fn of(text: &'t [u8]) -> Option<Sections<'t>>
        requires { length text.now < 2 ^ 32 }
        ensures some { IfSome result (λ sections. spec.headed text.now ≡ record { front = []; sections = sections }) }
        ensures none { IfNone result (outline.outline_of text.now ≡ Err (outline.bad_heading 1)) }
    {
        if text.is_empty() {
            return None;
        }
        if text[0] != b'#' {
            return None;
        }
        Some(Sections {
            text,
            at: 0,
            line: 1,
        })
    }

    /// Takes the next section.
    pub fn next(&mut self) -> Option<Section<'t>>
        ensures { MatchOption result (self.old ≡ []) (λ section. self.old ≡ section_seen section ∷ self.new) }
    {
        if self.at >= self.text.len() {
            return None;
        }
        let line = self.line;
        let behind = line_end(self.text, self.at);
        let heading = without_blank_end(&self.text[self.at..behind]);
        let (at, next_line) = to_heading(self.text, behind, line + 1);
        let body = &self.text[behind..at];
        self.at = at;
        self.line = next_line;
        Some(Section {
            line,
            heading,
            behind,
            body,
        })
    }

    /// The fault of a statement or a type that is cut off before the next section.
    pub fn cut(&self) -> WorkloadFault
        ensures { fault_seen result ≡ Some (cut_by self.now) }
    {
        if self.at < self.text.len() {
            WorkloadFault::BadHeading { line: self.line }
        } else {
            WorkloadFault::NoEnd
        }
    }
}
