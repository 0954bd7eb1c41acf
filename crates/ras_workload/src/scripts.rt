//! The statements of a setup or of a session, as texts.
ghost use Rattle.std.specs.Prelude.{◌≡◌, List as ListOf, Some};
ghost use Rattle.spec_workloads.specs.Outline as outline;
ghost use Rattle.spec_workloads.specs.Sections as spec;
ghost use Rattle.ras_workload.specs.Headed.{cut_by};
ghost use Rattle.ras_workload.specs.PieceViews.{piece_seen};
ghost use Rattle.ras_workload.specs.SectionViews.{section_seen};
ghost use Rattle.ras_workload.specs.Texts.{AddsTo, ended, with_text};
ghost use Rattle.ras_workload.specs.Told.{FindsIn, fault_seen};

use crate::fault::WorkloadFault;
use crate::piece::Piece;
use crate::section::Section;
use ras_domain::{List, Text};
use ras_parse::lists::push;
use std::alloc::Global;

/// The most statements of a section.
const MAX_STATEMENTS: usize = ras_syntax::MAX_STATEMENTS as usize;

/// Puts the text of a statement behind others, where there is room for it.
fn add(alloc: Global, texts: &mut List<Text>, piece: &Piece<'_>) -> Result<(), WorkloadFault>
    ensures { AddsTo (with_text texts.old (piece_seen piece.now)) result texts.new }
{
    if texts.as_slice().len() >= MAX_STATEMENTS {
        return Err(WorkloadFault::TooManyStatements { line: piece.line });
    }
    let text = Text::of(alloc, piece.text)?;
    push(alloc, texts, text)?;
    Ok(())
}

/// The statements of a section whose last piece ends with no semicolon; `cut` is its fault where it
/// isn't empty.
fn end(texts: List<Text>, last: &Piece<'_>, cut: WorkloadFault) -> Result<List<Text>, WorkloadFault>
    ensures { (later : ListOf spec.Section) → fault_seen cut ≡ Some (cut_by later)
        → FindsIn (ended texts last.now.line last.now.text.now later) result }
{
    if last.text.is_empty() {
        return Ok(texts);
    }
    if texts.as_slice().len() >= MAX_STATEMENTS {
        return Err(WorkloadFault::TooManyStatements { line: last.line });
    }
    Err(cut)
}

/// The statements of a section; `cut` is the fault of one that isn't ended before the next section.
pub fn statements_of(
    alloc: Global,
    section: &Section<'_>,
    cut: WorkloadFault,
) -> Result<List<Text>, WorkloadFault>
    ensures { (later : ListOf spec.Section) → fault_seen cut ≡ Some (cut_by later)
        → FindsIn (outline.section_statements (section_seen section.now) later) result }
{
    let mut pieces = section.pieces();
    let mut texts = List::new(alloc);
    while let Some(piece) = pieces.next() {
        add(alloc, &mut texts, &piece)?;
    }
    end(texts, &pieces.last(), cut)
}
