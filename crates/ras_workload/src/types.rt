//! The types that a text declares.
ghost use Rattle.std.specs.Prelude.{◌≡◌, List as ListOf, Some};
ghost use Rattle.spec_workloads.specs.Outline as outline;
ghost use Rattle.spec_workloads.specs.Sections as spec;
ghost use Rattle.spec_workloads.specs.TypeLines.{type_of_line};
ghost use Rattle.ras_workload.specs.Headed.{cut_by};
ghost use Rattle.ras_workload.specs.SectionViews.{section_seen};
ghost use Rattle.ras_workload.specs.Texts.{AddsTo};
ghost use Rattle.ras_workload.specs.Told.{FindsIn, fault_seen};

use crate::fault::WorkloadFault;
use crate::piece::Piece;
use crate::section::Section;
use crate::type_lines::read_type_line;
use ras_syntax::Types;
use std::alloc::Global;

/// Puts the type of a line behind others, where it may be declared behind them.
fn add(alloc: Global, types: &mut Types, piece: &Piece<'_>) -> Result<(), WorkloadFault>
    ensures { AddsTo (outline.with_type types.old piece.now.line (type_of_line piece.now.text.now)) result types.new }
{
    let Some(of) = read_type_line(alloc, types, piece.text)? else {
        return Err(WorkloadFault::BadType { line: piece.line });
    };
    match types.push(alloc, of) {
        Ok(()) => Ok(()),
        Err(_) => Err(WorkloadFault::Memory),
    }
}

/// The types of a section; `cut` is the fault of one that isn't ended before the next section.
pub fn types_of(
    alloc: Global,
    section: &Section<'_>,
    cut: WorkloadFault,
) -> Result<Types, WorkloadFault>
    ensures { (later : ListOf spec.Section) → fault_seen cut ≡ Some (cut_by later)
        → FindsIn (outline.types_of (section_seen section.now) later) result }
{
    let mut pieces = section.pieces();
    let mut types = Types::new(alloc);
    while let Some(piece) = pieces.next() {
        add(alloc, &mut types, &piece)?;
    }
    if pieces.last().text.is_empty() {
        Ok(types)
    } else {
        Err(cut)
    }
}
