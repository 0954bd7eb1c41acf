//! The kinds of components.
ghost use Rattle.std.specs.Prelude.{◌≡◌, if◌then◌else◌, None, pos, int_lt, unsigned_abs, slice_get};
ghost use Rattle.spec_expressions.specs.Tree.{tree_of};
ghost use Rattle.spec_expressions.specs.Names.{names_of as names_of_tree, place_among as place_among_names};
ghost use Rattle.spec_expressions.specs.Check as spec;
ghost use Rattle.ras_kinds.specs.declared.components.RuleFault.TheVariants.{Fault, Memory};
ghost use Rattle.ras_kinds.specs.Follows.{Follows};
ghost use Rattle.ras_kinds.specs.Parts.{bound_told};

use crate::names::{names_of, place_among};
use crate::trees::is_interval;
use ras_cells::{Atom, CellType};
use ras_domain::Name;
use ras_syntax::{CheckFault, CheckedSource, Kind, Part, TypedExpr};
use std::alloc::{AllocError, Global};

/// Why a rule gives nothing.
#[derive(Clone, Copy, Debug, PartialEq, Eq)]
pub enum RuleFault {
    /// The expression breaks the rule.
    Fault(CheckFault),
    /// There is not enough memory.
    Memory,
}

impl From<CheckFault> for RuleFault {
    ghost from_gives = { λ fault e. e ≡ Fault fault };

    fn from(fault: CheckFault) -> RuleFault {
        RuleFault::Fault(fault)
    }
}

impl From<AllocError> for RuleFault {
    ghost from_gives = { λ _ e. e ≡ Memory };

    fn from(_: AllocError) -> RuleFault {
        RuleFault::Memory
    }
}

/// The atom of a component, counted from 0.
fn component(k: &i64, atoms: &[Atom]) -> Option<Atom>
    ensures { result ≡ (if int_lt k.now (pos 0) then None else slice_get atoms.now (unsigned_abs k.now)) }
{
    if *k < 0 {
        return None;
    }
    atoms.get(k.unsigned_abs() as usize).copied()
}

/// The type of a component, counted from 0.
fn component_type(k: &i64, cell: &CellType) -> Option<CellType>
    ensures { result ≡ spec.component_type k.now cell.now }
{
    match cell {
        CellType::Atom(_) => None,
        CellType::Composite(atoms) => match component(k, atoms.as_slice()) {
            Some(atom) => Some(CellType::Atom(atom)),
            None => None,
        },
    }
}

/// The kind of a component by its number, and the part. What has no components has none of any
/// number.
fn numbered_part(kind: &Kind, k: &i64) -> Result<(Kind, Part), CheckFault>
    ensures { result ≡ spec.numbered_part kind.now k.now }
{
    match kind {
        Kind::Scalar(cell) => match component_type(k, cell) {
            Some(cell) => Ok((Kind::Scalar(cell), Part::Numbered(*k))),
            None => Err(CheckFault::NoComponent),
        },
        Kind::Array { cell, axes } => match component_type(k, cell) {
            Some(cell) => Ok((Kind::Array { cell, axes: *axes }, Part::Numbered(*k))),
            None => Err(CheckFault::NoComponent),
        },
        Kind::Domain { axes: _ } | Kind::Point { axes: _ } => Err(CheckFault::NoComponent),
    }
}

/// The same by its name among the names of the components.
fn named_part(kind: &Kind, name: &Name, names: &[Name]) -> Result<(Kind, Part), RuleFault>
    ensures { Follows (spec.named_part kind.now (place_among_names name.now names.now)) result }
{
    let Some(place) = place_among(name, names) else {
        return Err(RuleFault::Fault(CheckFault::NoComponent));
    };
    let Ok(place) = i64::try_from(place) else {
        return Err(RuleFault::Memory);
    };
    match numbered_part(kind, &place) {
        Ok(found) => Ok(found),
        Err(fault) => Err(RuleFault::Fault(fault)),
    }
}

/// Whether the name is that of one of the two bounds of an interval.
fn is_bound_name(name: &Name) -> bool
    ensures { result ≡ spec.is_bound_name name.now }
{
    name.bytes() == b"lo".as_slice() || name.bytes() == b"hi".as_slice()
}

/// The kind of a bound of `sdom(e)[k]`, and the part, which keeps its name.
fn bound_kind(alloc: Global, name: &Name) -> Result<(Kind, Part), RuleFault>
    ensures { Follows (bound_told name.now) result }
{
    if !is_bound_name(name) {
        return Err(RuleFault::Fault(CheckFault::NoComponent));
    }
    let name = name.try_clone(alloc)?;
    Ok((Kind::Scalar(CellType::Atom(Atom::Wide)), Part::Named(name)))
}

/// The kind of `e.part`, and the part with its number. Of `sdom(e)[k]` there are `lo` and `hi`, which
/// keep their names.
#[tactic(auto, using(crate::proofs::Parts::part_told))]
pub fn part_kind(
    alloc: Global,
    sources: &[CheckedSource],
    e: &TypedExpr,
    part: &Part,
) -> Result<(Kind, Part), RuleFault>
    ensures { Follows (spec.part_kind sources.now (tree_of e.now) part.now) result }
{
    match part {
        Part::Numbered(k) => match numbered_part(&e.kind, k) {
            Ok(found) => Ok(found),
            Err(fault) => Err(RuleFault::Fault(fault)),
        },
        Part::Named(name) if is_interval(e) => bound_kind(alloc, name),
        Part::Named(name) => named_part(&e.kind, name, names_of(sources, e)),
    }
}
