//! The cells of type lines.
ghost use Rattle.std.specs.Prelude.{◌≡◌, ◌≤◌, not, length, map, IfOk};
ghost use Rattle.ras_cells.specs.declared.TheConstants.{MAX_COMPONENTS as MOST_COMPONENTS};
ghost use Rattle.std.specs.List.{list_all};
ghost use Rattle.spec_grammar.specs.Tokens as grammar;
ghost use Rattle.spec_workloads.specs.TypeLines as spec;
ghost use Rattle.ras_workload.specs.Cells.{KeptCells, cells_seen};

use crate::headings::is_same;
use arrayvec::ArrayVec;
use ras_cells::{Atom, CellType, MAX_COMPONENTS};
use ras_domain::{List, Name};
use ras_parse::lists::push;
use std::alloc::{AllocError, Global};
use std::marker::Model;

/// Cells as a line tells them: of one number, or of a number for each of these names.
#[derive(Debug, Drop)]
pub enum CellsForm {
    One(Atom),
    Many(List<(Name, Atom)>),
}

/// Cells as a line tells them. Contracts see their type, whatever its components.
#[derive(Debug, Drop)]
pub struct Cells {
    form: CellsForm,
}

impl Model for Cells {
    ghost use Rattle.spec_workloads.specs.TypeLines.{TypedCells};
    ghost use Rattle.ras_workload.specs.Cells.{cells_seen};

    ghost Value = { TypedCells };

    ghost view = { λ cells. cells_seen cells.form };
}

impl Cells {
    /// Cells of one number.
    pub fn one(atom: Atom) -> Cells
        ensures { result ≡ cells_seen (CellsForm.One atom) }
    {
        Cells {
            form: CellsForm::One(atom),
        }
    }

    /// Cells of these components.
    pub fn many(components: List<(Name, Atom)>) -> Cells
        ensures { result ≡ spec.cells_of_components components }
    {
        Cells {
            form: CellsForm::Many(components),
        }
    }
}

/// Whether numbers of this atom can't be stored.
fn is_wide(atom: Atom) -> bool
    ensures { result ≡ spec.is_wide atom }
{
    match atom {
        Atom::Wide => true,
        _ => false,
    }
}

/// Whether numbers of each atom can be stored.
fn are_stored(atoms: &[Atom]) -> bool
    ensures { result ≡ list_all (λ atom. not (spec.is_wide atom)) atoms.now }
{
    atoms.iter().all(|atom| !is_wide(*atom))
}

/// Whether a name is none of these.
fn differs_from_all(name: &[u8], others: &[Name]) -> bool
    ensures { result ≡ list_all (λ other. not (grammar.is_same name.now other)) others.now }
{
    others.iter().all(|other| !is_same(name, other.bytes()))
}

/// Whether no name is there twice.
fn are_apart(mut names: &[Name]) -> bool
    ensures { result ≡ spec.are_all_apart (λ a b. not (grammar.is_same a b)) names.entry.now }
{
    while let [first, others @ ..] = names {
        if !differs_from_all(first.bytes(), others) {
            return false;
        }
        names = others;
    }
    true
}

/// The atoms of components, and their names.
fn parted(
    alloc: Global,
    components: Vec<(Name, Atom)>,
) -> Result<(ArrayVec<Atom, MAX_COMPONENTS>, List<Name>), AllocError>
    requires { length components.items ≤ MOST_COMPONENTS }
    ensures { IfOk result (λ parts. (parts.0.items ≡ map (λ c. c.1) components.items) × (parts.1 ≡ map (λ c. c.0) components.items)) }
{
    let mut atoms = ArrayVec::new();
    let mut names = List::new(alloc);
    for (name, atom) in components {
        atoms.push(atom);
        push(alloc, &mut names, name)?;
    }
    Ok((atoms, names))
}

/// The type of a composite's cells and its names, if it may be declared.
fn components_of(
    alloc: Global,
    components: List<(Name, Atom)>,
) -> Result<Option<(CellType, List<Name>)>, AllocError>
    ensures { IfOk result (λ kept. KeptCells (spec.cells_of_components components) kept) }
{
    let components = components.into_vec();
    if components.is_empty() || components.len() > MAX_COMPONENTS {
        return Ok(None);
    }
    let (atoms, names) = parted(alloc, components)?;
    if !are_stored(atoms.as_slice()) {
        return Ok(None);
    }
    if !are_apart(names.as_slice()) {
        return Ok(None);
    }
    Ok(Some((CellType::Composite(atoms), names)))
}

/// The type of cells and the names of their components, if they may be declared. The error is want of
/// memory.
pub fn cells_of(alloc: Global, cells: Cells) -> Result<Option<(CellType, List<Name>)>, AllocError>
    ensures { IfOk result (λ kept. KeptCells cells kept) }
{
    match cells.form {
        CellsForm::One(atom) if is_wide(atom) => Ok(None),
        CellsForm::One(atom) => Ok(Some((CellType::Atom(atom), List::new(alloc)))),
        CellsForm::Many(components) => components_of(alloc, components),
    }
}
