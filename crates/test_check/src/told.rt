//! What the check says of a text, over the collections G of grey cells with two axes, N of grey cells with one, and R
//! of red, green and blue with one. A collection X was dropped.
use arrayvec::ArrayVec;
use ras_cells::{Atom, CellType, NullSet};
use ras_check::{CheckError, check};
use ras_domain::{Bounds, Interval, List, Name};
use ras_parse::parse_statement;
use ras_syntax::{Checked, SetType, Types};
use std::alloc::{AllocError, Global};
use std::process::Abort;

/// An axis whose bounds are written `*:*`.
const ANY: Interval = Interval {
    lo: -2_147_483_648,
    hi: 2_147_483_647,
};

/// The names of the components of a colour.
fn colour_names(alloc: Global) -> Result<List<Name>, AllocError> {
    let mut names = Vec::new(alloc);
    for name in ["red", "green", "blue"] {
        names.push(Name::of(alloc, name.as_bytes())?)?;
    }
    Ok(List::of(names))
}

/// A red, a green and a blue.
fn colour() -> CellType {
    let mut atoms = ArrayVec::new();
    for _ in 0..3 {
        let _ = atoms.try_push(Atom::Char);
    }
    CellType::Composite(atoms)
}

/// What the cells of a type of this name are.
fn cell_of(name: &str) -> CellType {
    if name == "RgbSet" {
        colour()
    } else {
        CellType::Atom(Atom::Char)
    }
}

/// The names of the components of a type of this name.
fn names_of(alloc: Global, name: &str) -> Result<List<Name>, AllocError> {
    if name == "RgbSet" {
        colour_names(alloc)
    } else {
        Ok(List::new(alloc))
    }
}

/// What a type of this name has for null.
fn nulls_of(name: &str) -> NullSet {
    let mut nulls = NullSet::new();
    if name == "NilSet" {
        let _ = nulls.try_push((0, 0));
    }
    nulls
}

/// The type of this name, with so many axes.
fn type_of(alloc: Global, name: &str, axes: usize) -> Result<SetType, AllocError> {
    let names = names_of(alloc, name)?;
    let cell = cell_of(name);
    let nulls = nulls_of(name);
    let name = Name::of(alloc, name.as_bytes())?;
    let mut bounds = Bounds::new();
    let mut extents = ArrayVec::new();
    for _ in 0..axes {
        let _ = bounds.try_push(ANY);
        let _ = extents.try_push(2);
    }
    Ok(SetType {
        name,
        cell,
        names,
        bounds,
        extents,
        nulls,
    })
}

/// The types GreySet, NilSet and RgbSet, in this order.
pub fn types_of(alloc: Global) -> Result<Types, AllocError> {
    let mut types = Types::new(alloc);
    for (name, axes) in [("GreySet", 2), ("NilSet", 1), ("RgbSet", 1)] {
        let of = type_of(alloc, name, axes)?;
        let Ok(()) = types.push(alloc, of) else {
            return Err(AllocError);
        };
    }
    Ok(types)
}

/// The collections with the places of their types.
fn collections_of(alloc: Global) -> Result<Vec<(Name, Option<u32>)>, AllocError> {
    let mut all = Vec::new(alloc);
    for (name, of) in [("X", None), ("G", Some(0)), ("N", Some(1)), ("R", Some(2))] {
        all.push((Name::of(alloc, name.as_bytes())?, of))?;
    }
    Ok(all)
}

/// The typed statement that a text is, or why the check gives none. A text that isn't read would count as want of memory,
/// which no row wants.
pub fn checked(rt: &(impl Abort + AllocGlobal), text: &[u8]) -> Result<Checked, CheckError> {
    assert!(rt; text.len() < 4_294_967_296);
    let alloc = rt.alloc();
    let Ok(statement) = parse_statement(alloc, text) else {
        return Err(CheckError::Memory);
    };
    let types = types_of(alloc)?;
    let collections = collections_of(alloc)?;
    check(alloc, &statement, &types, &collections)
}
