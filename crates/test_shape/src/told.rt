//! What the body of a select stands for, over the collections G of grey cells with two axes, N of grey cells with one, and
//! R of red, green and blue with one.
use arrayvec::ArrayVec;
use ras_cells::{Atom, CellType, NullSet};
use ras_check::{Form, ShapeError, check, shape};
use ras_domain::{Bounds, Interval, List, Name, Region};
use ras_parse::parse_statement;
use ras_syntax::{Checked, CheckedForm, SetType, ShapeFault, Span, Types};
use std::alloc::{AllocError, Global};
use std::process::Abort;

/// The lower and the upper bound of each axis.
pub type Axes = &'static [(i64, i64)];

/// The array of G in the examples of the language.
pub const SQUARE: Axes = &[(0, 3), (0, 3)];

/// That of N.
pub const LINE: Axes = &[(0, 3)];

/// That of R.
pub const COLOURS: Axes = &[(0, 1)];

/// With coordinates below 0.
pub const MOVED: Axes = &[(-2, 1), (3, 5)];

/// One column more than the square has.
pub const WIDER: Axes = &[(0, 3), (0, 4)];

/// Without the first column of the square.
pub const LATER: Axes = &[(0, 3), (1, 3)];

/// At the least of all bounds.
pub const LOWEST: Axes = &[(-2_147_483_648, -2_147_483_647), (0, 0)];

/// A text, the domains of the arrays that its iterators go over, and what its body stands for.
pub type Row = (&'static str, &'static [Axes], Shown);

/// What a body stands for.
#[derive(Clone, Copy)]
pub enum Shown {
    Scalar,
    Array(Axes),
    Domain(Axes),
    /// Nothing: the part of the text from its first byte to the byte after its last one has this fault.
    Fault(u32, u32, ShapeFault),
}

/// An axis whose bounds are written `*:*`.
const ANY: Interval = Interval {
    lo: -2_147_483_648,
    hi: 2_147_483_647,
};

/// A type of this name with so many axes, on which each tile has two cells.
fn of_axes(
    alloc: Global,
    name: &[u8],
    cell: CellType,
    names: List<Name>,
    axes: usize,
) -> Result<SetType, AllocError> {
    let mut bounds = Bounds::new();
    let mut extents = ArrayVec::new();
    for _ in 0..axes {
        let _ = bounds.try_push(ANY);
        let _ = extents.try_push(2);
    }
    Ok(SetType {
        name: Name::of(alloc, name)?,
        cell,
        names,
        bounds,
        extents,
        nulls: NullSet::new(),
    })
}

/// The names of the components of a colour.
fn colour_names(alloc: Global) -> Result<List<Name>, AllocError> {
    let mut names = Vec::new(alloc);
    names.push(Name::of(alloc, b"red")?)?;
    names.push(Name::of(alloc, b"green")?)?;
    names.push(Name::of(alloc, b"blue")?)?;
    Ok(List::of(names))
}

/// A red, a green and a blue.
fn colour() -> CellType {
    let mut atoms = ArrayVec::new();
    for _ in 0..3 {
        let _ = atoms.try_push(Atom::Char);
    }
    CellType::Composite(atoms)
}

/// A grey.
fn grey() -> CellType {
    CellType::Atom(Atom::Char)
}

/// Greys with one axis, of which 0 reads as null.
fn nil_type(alloc: Global) -> Result<SetType, AllocError> {
    let mut of = of_axes(alloc, b"NilSet", grey(), List::new(alloc), 1)?;
    let _ = of.nulls.try_push((0, 0));
    Ok(of)
}

/// One more type. What isn't taken counts as want of memory.
fn add(alloc: Global, types: &mut Types, of: SetType) -> Result<(), AllocError> {
    let Ok(()) = types.push(alloc, of) else {
        return Err(AllocError);
    };
    Ok(())
}

/// The types GreySet, NilSet and RgbSet, in this order.
fn types_of(alloc: Global) -> Result<Types, AllocError> {
    let grey_set = of_axes(alloc, b"GreySet", grey(), List::new(alloc), 2)?;
    let mut types = Types::new(alloc);
    add(alloc, &mut types, grey_set)?;
    add(alloc, &mut types, nil_type(alloc)?)?;
    let names = colour_names(alloc)?;
    add(
        alloc,
        &mut types,
        of_axes(alloc, b"RgbSet", colour(), names, 1)?,
    )?;
    Ok(types)
}

/// The region of these bounds, where they are a region's.
fn region(axes: Axes) -> Option<Region> {
    let mut bounds = Bounds::new();
    for (lo, hi) in axes {
        let _ = bounds.try_push(Interval { lo: *lo, hi: *hi });
    }
    Region::new(bounds.as_slice()).ok()
}

/// The regions of these bounds.
fn regions(alloc: Global, all: &[Axes]) -> Result<Vec<Region>, AllocError> {
    let mut regions = Vec::new(alloc);
    for axes in all {
        let Some(one) = region(axes) else {
            return Err(AllocError);
        };
        regions.push(one)?;
    }
    Ok(regions)
}

/// The typed statement that a text is. A text that isn't read, or that the check refuses, counts as want of memory,
/// which no row wants.
fn checked(rt: &(impl Abort + AllocGlobal), text: &[u8]) -> Result<Checked, ShapeError> {
    assert!(rt; text.len() < 4_294_967_296);
    let alloc = rt.alloc();
    let Ok(statement) = parse_statement(alloc, text) else {
        return Err(ShapeError::Memory);
    };
    let collections = [
        (Name::of(alloc, b"G")?, Some(0)),
        (Name::of(alloc, b"N")?, Some(1)),
        (Name::of(alloc, b"R")?, Some(2)),
    ];
    let types = types_of(alloc)?;
    match check(alloc, &statement, &types, &collections) {
        Ok(checked) => Ok(checked),
        Err(_) => Err(ShapeError::Memory),
    }
}

/// What the body of a select stands for over these domains.
fn found(
    rt: &(impl Abort + AllocGlobal),
    text: &[u8],
    domains: &[Axes],
) -> Result<Form, ShapeError> {
    let statement = checked(rt, text)?;
    let regions = regions(rt.alloc(), domains)?;
    let CheckedForm::Select { body, .. } = &statement.form else {
        return Err(ShapeError::Memory);
    };
    shape(rt.alloc(), body, &regions)
}

/// An outcome as the call answers it.
fn outcome(shown: Shown) -> Option<Result<Form, ShapeError>> {
    match shown {
        Shown::Scalar => Some(Ok(Form::Scalar)),
        Shown::Array(axes) => Some(Ok(Form::Array(region(axes)?))),
        Shown::Domain(axes) => Some(Ok(Form::Domain(region(axes)?))),
        Shown::Fault(from, to, fault) => {
            let span = Span { from, to };
            Some(Err(ShapeError::Fault { span, fault }))
        }
    }
}

/// Each body stands for what its row says.
pub fn judge(rt: &(impl Abort + AllocGlobal), rows: &[Row]) {
    for (text, domains, shown) in rows {
        let found = found(rt, text.as_bytes(), domains);
        assert_eq!(rt; Some(found), outcome(*shown), "{text}");
    }
}
