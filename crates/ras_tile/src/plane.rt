//! Planes: the numbers of one component of a tile's cells.
ghost use Rattle.std.specs.Prelude.{◌≡◌, ◌≢◌, ◌+◌, ◌<◌, ◌≤◌, ◌↔◌, ℕ, ℤ, List, pos, length, All, IfOk, IsTrue};
ghost use Rattle.ras_cells.specs.Atoms.{IsInRange};
ghost use Rattle.ras_cells.specs.Runs.{IsRunOf};
ghost use Rattle.ras_cells.specs.declared.atom.Atom.{Atom as TheAtom};
ghost use Rattle.ras_tile.specs.Planes.{listed_number, plane_number, HasNumbers, Reaches, IsUniformPlane, IsPlainPlane, IsPackedPlane};
ghost use Rattle.ras_tile.specs.Lent.{IsUniform, IsPlain, IsPackedAs};

use crate::lane::{are_equal, at, narrowed, widen_from};
use ras_cells::{Atom, Run};
use std::alloc::{AllocError, Global};

/// The numbers of one component, a number a cell. They are kept in the width of an atom, or as one
/// number where it is that of each cell.
#[derive(Debug, Drop)]
pub(crate) enum Plane {
    Uniform(i64),
    U8(Vec<u8>),
    I8(Vec<i8>),
    U16(Vec<u16>),
    I16(Vec<i16>),
    U32(Vec<u32>),
    I32(Vec<i32>),
    Plain(Vec<i64>),
}

impl Plane {
    /// The number of the cell at this place.
    pub(crate) fn at(&self, place: usize) -> i64
        requires { Reaches (place + 1) self.now }
        ensures { result ≡ plane_number self.now place }
    {
        match self {
            Plane::Uniform(number) => *number,
            Plane::U8(bytes) => at(bytes.as_slice(), place),
            Plane::I8(bytes) => at(bytes.as_slice(), place),
            Plane::U16(shorts) => at(shorts.as_slice(), place),
            Plane::I16(shorts) => at(shorts.as_slice(), place),
            Plane::U32(longs) => at(longs.as_slice(), place),
            Plane::I32(longs) => at(longs.as_slice(), place),
            Plane::Plain(numbers) => at(numbers.as_slice(), place),
        }
    }

    /// Writes the numbers of the cells from this place on, as many as `out` has.
    pub(crate) fn read(&self, from: usize, out: &mut [i64])
        requires { Reaches (from + length out.old) self.now }
        ensures { (k : ℕ) → k < length out.old → listed_number out.new k ≡ plane_number self.now (from + k) }
    {
        match self {
            Plane::Uniform(number) => out.fill(*number),
            Plane::U8(bytes) => widen_from(bytes.as_slice(), from, out),
            Plane::I8(bytes) => widen_from(bytes.as_slice(), from, out),
            Plane::U16(shorts) => widen_from(shorts.as_slice(), from, out),
            Plane::I16(shorts) => widen_from(shorts.as_slice(), from, out),
            Plane::U32(longs) => widen_from(longs.as_slice(), from, out),
            Plane::I32(longs) => widen_from(longs.as_slice(), from, out),
            Plane::Plain(numbers) => widen_from(numbers.as_slice(), from, out),
        }
    }

    /// Writes the number of the cell at this place.
    pub(crate) fn write(&mut self, place: usize, number: &i64)
        requires plain { IsPlainPlane self.old }
        requires within { Reaches (place + 1) self.old }
        ensures written { plane_number self.new place ≡ number.now }
        ensures others { (k : ℕ) → k ≢ place → plane_number self.new k ≡ plane_number self.old k }
        ensures plain { IsPlainPlane self.new }
        ensures whole { (n : ℕ) → HasNumbers n self.old → HasNumbers n self.new }
        ensures reach { (n : ℕ) → Reaches n self.old → Reaches n self.new }
    {
        match self {
            Plane::Plain(numbers) => numbers[place] = *number,
            _ => unreachable!(),
        }
    }

    /// Whether the numbers of all cells are equal.
    pub(crate) fn is_constant(&self) -> bool
        ensures { (n : ℕ) → HasNumbers n self.now
            → IsTrue result ↔ ((k : ℕ) → k < n → plane_number self.now k ≡ plane_number self.now 0) }
    {
        match self {
            Plane::Uniform(_) => true,
            Plane::U8(bytes) => are_equal(bytes.as_slice()),
            Plane::I8(bytes) => are_equal(bytes.as_slice()),
            Plane::U16(shorts) => are_equal(shorts.as_slice()),
            Plane::I16(shorts) => are_equal(shorts.as_slice()),
            Plane::U32(longs) => are_equal(longs.as_slice()),
            Plane::I32(longs) => are_equal(longs.as_slice()),
            Plane::Plain(numbers) => are_equal(numbers.as_slice()),
        }
    }

    /// The numbers of the first cells, in 64 bits. The error is want of memory.
    pub(crate) fn widened(&self, alloc: Global, cells: usize) -> Result<Vec<i64>, AllocError>
        requires { Reaches cells self.now }
        ensures long { IfOk result (λ numbers. length numbers.items ≡ cells) }
        ensures numbers { IfOk result (λ numbers. (k : ℕ) → k < cells
            → listed_number numbers.items k ≡ plane_number self.now k) }
    {
        let mut numbers = vec![in alloc; 0i64; cells]?;
        self.read(0, numbers.as_mut_slice());
        Ok(numbers)
    }

    /// The numbers of all cells in the width of an atom. The error is want of memory.
    pub(crate) fn packed(
        &self,
        alloc: Global,
        atom: Atom,
        cells: usize,
    ) -> Result<Plane, AllocError>
        requires whole { HasNumbers cells self.now }
        requires range { (k : ℕ) → k < cells → IsInRange atom (plane_number self.now k) }
        ensures packed { IfOk result (IsPackedPlane atom) }
        ensures whole { IfOk result (HasNumbers cells) }
        ensures numbers { IfOk result (λ plane. (k : ℕ) → k < cells
            → plane_number plane k ≡ plane_number self.now k) }
    {
        match self {
            Plane::Plain(numbers) => packed(alloc, atom, numbers.as_slice()),
            _ => {
                let numbers = self.widened(alloc, cells)?;
                packed(alloc, atom, numbers.as_slice())
            }
        }
    }

    /// The numbers as they are kept.
    pub(crate) fn lent(&self) -> Run<'_>
        ensures numbers { (numbers : List ℤ) → HasNumbers (length numbers) self.now
            → ((k : ℕ) → k < length numbers → listed_number numbers k ≡ plane_number self.now k)
            → IsRunOf numbers result }
        ensures uniform { IsUniformPlane self.now → IsUniform result }
        ensures plain { IsPlainPlane self.now → IsPlain result }
        ensures packed { (atom : TheAtom) → IsPackedPlane atom self.now → IsPackedAs atom result }
    {
        match self {
            Plane::Uniform(number) => Run::Uniform(*number),
            Plane::U8(bytes) => Run::U8(bytes.as_slice()),
            Plane::I8(bytes) => Run::I8(bytes.as_slice()),
            Plane::U16(shorts) => Run::U16(shorts.as_slice()),
            Plane::I16(shorts) => Run::I16(shorts.as_slice()),
            Plane::U32(longs) => Run::U32(longs.as_slice()),
            Plane::I32(longs) => Run::I32(longs.as_slice()),
            Plane::Plain(numbers) => Run::Plain(numbers.as_slice()),
        }
    }
}

/// The numbers in the width of an atom. The error is want of memory.
fn packed(alloc: Global, atom: Atom, numbers: &[i64]) -> Result<Plane, AllocError>
    requires { All (IsInRange atom) numbers.now }
    ensures packed { IfOk result (IsPackedPlane atom) }
    ensures whole { IfOk result (HasNumbers (length numbers.now)) }
    ensures numbers { IfOk result (λ plane. (k : ℕ) → k < length numbers.now
        → plane_number plane k ≡ listed_number numbers.now k) }
{
    match atom {
        Atom::Bool | Atom::Char => Ok(Plane::U8(narrowed(alloc, numbers)?)),
        Atom::Octet => Ok(Plane::I8(narrowed(alloc, numbers)?)),
        Atom::Ushort => Ok(Plane::U16(narrowed(alloc, numbers)?)),
        Atom::Short => Ok(Plane::I16(narrowed(alloc, numbers)?)),
        Atom::Ulong => Ok(Plane::U32(narrowed(alloc, numbers)?)),
        Atom::Long => Ok(Plane::I32(narrowed(alloc, numbers)?)),
        Atom::Wide => Ok(Plane::Plain(narrowed(alloc, numbers)?)),
    }
}
