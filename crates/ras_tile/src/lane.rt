//! Lists of numbers in one width, read and written as numbers of 64 bits.
ghost use Rattle.std.specs.Prelude.{◌≡◌, ◌+◌, ◌<◌, ◌≤◌, ◌↔◌, ℕ, ℤ, List, pos, map, length, All, IfOk, IsTrue};
ghost use Rattle.ras_cells.specs.Atoms.{IsInRange};
ghost use Rattle.ras_cells.specs.declared.atom.Atom.TheVariants.{Octet, Char, Short, Ushort, Long, Ulong, Wide};
ghost use Rattle.ras_tile.specs.Planes.{listed_number};

use std::alloc::{AllocError, Global};

/// A type that numbers are kept in.
pub(crate) trait Lane: Copy + Drop {
    ghost number: { Self → ℤ };

    ghost holds: { ℤ → Type 0 };

    /// The number in 64 bits.
    fn widen(&self) -> i64
        ensures { result ≡ number self.now };

    /// A number that the type has.
    fn narrow(wide: &i64) -> Self
        requires { holds wide.now }
        ensures { number result ≡ wide.now };
}

impl Lane for u8 {
    ghost number = { λ n. pos n };

    ghost holds = { IsInRange Char };

    fn widen(&self) -> i64 {
        i64::from(*self)
    }

    fn narrow(wide: &i64) -> u8 {
        *wide as u8
    }
}

impl Lane for i8 {
    ghost number = { λ n. n };

    ghost holds = { IsInRange Octet };

    fn widen(&self) -> i64 {
        i64::from(*self)
    }

    fn narrow(wide: &i64) -> i8 {
        *wide as i8
    }
}

impl Lane for u16 {
    ghost number = { λ n. pos n };

    ghost holds = { IsInRange Ushort };

    fn widen(&self) -> i64 {
        i64::from(*self)
    }

    fn narrow(wide: &i64) -> u16 {
        *wide as u16
    }
}

impl Lane for i16 {
    ghost number = { λ n. n };

    ghost holds = { IsInRange Short };

    fn widen(&self) -> i64 {
        i64::from(*self)
    }

    fn narrow(wide: &i64) -> i16 {
        *wide as i16
    }
}

impl Lane for u32 {
    ghost number = { λ n. pos n };

    ghost holds = { IsInRange Ulong };

    fn widen(&self) -> i64 {
        i64::from(*self)
    }

    fn narrow(wide: &i64) -> u32 {
        *wide as u32
    }
}

impl Lane for i32 {
    ghost number = { λ n. n };

    ghost holds = { IsInRange Long };

    fn widen(&self) -> i64 {
        i64::from(*self)
    }

    fn narrow(wide: &i64) -> i32 {
        *wide as i32
    }
}

impl Lane for i64 {
    ghost number = { λ n. n };

    ghost holds = { IsInRange Wide };

    fn widen(&self) -> i64 {
        *self
    }

    fn narrow(wide: &i64) -> i64 {
        *wide
    }
}

/// The number at this place.
pub(crate) fn at<T: Lane>(numbers: &[T], place: usize) -> i64
    requires { place < length numbers.now }
    ensures { result ≡ listed_number (map T.number numbers.now) place }
{
    numbers[place].widen()
}

/// Writes the numbers from this place on, as many as `out` has.
pub(crate) fn widen_from<T: Lane>(numbers: &[T], from: usize, out: &mut [i64])
    requires { from + length out.old ≤ length numbers.now }
    ensures { (k : ℕ) → k < length out.old
        → listed_number out.new k ≡ listed_number (map T.number numbers.now) (from + k) }
{
    for i in 0..out.len() {
        out[i] = numbers[from + i].widen();
    }
}

/// The same numbers in this type. The error is want of memory.
pub(crate) fn narrowed<T: Lane>(alloc: Global, numbers: &[i64]) -> Result<Vec<T>, AllocError>
    requires { All T.holds numbers.now }
    ensures { IfOk result (λ kept. map T.number kept.items ≡ numbers.now) }
{
    let Some(first) = numbers.first() else {
        return Ok(Vec::new(alloc));
    };
    let mut kept = vec![in alloc; T::narrow(first); numbers.len()]?;
    narrow_all(kept.as_mut_slice(), numbers);
    Ok(kept)
}

/// Writes each number in this type.
fn narrow_all<T: Lane>(kept: &mut [T], numbers: &[i64])
    requires held { All T.holds numbers.now }
    requires long { length kept.old ≡ length numbers.now }
    ensures { map T.number kept.new ≡ numbers.now }
{
    for i in 0..kept.len() {
        kept[i] = T::narrow(&numbers[i]);
    }
}

/// Whether no two numbers differ.
pub(crate) fn are_equal<T: Lane>(numbers: &[T]) -> bool
    ensures { IsTrue result
        ↔ ((k : ℕ) → k < length numbers.now
        → listed_number (map T.number numbers.now) k ≡ listed_number (map T.number numbers.now) 0) }
{
    let Some(first) = numbers.first() else {
        return true;
    };
    let first = first.widen();
    for number in numbers {
        if number.widen() != first {
            return false;
        }
    }
    true
}
