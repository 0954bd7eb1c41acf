//! The numbers of a run, each as one of 64 bits.
ghost use Rattle.std.specs.Prelude.{◌≡◌, length, map};
ghost use Rattle.ras_cells.specs.Runs.{IsRunOf};
ghost use Rattle.ras_cells.specs.Runs.{HasLength};

use ras_cells::Run;

/// Writes the numbers of the run to `out`; a run that is kept as one number fills it.
pub fn widen(run: &Run<'_>, out: &mut [i64])
    requires { HasLength run.now (length out.old) }
    ensures { IsRunOf out.new run.now }
{
    match run {
        Run::Uniform(number) => out.fill(*number),
        Run::U8(numbers) => widen_each(numbers, out),
        Run::I8(numbers) => widen_each(numbers, out),
        Run::U16(numbers) => widen_each(numbers, out),
        Run::I16(numbers) => widen_each(numbers, out),
        Run::U32(numbers) => widen_each(numbers, out),
        Run::I32(numbers) => widen_each(numbers, out),
        Run::Plain(numbers) => out.copy_from_slice(numbers),
    }
}

/// A number of fewer than 64 bits.
trait Narrow: Copy {
    ghost use Rattle.std.specs.Prelude.{ℤ};

    ghost number: { Self → ℤ };

    /// The same number.
    fn widened(self) -> i64
        ensures { result ≡ number self };
}

/// The numbers, each as one of 64 bits.
fn widen_each<N: Narrow>(numbers: &[N], out: &mut [i64])
    requires { length numbers.now ≡ length out.old }
    ensures { out.new ≡ map N.number numbers.now }
{
    for i in 0..out.len() {
        out[i] = numbers[i].widened();
    }
}

impl Narrow for u8 {
    ghost use Rattle.std.specs.Prelude.{pos};

    ghost number = { pos };

    fn widened(self) -> i64 {
        i64::from(self)
    }
}

impl Narrow for i8 {
    ghost number = { λ z. z };

    fn widened(self) -> i64 {
        i64::from(self)
    }
}

impl Narrow for u16 {
    ghost use Rattle.std.specs.Prelude.{pos};

    ghost number = { pos };

    fn widened(self) -> i64 {
        i64::from(self)
    }
}

impl Narrow for i16 {
    ghost number = { λ z. z };

    fn widened(self) -> i64 {
        i64::from(self)
    }
}

impl Narrow for u32 {
    ghost use Rattle.std.specs.Prelude.{pos};

    ghost number = { pos };

    fn widened(self) -> i64 {
        i64::from(self)
    }
}

impl Narrow for i32 {
    ghost number = { λ z. z };

    fn widened(self) -> i64 {
        i64::from(self)
    }
}
