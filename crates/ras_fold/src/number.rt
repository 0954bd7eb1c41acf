ghost use Rattle.std.specs.Prelude.{◌≡◌};

/// A number of at most 64 bits, in the width that it is kept in.
pub(crate) trait Number: Copy {
    ghost use Rattle.std.specs.Prelude.{ℤ};

    ghost number: { Self → ℤ };

    /// The same number.
    fn widened(self) -> i64
        ensures { result ≡ number self };
}

impl Number for u8 {
    ghost use Rattle.std.specs.Prelude.{pos};

    ghost number = { pos };

    fn widened(self) -> i64 {
        i64::from(self)
    }
}

impl Number for i8 {
    ghost number = { λ z. z };

    fn widened(self) -> i64 {
        i64::from(self)
    }
}

impl Number for u16 {
    ghost use Rattle.std.specs.Prelude.{pos};

    ghost number = { pos };

    fn widened(self) -> i64 {
        i64::from(self)
    }
}

impl Number for i16 {
    ghost number = { λ z. z };

    fn widened(self) -> i64 {
        i64::from(self)
    }
}

impl Number for u32 {
    ghost use Rattle.std.specs.Prelude.{pos};

    ghost number = { pos };

    fn widened(self) -> i64 {
        i64::from(self)
    }
}

impl Number for i32 {
    ghost number = { λ z. z };

    fn widened(self) -> i64 {
        i64::from(self)
    }
}

impl Number for i64 {
    ghost number = { λ z. z };

    fn widened(self) -> i64 {
        self
    }
}
