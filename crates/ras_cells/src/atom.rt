ghost use Rattle.std.specs.Prelude.{◌≡◌, ℤ, pos, IsTrue, ◌↔◌};
ghost use Rattle.ras_cells.specs.Atoms.{range_of, IsInRange, is_in_range};

/// The type of one number. The names are those of rasql, and each stands for a range of whole
/// numbers.
#[derive(Clone, Copy, Debug, Default, PartialEq, Eq)]
pub enum Atom {
    /// 0 for false and 1 for true. It is no number type.
    #[default]
    Bool,
    /// -128 to 127.
    Octet,
    /// 0 to 255.
    Char,
    /// -32,768 to 32,767.
    Short,
    /// 0 to 65,535.
    Ushort,
    /// -2^31 to 2^31 - 1.
    Long,
    /// 0 to 2^32 - 1.
    Ulong,
    /// -2^63 to 2^63 - 1: what operations give. It can't be stored.
    Wide,
}

impl Atom {
    /// The least and the greatest number of the type.
    pub fn range(self) -> (i64, i64)
        ensures { result ≡ range_of self }
    {
        match self {
            Atom::Bool => (0, 1),
            Atom::Octet => (-128, 127),
            Atom::Char => (0, 255),
            Atom::Short => (-32_768, 32_767),
            Atom::Ushort => (0, 65_535),
            Atom::Long => (-2_147_483_648, 2_147_483_647),
            Atom::Ulong => (0, 4_294_967_295),
            Atom::Wide => (i64::MIN, i64::MAX),
        }
    }

    /// Whether the number is one of the type.
    pub fn contains(self, number: i64) -> bool
        ensures range { IsTrue result ↔ IsInRange self number }
        ensures test { result ≡ is_in_range self number }
    {
        let (least, greatest) = self.range();
        least <= number && number <= greatest
    }
}
