/// Why a text is no statement, with the byte offset from the text's start.
#[derive(Clone, Copy, Debug, PartialEq, Eq)]
pub enum SyntaxFault {
    /// No statement goes on so.
    Unexpected { place: u32 },
    /// The number is outside the range of its type.
    NumberTooWide { place: u32 },
    /// The statement nests too deep.
    TooDeep { place: u32 },
    /// A name before `(` that is no function.
    UnknownName { place: u32 },
    /// There are whole numbers alone.
    FloatRefused { place: u32 },
}

/// Why a statement has no type, in the order in which the faults of one expression come.
#[derive(Clone, Copy, Debug, PartialEq, Eq)]
pub enum CheckFault {
    /// There is no collection of this name.
    NoCollection,
    /// There is a collection of this name.
    CollectionExists,
    /// There is no type of this name.
    NoType,
    /// No iterator or variable of this name is in scope.
    NoIterator,
    /// An iterator or variable of this name is in scope already.
    DoubleName,
    /// The cells have no such component.
    NoComponent,
    /// The types don't fit, or the expression is of another kind than its place asks for.
    TypeMismatch,
    /// The numbers of axes don't fit, there are more than six, or there is no such axis.
    DimensionMismatch,
    /// A bound reads a variable, a cell or an object identifier.
    VariableDomain,
}

/// Why a value has no shape, or the statement as a whole is too large.
#[derive(Clone, Copy, Debug, PartialEq, Eq)]
pub enum ShapeFault {
    /// A part lies outside the domain that it is taken from, or a region outside its type's bounds.
    Outside,
    /// The operands' domains differ.
    DomainsDiffer,
    /// The parts of a `concat` differ in an extent on another axis.
    ExtentsDiffer,
    /// A lower bound exceeds the upper one.
    EmptyDomain,
    /// A bound leaves -2^31 to 2^31 - 1, or has no value.
    BoundOut,
    /// There are more than 2^24 points or stored numbers.
    ArrayTooLarge,
    /// A select answers more than 262,144 cells.
    ReplyTooLarge,
    /// An array has more than 65,536 tiles.
    TooManyTiles,
    /// A statement has more than 65,536 rows.
    TooManyRows,
    /// A phase asks for more than 2^20 locks.
    TooManyLocks,
}
