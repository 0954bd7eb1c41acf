//! How much of each thing there may be. A limit bounds the memory and the time that one statement,
//! or one text, can ask for.

/// The most types that a workload may declare.
pub const MAX_TYPES: u64 = 256;

/// The most sessions of a workload.
pub const MAX_SESSIONS: u64 = 64;

/// The most statements of a session, and of the setup.
pub const MAX_STATEMENTS: u64 = 10_000;

/// The most that the tokens of a statement may weigh together. It bounds how deep a statement nests,
/// and so the depth of every recursion over its tree.
pub const MAX_WEIGHT: u64 = 127;

/// The most times that a session may ask for a transaction to be tried again.
pub const MAX_RETRIES: u64 = 1_000;

/// The most numbers that an array may store, counting each component of each cell: 2^24.
pub const MAX_STORED_NUMBERS: u64 = 16_777_216;

/// The most tiles that an array may have.
pub const MAX_TILES: u64 = 65_536;

/// The most rows that a statement may go over.
pub const MAX_ROWS: u64 = 65_536;

/// The most locks that a phase of a statement may ask for: 2^20.
pub const MAX_LOCKS: u64 = 1_048_576;

/// The most cells that the reply of a select may have, a scalar or a domain counting as one.
pub const MAX_REPLY_CELLS: u64 = 262_144;

/// The greatest object identifier: 2^63 - 1, so that each is a number of the language.
pub const MAX_IDENTIFIER: u64 = 9_223_372_036_854_775_807;

/// The greatest next identifier that a collection may have before any session has begun: 2^62. The
/// other half is for the arrays that the sessions insert.
pub const MAX_FIRST_IDENTIFIER: u64 = 4_611_686_018_427_387_904;
