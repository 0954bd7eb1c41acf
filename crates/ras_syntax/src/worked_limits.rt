//! The limits as numbers. Elsewhere they are cited by name alone, so these rows pin them.
ghost use Rattle.std.specs.Prelude.{◌≡◌, ◌^◌, ◌-◌};
ghost use Rattle.ras_cells.specs.declared.TheConstants.{MAX_COMPONENTS, MAX_NULLS};
ghost use Rattle.ras_domain.specs.declared.TheConstants.{MAX_AXES, MAX_POINTS, MAX_TILE_CELLS};
ghost use Rattle.ras_syntax.specs.declared.limits.TheConstants.{MAX_FIRST_IDENTIFIER, MAX_IDENTIFIER, MAX_LOCKS, MAX_REPLY_CELLS, MAX_RETRIES, MAX_ROWS, MAX_SESSIONS, MAX_STATEMENTS, MAX_STORED_NUMBERS, MAX_TILES, MAX_TYPES, MAX_WEIGHT};

/// Types, and what arrays and tiles may have.
pub fn limits_of_arrays()
    ensures types { MAX_TYPES ≡ 256 }
    ensures axes { MAX_AXES ≡ 6 }
    ensures components { MAX_COMPONENTS ≡ 8 }
    ensures null_intervals { MAX_NULLS ≡ 8 }
    ensures points { MAX_POINTS ≡ 2 ^ 24 }
    ensures stored_numbers { MAX_STORED_NUMBERS ≡ 2 ^ 24 }
    ensures tiles { MAX_TILES ≡ 65536 }
    ensures tile_cells { MAX_TILE_CELLS ≡ 65536 }
{}

/// What workloads may have.
pub fn limits_of_workloads()
    ensures sessions { MAX_SESSIONS ≡ 64 }
    ensures statements { MAX_STATEMENTS ≡ 10000 }
{}

/// What statements may have.
pub fn limits_of_statements()
    ensures weight { MAX_WEIGHT ≡ 127 }
    ensures rows { MAX_ROWS ≡ 65536 }
    ensures locks { MAX_LOCKS ≡ 2 ^ 20 }
    ensures reply_cells { MAX_REPLY_CELLS ≡ 262144 }
    ensures retries { MAX_RETRIES ≡ 1000 }
{}

/// Identifiers.
pub fn limits_of_identifiers()
    ensures greatest { MAX_IDENTIFIER ≡ 2 ^ 63 - 1 }
    ensures at_first { MAX_FIRST_IDENTIFIER ≡ 2 ^ 62 }
{}
