//! Laws of the rows that a view shows, each the contract of a function that does nothing.
ghost use Rattle.std.specs.Prelude.{◌≡◌, ℕ, List, Ok, map};
ghost use Rattle.ras_rows.specs.Plans.{rows_listed};
ghost use Rattle.spec_expressions.specs.Tree.{Condition};
ghost use Rattle.spec_shown.specs.Shown.{rows_shown};
ghost use Rattle.spec_statements.specs.Effects.{row_identifiers};
ghost use Rattle.spec_statements.specs.Rows.{Row, passing_of, sources_of, with_row_numbers};
ghost use Rattle.spec_statements.specs.Statement.{Request};
ghost use Rattle.spec_views.specs.Holdings.{Holdings};

/// The rows that pass are found again by their numbers and the identifiers of their arrays.
pub fn passing_rows_are_found_by_identifiers()
    ensures { (holdings : Holdings) (request : Request) (condition : Condition) (kept : List (ℕ × Row))
        → passing_of condition (with_row_numbers 1 (rows_shown request holdings)) ≡ Ok kept
        → rows_listed holdings (sources_of request) (map (λ row. (row.0, row_identifiers row.1)) kept) ≡ kept }
{}
