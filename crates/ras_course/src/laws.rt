//! Laws of the definitions, each the contract of a function that does nothing.
ghost use Rattle.std.specs.Prelude.{◌≡◌, ℕ, List, None, Option};
ghost use Rattle.ras_course.specs.Courses.{IsComeTo, IsKnownTo};
ghost use Rattle.ras_syntax.specs.declared.statement.Statement.{Statement};
ghost use Rattle.ras_syntax.specs.declared.types.SetType.{SetType};
ghost use Rattle.ras_syntax.specs.declared.typed.Checked.{Checked};
ghost use Rattle.spec_expressions.specs.Database.{Database};
ghost use Rattle.spec_shown.specs.Shown.{IsPartOf};
ghost use Rattle.spec_statements.specs.ReachLaw.{IsSetting};
ghost use Rattle.spec_views.specs.Holdings.{Holdings, IsSeenBy};

/// What a course keeps, where it is so over one database that is seen, is so over each.
pub fn what_is_known_holds_of_all_that_is_seen()
    ensures { (types : List SetType) (statement : Statement) (view : Holdings) (next : ℕ) (checked : Option Checked)
        (rows : Option (List (ℕ × List ℕ))) (one other : Database) → IsSetting types statement one
        → IsSeenBy types view statement next one → IsSeenBy types view statement next other
        → IsKnownTo types statement next checked rows one → IsKnownTo types statement next checked rows other }
{}

/// A new course has come to the first phase, over each database that the laws speak of and of which all is
/// that is held.
pub fn a_new_course_has_come()
    ensures { (types : List SetType) (statement : Statement) (holdings : Holdings) (database : Database)
        → IsSetting types statement database → IsPartOf types holdings database
        → IsComeTo types statement holdings (record { next = 1; checked = None; rows = None }) database }
{}
