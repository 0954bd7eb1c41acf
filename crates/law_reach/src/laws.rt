//! What an expression's cells depend on. The law is the contract of a function that does nothing.
ghost use Rattle.std.specs.Prelude.{◌≡◌, ℤ, List, Ok};
ghost use Rattle.ras_domain.specs.Region.{IsIn};
ghost use Rattle.ras_syntax.specs.declared.typed.CheckedSource.{CheckedSource};
ghost use Rattle.spec_expressions.specs.Eval.{Environment, cell_at, domains_in};
ghost use Rattle.spec_expressions.specs.Fits.{AreMembersOf, IsAround, LieWithin};
ghost use Rattle.spec_expressions.specs.Reach.{Boxes, reach_of};
ghost use Rattle.spec_expressions.specs.Shape.{Box, Shape, shape_of};
ghost use Rattle.spec_expressions.specs.Tree.{Tree};
ghost use Rattle.spec_expressions.specs.WellTyped.{IsWellTyped, Variables};
ghost use Rattle.law_reach.specs.Alike.{AreAlike, StoreSame};

/// Before an expression is computed at the points of a box, boxes are found for it, each for one of the arrays that the
/// query's iterators stand for, and no cell is looked at for that. They cover all that the expression reads: whatever is stored
/// elsewhere, arrays with the same domains and the same stored numbers in these boxes give it the same cell, or the same fault,
/// at each point of the box.
pub fn cells_depend_on_what_is_reached()
    ensures { (sources : List CheckedSource) (variables : Variables) (boxes : Boxes) (one other : Environment) (tree : Tree)
        (shape : Shape) (around : Box) (p : List ℤ)
        → IsWellTyped sources variables tree → AreMembersOf sources one.row
        → AreAlike one.row other.row → one.variables ≡ other.variables
        → LieWithin boxes one.variables → shape_of (domains_in one) tree ≡ Ok shape → IsAround shape around
        → StoreSame one.row other.row (reach_of (domains_in one) boxes tree around) → IsIn p around
        → cell_at one tree p ≡ cell_at other tree p }
{}
