//! What is known of an expression's cells before they are computed.
ghost use Rattle.std.specs.Prelude.{◌≡◌, IsTrue, ℤ, List, Ok, All};
ghost use Rattle.arrayvec.specs.ArrayVec.{ArrayVec};
ghost use Rattle.ras_cells.specs.Atoms.{IsInRange};
ghost use Rattle.ras_cells.specs.Cells.{only};
ghost use Rattle.ras_cells.specs.declared.atom.Atom.TheVariants.{Long};
ghost use Rattle.ras_cells.specs.declared.cell.Cell.{Cell};
ghost use Rattle.ras_cells.specs.declared.cell.Cell.TheVariants.{Value};
ghost use Rattle.ras_syntax.specs.declared.typed.CheckedSource.{CheckedSource};
ghost use Rattle.spec_expressions.specs.Eval.{Environment, cell_at, domains_in};
ghost use Rattle.spec_expressions.specs.Fits.{AreMembersOf, IsBoundedBy, IsCellOfKind, IsPointOf, LieWithin};
ghost use Rattle.spec_expressions.specs.Kinds.{is_scalar_number};
ghost use Rattle.spec_expressions.specs.Reach.{Boxes, number_bound};
ghost use Rattle.spec_expressions.specs.Shape.{Shape, shape_of};
ghost use Rattle.spec_expressions.specs.Tree.{Tree};
ghost use Rattle.spec_expressions.specs.WellTyped.{IsWellTyped, Variables, kind_in};

/// A cell that an expression has, where its variables stand for points with coordinates of 32 bits, is one of the expression's
/// type: null, or a number for each component, in the range of the component's type.
pub fn cells_are_of_their_kind()
    ensures { (sources : List CheckedSource) (variables : Variables) (scope : Environment) (tree : Tree) (shape : Shape)
        (p : List ℤ) (cell : Cell)
        → IsWellTyped sources variables tree → AreMembersOf sources scope.row
        → All (λ x. All (IsInRange Long) x.1) scope.variables
        → shape_of (domains_in scope) tree ≡ Ok shape → IsPointOf shape p
        → cell_at scope tree p ≡ Ok cell → IsCellOfKind (kind_in tree) cell }
{}

/// The number of a scalar expression, where it isn't null, lies in the interval that is found for the expression without
/// looking at a cell.
pub fn numbers_lie_within_their_bounds()
    ensures { (sources : List CheckedSource) (variables : Variables) (boxes : Boxes) (scope : Environment) (tree : Tree)
        (shape : Shape) (p : List ℤ) (numbers : ArrayVec ℤ)
        → IsWellTyped sources variables tree → AreMembersOf sources scope.row
        → LieWithin boxes scope.variables → shape_of (domains_in scope) tree ≡ Ok shape → IsPointOf shape p
        → IsTrue (is_scalar_number (kind_in tree)) → cell_at scope tree p ≡ Ok (Value numbers)
        → IsBoundedBy (number_bound (domains_in scope) boxes tree) (only numbers.items) }
{}
