//! Laws of the definitions, each the contract of a function that does nothing.
ghost use Rattle.std.specs.Prelude.{◌≡◌, ◌⊎◌, ℕ, ℤ, pos, List, Result, All, IsPermutation};
ghost use Rattle.ras_cells.specs.declared.cell.Cell.{Cell};
ghost use Rattle.ras_cells.specs.declared.cell.CellFault.{CellFault};
ghost use Rattle.ras_syntax.specs.declared.expr.CellsFold.TheVariants.{Count};
ghost use Rattle.ras_syntax.specs.declared.expr.FoldOp.{FoldOp};
ghost use Rattle.ras_syntax.specs.declared.expr.FoldOp.TheVariants.{Plus};
ghost use Rattle.spec_expressions.specs.Fold.{cells_folded_of, fold_of, folded_of};
ghost use Rattle.ras_fold.specs.Outcomes.{faults_among, numbers_among};
ghost use Rattle.ras_fold.specs.Summary.{Placed, closed_of};

/// The outcomes at the points of a fold are listed in row-major order. Their numbers may be added
/// in any order and grouping, and so may their faults with their places: what is closed in the end
/// is the fold of the list.
pub fn outcomes_fold_in_any_order()
    ensures { (op : FoldOp) (outcomes : List (Result Cell CellFault)) (first : ℕ)
        (numbers : List ℤ) (faults : List Placed)
        → IsPermutation (numbers_among outcomes) numbers
        → IsPermutation (faults_among first outcomes) faults
        → closed_of op numbers faults ≡ fold_of op outcomes }
{}

/// The count of the true cells is the sum of the truth values.
pub fn true_cells_are_counted_by_a_sum()
    ensures { (zs : List ℤ) → All (λ z. (z ≡ pos 0) ⊎ (z ≡ pos 1)) zs
        → cells_folded_of Count zs ≡ folded_of Plus zs }
{}
