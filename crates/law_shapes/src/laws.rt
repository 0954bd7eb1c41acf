//! Laws of shapes. Each is the contract of a function that does nothing.
ghost use Rattle.std.specs.Prelude.{◌≡◌, List, Ok, All};
ghost use Rattle.ras_syntax.specs.declared.typed.CheckedSource.{CheckedSource};
ghost use Rattle.spec_expressions.specs.Tree.{Tree};
ghost use Rattle.spec_expressions.specs.WellTyped.{Variables, IsWellTyped, kind_in};
ghost use Rattle.spec_expressions.specs.Shape.{Box, Shape, box_of, shape_of};
ghost use Rattle.spec_expressions.specs.Fits.{IsSound, AreDomainsOf, IsShapeOf};

/// Over arrays with bounds of 32 bits and at most 2^24 points, each expression whose shape has no fault is an array, a domain
/// or a number of such bounds and so few points, whether or not it keeps the rules of types.
pub fn shapes_are_sound()
    ensures { (domains : List Box) (tree : Tree) (shape : Shape)
        → All IsSound domains → shape_of domains tree ≡ Ok shape → IsSound (box_of shape) }
{}

/// An expression that keeps the rules of types has the shape that its type says: an array has so many axes and at most 2^24
/// stored numbers, a domain has so many axes, and a number or a point has no box.
pub fn shapes_agree_with_kinds()
    ensures { (sources : List CheckedSource) (variables : Variables) (domains : List Box) (tree : Tree) (shape : Shape)
        → IsWellTyped sources variables tree → AreDomainsOf sources domains → shape_of domains tree ≡ Ok shape
        → IsShapeOf (kind_in tree) shape }
{}
