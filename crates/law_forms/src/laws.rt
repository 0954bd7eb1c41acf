//! Laws of forms. Each is the contract of a function that does nothing.
ghost use Rattle.std.specs.Prelude.{◌≡◌, List, Ok};
ghost use Rattle.ras_syntax.specs.declared.span.Span.{Span};
ghost use Rattle.ras_syntax.specs.declared.typed.Kind.{Kind};
ghost use Rattle.ras_syntax.specs.declared.typed.CheckedSource.{CheckedSource};
ghost use Rattle.spec_expressions.specs.Tree.{Form, node};
ghost use Rattle.spec_expressions.specs.WellTyped.{Variables, HasKind};
ghost use Rattle.spec_expressions.specs.Shape.{Box, Shape, shape_of};
ghost use Rattle.spec_expressions.specs.Fits.{AreDomainsOf};
ghost use Rattle.law_forms.specs.FormKinds.{HasPartKinds};
ghost use Rattle.law_forms.specs.FormShapes.{HasPartShapes};

/// The parts of an expression that keeps the rules of types have the types and the numbers of axes that the rule of its form
/// asks for.
pub fn forms_tell_the_kinds_of_their_parts()
    ensures { (sources : List CheckedSource) (variables : Variables) (kind : Kind) (form : Form)
        → HasKind sources variables kind form → HasPartKinds kind form }
{}

/// The parts of an expression that keeps the rules of types and has a shape have shapes: an operand is one cell or has the
/// whole's box, what an array is made of is an array with as many axes as its kind says, and positions, bounds, offsets,
/// conditions and bodies are one cell each.
pub fn forms_tell_the_shapes_of_their_parts()
    ensures { (sources : List CheckedSource) (variables : Variables) (domains : List Box) (span : Span) (kind : Kind)
        (form : Form) (shape : Shape)
        → HasKind sources variables kind form → AreDomainsOf sources domains
        → shape_of domains (node span kind form) ≡ Ok shape → HasPartShapes domains span form shape }
{}
