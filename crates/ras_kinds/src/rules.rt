//! What all rules go by: which of their faults comes first, and the kind that operands have together.
ghost use Rattle.std.specs.Prelude.{◌≡◌, List};
ghost use Rattle.ras_syntax.specs.declared.typed.Kind.{Kind as KindSeen};
ghost use Rattle.spec_expressions.specs.Kinds as spec;
ghost use Rattle.ras_kinds.specs.Joint.{joint_of, joint_with, joint_with_axes};

use ras_cells::CellType;
use ras_syntax::{CheckFault, Kind};

/// The value, or the first fault in this order: the types don't fit, the numbers of axes don't fit,
/// a bound varies.
pub fn by_rules<A: Drop>(
    types_fit: bool,
    axes_fit: bool,
    is_fixed: bool,
    a: A,
) -> Result<A, CheckFault>
    ensures { result ≡ spec.by_rules types_fit axes_fit is_fixed a }
{
    if !types_fit {
        return Err(CheckFault::TypeMismatch);
    }
    if !axes_fit {
        return Err(CheckFault::DimensionMismatch);
    }
    if !is_fixed {
        return Err(CheckFault::VariableDomain);
    }
    Ok(a)
}

/// A scalar of this type.
pub(crate) fn scalar_kind(cell: Option<CellType>) -> Result<Kind, CheckFault>
    ensures { result ≡ spec.scalar_kind cell }
{
    match cell {
        None => Err(CheckFault::TypeMismatch),
        Some(cell) => Ok(Kind::Scalar(cell)),
    }
}

/// How many axes the arrays among operands have.
#[derive(Clone, Copy)]
pub(crate) enum Joint {
    /// No operand is an array.
    NoArray,
    /// All arrays have so many.
    Equal { axes: u32 },
    /// They differ.
    Differing,
}

impl Joint {
    /// The same with one more operand.
    pub(crate) fn with(self, kind: &Kind) -> Joint
        ensures { result ≡ joint_with self kind.now }
    {
        match kind {
            Kind::Array { cell: _, axes } => self.with_axes(*axes),
            _ => self,
        }
    }

    /// The same with an array of so many axes.
    fn with_axes(self, axes: u32) -> Joint
        ensures { result ≡ joint_with_axes self axes }
    {
        match self {
            Joint::NoArray => Joint::Equal { axes },
            Joint::Equal { axes: others } if axes == others => self,
            _ => Joint::Differing,
        }
    }

    /// The kind of operands whose cells together give this type: an array where one of them is.
    #[tactic(auto, using(crate::proofs::Joints::common_kind_joint))]
    pub(crate) fn kind(self, cell: Option<CellType>) -> Result<Kind, CheckFault>
        ensures { (kinds : List KindSeen) → self ≡ joint_of kinds → result ≡ spec.common_kind cell kinds }
    {
        let Some(cell) = cell else {
            return Err(CheckFault::TypeMismatch);
        };
        match self {
            Joint::NoArray => Ok(Kind::Scalar(cell)),
            Joint::Equal { axes } => Ok(Kind::Array { cell, axes }),
            Joint::Differing => Err(CheckFault::DimensionMismatch),
        }
    }
}
