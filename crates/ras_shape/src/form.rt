//! What an expression stands for, and why it stands for nothing.
ghost use Rattle.std.specs.Prelude.{◌≡◌, Ok, IsOk};
ghost use Rattle.ras_domain.specs.Region.{IsRegion};
ghost use Rattle.ras_shape.specs.Gives.{shape_of_form, GivesBox};
ghost use Rattle.ras_shape.specs.declared.form.ShapeError.TheVariants.{Fault, Memory};
ghost use Rattle.spec_expressions.specs.Shape.{box_of};
ghost use Rattle.spec_expressions.specs.Fits.{IsSound};

use ras_domain::{Interval, Region};
use ras_syntax::{ShapeFault, Span};
use std::alloc::{AllocError, AllocFailed};

/// What an expression stands for.
#[derive(Debug, PartialEq, Eq, Drop)]
pub enum Form {
    /// One cell.
    Scalar,
    /// An array with a cell at each of these points.
    Array(Region),
    /// A domain, which is a value of its own.
    Domain(Region),
}

/// Why an expression has no shape.
#[derive(Clone, Copy, Debug, PartialEq, Eq)]
pub enum ShapeError {
    /// The part of the text at `span` has this fault.
    Fault { span: Span, fault: ShapeFault },
    /// There is not enough memory.
    Memory,
}

impl From<AllocError> for ShapeError {
    ghost from_gives = { λ _ e. e ≡ Memory };

    fn from(_: AllocError) -> ShapeError {
        ShapeError::Memory
    }
}

impl<T: Drop> From<AllocFailed<T>> for ShapeError {
    ghost from_gives = { λ _ e. e ≡ Memory };

    fn from(_: AllocFailed<T>) -> ShapeError {
        ShapeError::Memory
    }
}

impl Form {
    /// The intervals of an array or a domain, first axis first. A scalar has none.
    #[tactic(auto, using(crate::proofs::Volumes::sound_region))]
    pub fn axes(&self) -> &[Interval]
        ensures axes { result.now ≡ box_of (shape_of_form self.now) }
        ensures sound { IsSound result.now }
    {
        match self {
            Form::Scalar => &[],
            Form::Array(region) | Form::Domain(region) => region.axes(),
        }
    }
}

/// The region of these intervals. Where they are no region's, the answer is the same as for want of
/// memory.
pub(crate) fn region_of(axes: &[Interval]) -> Result<Region, ShapeError>
    ensures form { GivesBox (Ok axes.now) result }
    ensures region { IsRegion axes.now → IsOk result }
{
    match Region::new(axes) {
        Ok(region) => Ok(region),
        Err(_) => Err(ShapeError::Memory),
    }
}

/// A fault at this part of the text.
pub(crate) fn fault_at(span: Span, fault: ShapeFault) -> ShapeError
    ensures { result ≡ Fault span fault }
{
    ShapeError::Fault { span, fault }
}
