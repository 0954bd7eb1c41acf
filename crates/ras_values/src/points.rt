//! The points of the variables in scope.
ghost use Rattle.std.specs.Prelude.{◌≡◌, ◌-◌, [], ◌∷◌, ◌++◌, length, take, slice_get, option_map, OnOk, OnErr};
ghost use Rattle.ras_values.specs.Given.{point_seen};

use ras_domain::Point;
use std::alloc::{AllocError, AllocFailed, Global};
use std::marker::Model;

/// The points that the variables in scope stand for. Contracts see them as a list, the outermost
/// variable's first.
#[derive(Drop)]
pub struct Points {
    points: Vec<Point>,
}

impl Model for Points {
    ghost use Rattle.std.specs.Prelude.{List, ℤ, map};

    ghost Value = { List (List ℤ) };

    ghost view = { λ s. map (λ p. p.items) s.points.items };
}

impl Points {
    /// No point. It takes no memory.
    pub fn new(alloc: Global) -> Points
        ensures { result ≡ [] }
    {
        Points {
            points: Vec::new(alloc),
        }
    }

    /// Brings a variable into scope that stands for this point. Where memory is wanting, all stays as it
    /// was.
    pub fn enter(&mut self, p: &Point) -> Result<(), AllocError>
        ensures ok { OnOk result (self.new ≡ self.old ++ p.now.items ∷ []) }
        ensures err { OnErr result (self.new ≡ self.old) }
    {
        match self.points.push(copy_of(p)) {
            Ok(()) => Ok(()),
            Err(AllocFailed { .. }) => Err(AllocError),
        }
    }

    /// Takes the innermost variable out of scope.
    pub fn leave(&mut self)
        ensures { self.new ≡ take (length self.old - 1) self.old }
    {
        let _ = self.points.pop();
    }

    /// The point of the variable at this place, counted from the outermost one.
    pub fn get(&self, variable: usize) -> Option<&Point>
        ensures { option_map (λ p. p.now.items) result ≡ slice_get self.now variable }
    {
        self.points.get(variable)
    }
}

/// An equal point.
pub(crate) fn copy_of(p: &Point) -> Point
    ensures { result ≡ p.now }
{
    Point::try_from(p.as_slice()).unwrap()
}

/// An equal point, where there is one.
pub(crate) fn copied(p: Option<&Point>) -> Option<Point>
    ensures { point_seen result ≡ option_map (λ p. p.now.items) p.entry }
{
    match p {
        Some(p) => Some(copy_of(p)),
        None => None,
    }
}
