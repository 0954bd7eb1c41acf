//! The names of the variables in scope.
ghost use Rattle.std.specs.Prelude.{◌≡◌, ◌-◌, [], ◌∷◌, ◌++◌, length, map, take, OnOk, OnErr};
ghost use Rattle.ras_values.specs.Variables.{FindsVariable};

use ras_domain::Name;
use std::alloc::{AllocError, AllocFailed, Global};
use std::marker::Model;

/// The names of the variables in scope. Contracts see them as a list, the outermost first.
#[derive(Drop)]
pub struct Names<'a> {
    names: Vec<&'a Name>,
}

impl<'a> Model for Names<'a> {
    ghost use Rattle.std.specs.Prelude.{List, ℕ, map};

    ghost Value = { List (List ℕ) };

    ghost view = { λ s. map (λ name. name.now) s.names.items };
}

impl<'a> Names<'a> {
    /// No name. It takes no memory.
    pub fn new(alloc: Global) -> Names<'a>
        ensures { result ≡ [] }
    {
        Names {
            names: Vec::new(alloc),
        }
    }

    /// Brings a variable into scope. Where memory is wanting, all stays as it was.
    pub fn enter(&mut self, name: &'a Name) -> Result<(), AllocError>
        ensures ok { OnOk result (self.new ≡ self.old ++ name.now ∷ []) }
        ensures err { OnErr result (self.new ≡ self.old) }
    {
        match self.names.push(name) {
            Ok(()) => Ok(()),
            Err(AllocFailed { .. }) => Err(AllocError),
        }
    }

    /// Takes the innermost variable out of scope.
    pub fn leave(&mut self)
        ensures { self.new ≡ take (length self.old - 1) self.old }
    {
        let _ = self.names.pop();
    }

    /// The place of the innermost variable of this name, counted from the outermost one.
    pub fn place_of(&self, name: &Name) -> Option<usize>
        ensures { FindsVariable name.now self.now result }
    {
        innermost(self.names.as_slice(), name)
    }
}

/// The place of the last name that is this one.
#[tactic(auto, using(crate::proofs::Scopes::looked_loop))]
fn innermost(names: &[&Name], name: &Name) -> Option<usize>
    ensures { FindsVariable name.now (map (λ name. name.now) names.now) result }
{
    let mut left = names.len();
    while left > 0 {
        left -= 1;
        if name == names[left] {
            return Some(left);
        }
    }
    None
}
