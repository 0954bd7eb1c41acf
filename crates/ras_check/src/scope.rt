//! The names in scope.
ghost use Rattle.std.specs.Prelude.{◌≡◌, [], IfOk, OnOk, OnErr, option_map, option_copied};
ghost use Rattle.ras_check.specs.ScopeView.{place_seen, without_variable, variables_seen, Enters, HasPlacesFrom};
ghost use Rattle.std.specs.Map.{lookup};
ghost use Rattle.spec_expressions.specs.Tree.{is_same_name};
ghost use Rattle.spec_expressions.specs.Names.{is_in_scope, source_named, variable_axes, with_variable};

use ras_catalog::CheckError;
use ras_domain::Name;
use ras_syntax::CheckedSource;
use std::alloc::{AllocError, AllocFailed, Global};
use std::collections::BTreeMap;
use std::marker::Model;

/// A variable of an `marray` or a `condense`, with its number of axes.
#[derive(Clone, Copy)]
struct Variable<'a> {
    name: &'a Name,
    axes: u32,
}

/// A source with its place among the statement's sources, counted from 0.
#[derive(Clone, Copy)]
pub struct Place<'a> {
    pub at: u32,
    pub source: &'a CheckedSource,
}

/// The names that an expression may use: the statement's iterators, and the variables of what it stands in.
#[derive(Drop)]
pub struct Scope<'a> {
    sources: &'a [CheckedSource],
    places: BTreeMap<&'a [u8], Place<'a>>,
    /// The outermost one first.
    variables: Vec<Variable<'a>>,
}

impl<'a> Model for Scope<'a> {
    ghost use Rattle.spec_expressions.specs.Names as names;

    ghost Value = { names.Scope };

    ghost use Rattle.ras_check.specs.ScopeView.{scope_seen, IsScope};

    ghost view = { scope_seen };

    ghost invariant = { IsScope };
}

/// The sources by their iterators' names; of two with one name the first counts.
fn places_of<'a>(
    alloc: Global,
    sources: &'a [CheckedSource],
) -> Result<BTreeMap<&'a [u8], Place<'a>>, AllocError>
    ensures { IfOk result (λ places. HasPlacesFrom 0 places sources.now) }
{
    let mut places = BTreeMap::new(alloc);
    let mut left = sources.len();
    while left > 0 {
        left -= 1;
        let source = &sources[left];
        let Ok(at) = u32::try_from(left) else {
            return Err(AllocError);
        };
        let Ok(_) = places.insert(source.iterator.bytes(), Place { at, source }) else {
            return Err(AllocError);
        };
    }
    Ok(places)
}

/// How many axes the innermost variable of this name has.
fn innermost(variables: &[Variable<'_>], name: &Name) -> Option<u32>
    ensures { result ≡ lookup (is_same_name name.now) (variables_seen variables.now) }
{
    let mut left = variables.len();
    while left > 0 {
        left -= 1;
        let variable = variables[left];
        if name == variable.name {
            return Some(variable.axes);
        }
    }
    None
}

impl<'a> Scope<'a> {
    /// The statement's sources, and no variable yet. The error is want of memory.
    pub fn of_sources(alloc: Global, sources: &'a [CheckedSource]) -> Result<Scope<'a>, AllocError>
        ensures { IfOk result (λ scope. scope ≡ record { sources = sources.now; variables = [] }) }
    {
        let places = places_of(alloc, sources)?;
        Ok(Scope {
            sources,
            places,
            variables: Vec::new(alloc),
        })
    }

    /// The statement's sources.
    pub fn sources(&self) -> &'a [CheckedSource]
        ensures { result.now ≡ self.now.sources }
    {
        self.sources
    }

    /// How many axes the variable of this name has.
    pub fn variable(&self, name: &Name) -> Option<u32>
        ensures { result ≡ variable_axes self.now name.now }
    {
        innermost(self.variables.as_slice(), name)
    }

    /// The source whose iterator has this name.
    pub fn source(&self, name: &Name) -> Option<Place<'a>>
        ensures { option_map place_seen result ≡ source_named self.now name.now }
    {
        self.places.get(name.bytes()).copied()
    }

    /// Whether an iterator or a variable has this name.
    pub fn has(&self, name: &Name) -> bool
        ensures { result ≡ is_in_scope self.now name.now }
    {
        self.variable(name).is_some() || self.source(name).is_some()
    }

    /// Brings a variable into scope. Where memory is wanting, the scope stays as it was.
    pub fn enter(&mut self, name: &'a Name, axes: u32) -> Result<(), AllocError>
        ensures ok { OnOk result (self.new ≡ with_variable name.now axes self.old) }
        ensures err { OnErr result (self.new ≡ self.old) }
    {
        match self.variables.push(Variable { name, axes }) {
            Ok(()) => Ok(()),
            Err(AllocFailed { .. }) => Err(AllocError),
        }
    }

    /// Brings a variable into scope, where its number of axes is known.
    pub(crate) fn enter_counted(
        &mut self,
        name: &'a Name,
        axes: Result<u32, CheckError>,
    ) -> Result<(), CheckError>
        ensures { Enters name.now self.old axes result self.new }
    {
        let axes = axes?;
        Ok(self.enter(name, axes)?)
    }

    /// Takes the innermost variable out of scope.
    pub fn leave(&mut self)
        ensures { self.new ≡ without_variable self.old }
    {
        let _ = self.variables.pop();
    }
}
