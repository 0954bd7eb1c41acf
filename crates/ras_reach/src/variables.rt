//! The variables in scope, each with the box in which its point lies.
ghost use Rattle.std.specs.Prelude.{◌≡◌, ◌++◌, ◌∷◌, IfOk, OnOk};
ghost use Rattle.spec_expressions.specs.Reach.{box_named as box_named_in};
ghost use Rattle.ras_reach.specs.Variables.{variable_box, variable_boxes};

use ras_domain::{Interval, Name};
use std::alloc::{AllocError, Global};

/// A variable of an `marray` or a `condense`.
#[derive(Drop)]
pub(crate) struct Variable {
    name: Name,
    axes: Vec<Interval>,
}

/// A variable of this name. The error is want of memory.
fn make_variable(alloc: Global, name: &Name, axes: &[Interval]) -> Result<Variable, AllocError>
    ensures { IfOk result (λ made. variable_box made ≡ (name.now, axes.now)) }
{
    let name = name.try_clone(alloc)?;
    let axes = Vec::from_slice(alloc, axes)?;
    Ok(Variable { name, axes })
}

/// Puts copies of the variables at the end. The error is want of memory.
#[tactic(auto, using(crate::proofs::VariablesSeen::copying))]
fn push_copies(
    alloc: Global,
    variables: &[Variable],
    all: &mut Vec<Variable>,
) -> Result<(), AllocError>
    ensures { OnOk result (variable_boxes all.new.items ≡ variable_boxes all.old.items ++ variable_boxes variables.now) }
{
    let [first, others @ ..] = variables else {
        return Ok(());
    };
    all.push(make_variable(alloc, &first.name, &first.axes)?)?;
    push_copies(alloc, others, all)
}

/// The variables with one more, which is the innermost. The error is want of memory.
#[tactic(auto, using(crate::proofs::VariablesSeen::copying))]
pub(crate) fn with_variable(
    alloc: Global,
    name: &Name,
    axes: &[Interval],
    outer: &[Variable],
) -> Result<Vec<Variable>, AllocError>
    ensures { IfOk result (λ all. variable_boxes all.items ≡ (name.now, axes.now) ∷ variable_boxes outer.now) }
{
    let mut all = Vec::new(alloc);
    all.push(make_variable(alloc, name, axes)?)?;
    push_copies(alloc, outer, &mut all)?;
    Ok(all)
}

/// The box of the innermost variable of this name, and no intervals where there is none.
#[tactic(auto, using(crate::proofs::VariablesSeen::named_loops))]
pub(crate) fn box_named<'a>(variables: &'a [Variable], name: &Name) -> &'a [Interval]
    ensures { result.now ≡ box_named_in (variable_boxes variables.now) name.now }
{
    for variable in variables {
        if name == &variable.name {
            return variable.axes.as_slice();
        }
    }
    &[]
}
