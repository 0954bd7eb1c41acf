//! The names of components.
ghost use Rattle.std.specs.Prelude.{◌≡◌, position};
ghost use Rattle.spec_expressions.specs.Tree.{tree_of};
ghost use Rattle.spec_expressions.specs.Names.{names_from, names_of as names_of_tree, place_among as place_among_names};
ghost use Rattle.ras_kinds.specs.NamesSeen.{is_name_seen};

use ras_domain::Name;
use ras_syntax::{CheckedSource, TypedExpr, TypedForm};

/// The names of the components of a source's cells.
#[tactic(auto, using(crate::proofs::TreeNames::names_at, crate::proofs::TreeNames::names_past))]
fn source_names(sources: &[CheckedSource], place: u32) -> &[Name]
    ensures { result.now ≡ names_from place sources.now }
{
    match sources.get(place as usize) {
        Some(source) => source.of.names.as_slice(),
        None => &[],
    }
}

/// The names of an expression's components. An iterator has its set type's, `{..}` has none, and any
/// other form with composite cells has those of its first part with composite cells.
#[tactic(auto, using(crate::proofs::TreeNames::part_names))]
pub fn names_of<'s>(sources: &'s [CheckedSource], e: &TypedExpr) -> &'s [Name]
    ensures { result.now ≡ names_of_tree sources.now (tree_of e.now) }
{
    match &e.form {
        TypedForm::Iterator { name: _, place } => source_names(sources, *place),
        TypedForm::Binary { op: _, a, b: _ } => names_of(sources, a.get()),
        TypedForm::Index { e, axes: _ } => names_of(sources, e.get()),
        TypedForm::Marray { x: _, domain: _, e } => names_of(sources, e.get()),
        TypedForm::Shift { e, offsets: _ } => names_of(sources, e.get()),
        TypedForm::Extend { e, domain: _ } => names_of(sources, e.get()),
        TypedForm::Case { arms, other } => match arms.as_slice() {
            [first, ..] => names_of(sources, &first.1),
            [] => names_of(sources, other.get()),
        },
        TypedForm::Concat { parts, along: _ } => match parts.as_slice() {
            [first, ..] => names_of(sources, first),
            [] => &[],
        },
        TypedForm::Bool(_)
        | TypedForm::Number { value: _, atom: _ }
        | TypedForm::Variable(_)
        | TypedForm::Unary { op: _, e: _ }
        | TypedForm::Cast { to: _, e: _ }
        | TypedForm::Part { e: _, part: _ }
        | TypedForm::Build(_)
        | TypedForm::Condense {
            op: _,
            x: _,
            domain: _,
            cond: _,
            e: _,
        }
        | TypedForm::Cells { f: _, e: _ }
        | TypedForm::Sdom(_)
        | TypedForm::Oid(_) => &[],
    }
}

/// Whether the names are the same.
#[tactic(auto, unfolding(crate::specs::NamesSeen::is_name_seen))]
fn is_name(name: &Name, other: &Name) -> bool
    ensures { result ≡ is_name_seen name.now other.now }
{
    name == other
}

/// The first place of a name in a list of names.
fn first_place(name: &Name, names: &[Name]) -> Option<usize>
    ensures { result ≡ position (is_name_seen name.now) names.now }
{
    names.iter().position(|other| is_name(name, other))
}

/// The place of a name in a list of names.
#[tactic(auto, using(crate::proofs::TreeNames::place_among_is))]
pub(crate) fn place_among(name: &Name, names: &[Name]) -> Option<usize>
    ensures { result ≡ place_among_names name.now names.now }
{
    first_place(name, names)
}
