//! The collections that a statement names.
ghost use Rattle.std.specs.Prelude.{◌≡◌, ◌++◌, ◌∷◌, [], map, IfOk, OnOk};
ghost use Rattle.ras_named.specs.Places.{named_in, placed};

use crate::collections::Collections;
use ras_domain::Name;
use ras_syntax::{SourceName, StatementForm};
use std::alloc::{AllocError, Global};

/// Each collection that a form names, with the place of its type. The error is want of memory.
pub(crate) fn named<C: Collections>(
    alloc: Global,
    form: &StatementForm,
    collections: &C,
) -> Result<Vec<(Name, Option<u32>)>, AllocError>
    ensures { IfOk result (λ list. list.items ≡ placed (C.places collections.now) (named_in form.now)) }
{
    match form {
        StatementForm::Select {
            body: _,
            sources,
            cond: _,
        } => of_sources(alloc, sources.as_slice(), collections),
        StatementForm::Insert { into, body: _ } => one(alloc, &into.name, collections),
        StatementForm::Delete { source, cond: _ } => {
            one(alloc, &source.collection.name, collections)
        }
        StatementForm::Update {
            source,
            set: _,
            axes: _,
            target: _,
            body: _,
            cond: _,
        } => one(alloc, &source.collection.name, collections),
        StatementForm::Create { name, of: _ } => one(alloc, &name.name, collections),
        StatementForm::Drop { name } => one(alloc, &name.name, collections),
        StatementForm::Word(_) => Ok(Vec::new(alloc)),
    }
}

/// The collections of sources, one for each source.
fn of_sources<C: Collections>(
    alloc: Global,
    sources: &[SourceName],
    collections: &C,
) -> Result<Vec<(Name, Option<u32>)>, AllocError>
    ensures { IfOk result (λ list. list.items
        ≡ placed (C.places collections.now) (map (λ source. source.collection.name) sources.now)) }
{
    let mut list = Vec::new(alloc);
    for source in sources {
        put(alloc, &mut list, &source.collection.name, collections)?;
    }
    Ok(list)
}

/// One collection.
fn one<C: Collections>(
    alloc: Global,
    name: &Name,
    collections: &C,
) -> Result<Vec<(Name, Option<u32>)>, AllocError>
    ensures { IfOk result (λ list. list.items ≡ placed (C.places collections.now) (name.now ∷ [])) }
{
    let mut list = Vec::new(alloc);
    put(alloc, &mut list, name, collections)?;
    Ok(list)
}

/// Puts a collection at the end.
fn put<C: Collections>(
    alloc: Global,
    list: &mut Vec<(Name, Option<u32>)>,
    name: &Name,
    collections: &C,
) -> Result<(), AllocError>
    ensures { OnOk result (list.new.items ≡ list.old.items ++ (name.now, C.places collections.now name.now) ∷ []) }
{
    let place = collections.place_of(name);
    list.push((name.try_clone(alloc)?, place))?;
    Ok(())
}
