//! The sources of a statement, and the names of their iterators.
ghost use Rattle.std.specs.Prelude.{◌≡◌, [], map};
ghost use Rattle.spec_statements.specs.CheckStatement as spec;
ghost use Rattle.ras_catalog.specs.Outcome.{IsChecked, passed, unit_of};

use crate::catalog::Catalog;
use crate::fault::CheckError;
use ras_domain::{List, Name};
use ras_syntax::{CheckFault, CheckedSource, SourceName, Spanned};
use std::alloc::Global;
use std::collections::BTreeSet;

/// The iterator of a source. Without `as` it has the collection's name.
fn iterator_of(source: &SourceName) -> &Spanned
    ensures { result.now ≡ spec.iterator_of source.now }
{
    match &source.iterator {
        Some(iterator) => iterator,
        None => &source.collection,
    }
}

impl<'a> Catalog<'a> {
    /// A source with its type, or that there is no such collection, at the collection's name.
    #[tactic(auto, using(crate::proofs::Kept::source_known, crate::proofs::Kept::source_unknown))]
    pub fn known_source(
        &self,
        alloc: Global,
        source: &SourceName,
    ) -> Result<CheckedSource, CheckError>
        ensures { IsChecked (spec.known_source self.now source.now) result }
    {
        let of = self.known_collection(alloc, &source.collection)?;
        let collection = source.collection.name.try_clone(alloc)?;
        let iterator = iterator_of(source).name.try_clone(alloc)?;
        Ok(CheckedSource {
            collection,
            iterator,
            of,
        })
    }

    /// The sources in order, or the first fault.
    pub fn known_sources(
        &self,
        alloc: Global,
        sources: &[SourceName],
    ) -> Result<List<CheckedSource>, CheckError>
        ensures { IsChecked (spec.known_sources self.now sources.now) result }
    {
        let mut all = List::new(alloc);
        for source in sources {
            let known = self.known_source(alloc, source)?;
            let Ok(()) = all.push(alloc, known) else {
                return Err(CheckError::Memory);
            };
        }
        Ok(all)
    }
}

/// Whether each iterator has a name of its own. Else the fault is at the second one of a name.
pub fn once_each(alloc: Global, sources: &[SourceName]) -> Result<(), CheckError>
    ensures { IsChecked (unit_of (spec.once_each [] (map spec.iterator_of sources.now))) result }
{
    let mut seen = BTreeSet::new(alloc);
    for source in sources {
        let iterator = iterator_of(source);
        let Ok(is_new) = seen.insert(iterator.name.bytes()) else {
            return Err(CheckError::Memory);
        };
        if !is_new {
            return Err(CheckError::Fault {
                span: iterator.span,
                fault: CheckFault::DoubleName,
            });
        }
    }
    Ok(())
}

/// Whether the name after `set` is the iterator's.
pub fn same_iterator(set: &Spanned, iterator: &Name) -> Result<(), CheckError>
    ensures { IsChecked (spec.same_iterator set.now iterator.now) (passed iterator.now result) }
{
    if &set.name == iterator {
        return Ok(());
    }
    Err(CheckError::Fault {
        span: set.span,
        fault: CheckFault::NoIterator,
    })
}
