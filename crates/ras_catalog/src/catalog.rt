//! The types and the collections that a statement may name.
ghost use Rattle.std.specs.Prelude.{◌≡◌, IfOk, OnOk, is_some, map};
ghost use Rattle.std.specs.Option.{option_copied};
ghost use Rattle.std.specs.Map.{lookup};
ghost use Rattle.spec_expressions.specs.Tree.{is_same_name};
ghost use Rattle.spec_expressions.specs.Names.{place_among};
ghost use Rattle.spec_statements.specs.CheckStatement as spec;
ghost use Rattle.ras_catalog.specs.CatalogView.{HasTypesFrom, PutsPlace, catalog_over};
ghost use Rattle.ras_catalog.specs.Outcome.{IsChecked, unit_of};

use crate::copies::copy_of_set_type;
use crate::fault::CheckError;
use ras_domain::Name;
use ras_syntax::{CheckFault, SetType, Spanned, Types};
use std::alloc::{AllocError, Global};
use std::collections::BTreeMap;
use std::marker::Model;

/// The types, and the collections with the places of their types. Contracts see the definitions'
/// catalog of them.
#[derive(Drop)]
pub struct Catalog<'a> {
    types: &'a Types,
    collections: &'a [(Name, Option<u32>)],
    places: BTreeMap<&'a [u8], u32>,
}

impl<'a> Model for Catalog<'a> {
    ghost use Rattle.spec_statements.specs.CheckStatement as statements;

    ghost Value = { statements.Catalog };

    ghost use Rattle.ras_catalog.specs.CatalogView.{catalog_seen, IsCatalog};

    ghost view = { catalog_seen };

    ghost invariant = { IsCatalog };
}

/// Puts the place of a collection's type under the collection's name, where it has one.
fn put<'a>(
    places: &mut BTreeMap<&'a [u8], u32>,
    entry: &'a (Name, Option<u32>),
) -> Result<(), AllocError>
    ensures { OnOk result (PutsPlace places.old places.new entry.now.0 entry.now.1) }
{
    match entry.1 {
        None => Ok(()),
        Some(place) => match places.insert(entry.0.bytes(), place) {
            Ok(_) => Ok(()),
            Err(_) => Err(AllocError),
        },
    }
}

/// The places of the types by the collections' names. It goes from the last one to the first, so
/// that of two of one name the first would count.
fn places_of<'a>(
    alloc: Global,
    collections: &'a [(Name, Option<u32>)],
) -> Result<BTreeMap<&'a [u8], u32>, AllocError>
    ensures { IfOk result (λ places. HasTypesFrom 0 places collections.now) }
{
    let mut places = BTreeMap::new(alloc);
    let mut left = collections.len();
    while left > 0 {
        left -= 1;
        put(&mut places, &collections[left])?;
    }
    Ok(places)
}

/// The place of the first type of this name.
fn type_named(types: &Types, name: &Name) -> Option<usize>
    ensures { result ≡ place_among name.now (map (λ of. of.name) types.now) }
{
    let count = types.len();
    let mut place = 0;
    while place < count {
        let of = types.get(place);
        if name == &of.name {
            return Some(place);
        }
        place += 1;
    }
    None
}

impl<'a> Catalog<'a> {
    /// The catalog of these types and collections. A number is the place of a collection's type; a
    /// name without one is of no collection. The error is want of memory.
    pub fn of(
        alloc: Global,
        types: &'a Types,
        collections: &'a [(Name, Option<u32>)],
    ) -> Result<Catalog<'a>, AllocError>
        ensures { IfOk result (λ catalog. catalog ≡ catalog_over types.now collections.now) }
    {
        let places = places_of(alloc, collections)?;
        Ok(Catalog {
            types,
            collections,
            places,
        })
    }

    /// The place of a collection's type among the types.
    fn place_of(&self, name: &Name) -> Option<u32>
        ensures { result ≡ lookup (is_same_name name.now) self.now.collections }
    {
        self.places.get(name.bytes()).copied()
    }

    /// The types.
    fn types(&self) -> &'a Types
        ensures { result.now ≡ self.now.types }
    {
        self.types
    }

    /// The type of a collection.
    fn type_of(&self, name: &Name) -> Option<&'a SetType>
        ensures { option_copied result ≡ spec.collection_type self.now name.now }
    {
        let place = self.place_of(name)? as usize;
        let types = self.types();
        if place < types.len() {
            Some(types.get(place))
        } else {
            None
        }
    }

    /// A copy of the type of a collection, or that there is no such collection, at the name.
    pub fn known_collection(&self, alloc: Global, name: &Spanned) -> Result<SetType, CheckError>
        ensures { IsChecked (spec.known_collection self.now name.now) result }
    {
        match self.type_of(&name.name) {
            Some(of) => Ok(copy_of_set_type(alloc, of)?),
            None => Err(CheckError::Fault {
                span: name.span,
                fault: CheckFault::NoCollection,
            }),
        }
    }

    /// The same without the type.
    pub fn has_collection(&self, name: &Spanned) -> Result<(), CheckError>
        ensures { IsChecked (unit_of (spec.known_collection self.now name.now)) result }
    {
        match self.type_of(&name.name) {
            Some(_) => Ok(()),
            None => Err(CheckError::Fault {
                span: name.span,
                fault: CheckFault::NoCollection,
            }),
        }
    }

    /// A copy of the name of a collection that is not there yet, or that it is there, at the name.
    pub fn new_collection(&self, alloc: Global, name: &Spanned) -> Result<Name, CheckError>
        ensures { IsChecked (spec.new_collection self.now name.now) result }
    {
        if self.type_of(&name.name).is_some() {
            return Err(CheckError::Fault {
                span: name.span,
                fault: CheckFault::CollectionExists,
            });
        }
        Ok(name.name.try_clone(alloc)?)
    }

    /// The place of a type among the types, counted from 0, or that there is no such type, at the
    /// name. A place that no `u32` holds counts as want of memory.
    pub fn known_type(&self, name: &Spanned) -> Result<u32, CheckError>
        ensures { IsChecked (spec.known_type self.now name.now) result }
    {
        let Some(place) = type_named(self.types(), &name.name) else {
            return Err(CheckError::Fault {
                span: name.span,
                fault: CheckFault::NoType,
            });
        };
        match u32::try_from(place) {
            Ok(place) => Ok(place),
            Err(_) => Err(CheckError::Memory),
        }
    }
}
