//! The names of locks in their order.
ghost use Rattle.std.specs.Prelude.{◌≡◌};
ghost use Rattle.ras_reach.specs.Keys.{lock_key, name_of_key};

use ras_domain::{LockName, Name, Point};

/// The level of a collection, above that of domains.
const COLLECTION: u8 = 0;

/// The level of a domain, above that of tiles.
const DOMAIN: u8 = 1;

/// The level of a tile.
const TILE: u8 = 2;

/// A lock's name by the parts by which names are ordered.
#[derive(PartialEq, Eq, PartialOrd, Ord, Drop)]
pub(crate) struct LockKey {
    collection: Name,
    /// Whether it is a collection, a domain or a tile.
    level: u8,
    /// 0 for a collection.
    oid: u64,
    /// Empty but for a tile.
    place: Point,
}

/// The key of a name.
pub(crate) fn key_of(name: LockName) -> LockKey
    ensures { result ≡ lock_key name }
{
    match name {
        LockName::Collection(collection) => LockKey {
            collection,
            level: COLLECTION,
            oid: 0,
            place: Point::new(),
        },
        LockName::Domain(collection, oid) => LockKey {
            collection,
            level: DOMAIN,
            oid,
            place: Point::new(),
        },
        LockName::Tile(collection, oid, place) => LockKey {
            collection,
            level: TILE,
            oid,
            place,
        },
    }
}

/// The name that has a key.
pub(crate) fn name_of(key: LockKey) -> LockName
    ensures { result ≡ name_of_key key }
{
    let LockKey {
        collection,
        level,
        oid,
        place,
    } = key;
    if level == COLLECTION {
        return LockName::Collection(collection);
    }
    if level == DOMAIN {
        return LockName::Domain(collection, oid);
    }
    LockName::Tile(collection, oid, place)
}
