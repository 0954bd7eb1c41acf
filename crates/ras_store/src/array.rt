//! What is kept of one array.
ghost use Rattle.std.specs.Prelude.{◌≡◌, false, IfOk};
ghost use Rattle.ras_index.specs.Index.{IsReady};
ghost use Rattle.ras_store.specs.Kept.{IsEmptyArray, IsLeft, IsSameArray, PutsTile};

use ras_domain::{Point, Region};
use ras_index::TileIndex;
use ras_tile::Tile;
use std::alloc::{AllocError, Global};
use std::sync::Arc;

/// The domain of an array and its tiles by their places, as far as they are kept.
#[derive(Drop)]
pub(crate) struct KeptArray {
    pub(crate) domain: Option<Region>,
    pub(crate) tiles: TileIndex<Arc<Tile>>,
}

impl KeptArray {
    /// Nothing of an array. It allocates nothing.
    pub(crate) fn new(alloc: Global) -> KeptArray
        ensures { IsEmptyArray result }
    {
        KeptArray {
            domain: None,
            tiles: TileIndex::new(alloc),
        }
    }

    /// Puts a tile at a place, or takes the one there out.
    pub(crate) fn set_tile(&mut self, place: Point, tile: Option<Arc<Tile>>)
        requires { IsReady self.old.tiles place.items }
        ensures { PutsTile place.items tile self.old self.new }
    {
        match tile {
            Some(tile) => {
                self.tiles.put(place, tile);
            }
            None => {
                self.tiles.remove(&place);
            }
        }
    }

    /// Takes everything out. What was ready stays so.
    pub(crate) fn clear(&mut self)
        ensures { IsLeft false self.old self.new }
    {
        self.domain = None;
        self.tiles.clear();
    }

    /// A copy, which shares the tiles. The error is want of memory.
    pub(crate) fn try_clone(&self, alloc: Global) -> Result<KeptArray, AllocError>
        ensures { IfOk result (IsSameArray self.now) }
    {
        let tiles = self.tiles.try_clone(alloc)?;
        let domain = match &self.domain {
            Some(domain) => Some(copy_of(domain)),
            None => None,
        };
        Ok(KeptArray { domain, tiles })
    }
}

/// The same box.
pub(crate) fn copy_of(region: &Region) -> Region
    ensures { result ≡ region.now }
{
    match Region::new(region.axes()) {
        Ok(copy) => copy,
        Err(_) => unreachable!(),
    }
}
