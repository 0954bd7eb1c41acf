ghost use Rattle.std.specs.Prelude.{◌≡◌, Bool, IfErr, IfOk, None, List, OnErr, OnOk, false, if◌then◌else◌, option_map};
ghost use Rattle.std.specs.Option.{option_copied};
ghost use Rattle.ras_domain.specs.declared.lock.LockName.{LockName};
ghost use Rattle.ras_store.specs.declared.change.Change.{Change};
ghost use Rattle.ras_store.specs.Kept.{changed_by_all, collection_kept, domain_kept, kept_tile};
ghost use Rattle.ras_store.specs.Piece.{piece_kept, piece_over};
ghost use Rattle.ras_store.specs.View.{ViewHasRoomForAll, view_kept};

use crate::array::copy_of;
use crate::change::Changes;
use crate::collection::CollectionInfo;
use crate::contents::Contents;
use crate::piece::{Piece, put_piece, reserve_piece};
use crate::written::{NothingWritten, WrittenNames};
use ras_domain::{LockName, Name, Point, Region};
use ras_tile::Tile;
use std::alloc::{AllocError, Global};
use std::sync::Arc;

/// What a transaction sees of a database: what pieces of it gave, with its own writes over that.
#[derive(Drop)]
pub struct View {
    contents: Contents,
}

impl View {
    /// The view of nothing. It allocates nothing.
    pub fn new(alloc: Global) -> View
        ensures { (name : LockName) → view_kept result name ≡ None }
    {
        View {
            contents: Contents::new(alloc),
        }
    }

    /// The view of one piece. Where memory is wanting, the piece is handed back.
    pub fn of_piece(alloc: Global, piece: Piece) -> Result<View, Piece>
        ensures held { IfOk result (λ view. (name : LockName) → view_kept view name ≡ piece_kept piece name) }
        ensures piece_returned { IfErr result (λ back. back ≡ piece) }
    {
        let mut view = View::new(alloc);
        match view.put_piece(alloc, piece, &NothingWritten) {
            Ok(()) => Ok(view),
            Err(piece) => Err(piece),
        }
    }

    /// A collection's set type, next identifier and identifiers, none where none are seen.
    pub fn members(&self, name: &Name) -> Option<&CollectionInfo>
        ensures { option_map collection_kept (option_copied result) ≡ view_kept self.now (LockName.Collection name.now) }
    {
        self.contents.info(name)
    }

    /// The domain of an array, none where none is seen.
    pub fn domain_of(&self, name: &Name, oid: u64) -> Option<Region>
        ensures { option_map domain_kept result ≡ view_kept self.now (LockName.Domain name.now oid) }
    {
        match self.contents.domain(name, oid) {
            Some(domain) => Some(copy_of(domain)),
            None => None,
        }
    }

    /// The tile of an array at a place, none where none is seen.
    pub fn tile_of(&self, name: &Name, oid: u64, place: &Point) -> Option<&Arc<Tile>>
        ensures { kept_tile (option_copied result) ≡ view_kept self.now (LockName.Tile name.now oid place.now) }
    {
        self.contents.tile(name, oid, place)
    }

    /// Puts a piece into the view, except under names that were written. Under every other name the view
    /// has what the piece has an entry for, and else what it had. A collection that the piece replaces leaves
    /// what is seen of its arrays. Where memory is wanting, the view shows what it showed, and the piece is
    /// handed back.
    pub fn put_piece<W: WrittenNames>(
        &mut self,
        alloc: Global,
        piece: Piece,
        written: &W,
    ) -> Result<(), Piece>
        ensures held { OnOk result ((name : LockName) → view_kept self.new name
            ≡ (if W.is_written written.now name then view_kept self.old name else piece_over piece name (view_kept self.old name))) }
        ensures refused { OnErr result ((name : LockName) → view_kept self.new name ≡ view_kept self.old name) }
        ensures piece_returned { IfErr result (λ back. back ≡ piece) }
        ensures room { (other : List Change) → ViewHasRoomForAll self.old other → ViewHasRoomForAll self.new other }
    {
        match reserve_piece(alloc, &mut self.contents, &piece) {
            Ok(()) => {
                put_piece(&mut self.contents, piece, written);
                Ok(())
            }
            Err(_) => Err(piece),
        }
    }

    /// Makes room for what the changes put. It takes all memory that they need. Where memory is
    /// wanting, the same is seen as before.
    pub fn reserve_for(&mut self, alloc: Global, changes: &Changes) -> Result<(), AllocError>
        ensures kept { (name : LockName) → view_kept self.new name ≡ view_kept self.old name }
        ensures made { OnOk result (ViewHasRoomForAll self.new changes.now) }
        ensures room { (other : List Change) → ViewHasRoomForAll self.old other → ViewHasRoomForAll self.new other }
    {
        self.contents.reserve_all(alloc, changes.items())
    }

    /// Applies changes for which room was made, in their order. It takes no memory.
    pub fn apply_prepared(&mut self, changes: Changes)
        requires { ViewHasRoomForAll self.old changes }
        ensures changed { (name : LockName) → view_kept self.new name ≡ changed_by_all changes name (view_kept self.old name) }
        ensures room { (other : List Change) → ViewHasRoomForAll self.old other → ViewHasRoomForAll self.new other }
    {
        self.contents.apply_all(changes.into_vec());
    }
}
