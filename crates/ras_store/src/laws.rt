//! Laws of the definitions, each the contract of a function that does nothing.
ghost use Rattle.std.specs.Prelude.{◌≡◌, ◌↔◌, ℕ, ℤ, List, Option, Some, IsSome, option_map};
ghost use Rattle.ras_domain.specs.declared.lock.LockName.{LockName};
ghost use Rattle.ras_domain.specs.declared.lock.LockName.TheVariants.{Collection, Domain, Tile};
ghost use Rattle.ras_domain.specs.Region.{IsIn};
ghost use Rattle.ras_grid.specs.Grid.{Meets, tile_in};
ghost use Rattle.ras_tile.specs.Tile.{IsTile, TileValue, tile_cell_at};
ghost use Rattle.ras_syntax.specs.declared.types.SetType.{SetType};
ghost use Rattle.ras_store.specs.declared.change.Change.{Change};
ghost use Rattle.ras_store.specs.declared.store.Store.{Store};
ghost use Rattle.ras_store.specs.Databases.{IsArrayThere, Keeps, Place, array_named, holdings_of, info_of, rewrites_of};
ghost use Rattle.ras_store.specs.Kept.{Kept, changed_by_all, collection_kept, domain_kept, tile_kept};
ghost use Rattle.ras_store.specs.Store.{store_kept};
ghost use Rattle.spec_expressions.specs.Database.{Array, Database, collection_of, stored_at};
ghost use Rattle.spec_expressions.specs.SetTypes.{AreTypes};
ghost use Rattle.spec_statements.specs.Locks.{Lock};
ghost use Rattle.spec_statements.specs.ReachLaw.{Names};
ghost use Rattle.spec_statements.specs.Validity.{IsValidFor};
ghost use Rattle.spec_views.specs.Holdings.{StandsFor};
ghost use Rattle.spec_views.specs.Work.{RewritesTo};

/// What is kept under the names of a list, as a piece has it, stands on that list for each database that is
/// kept.
pub fn pieces_stand_for_the_database()
    ensures { (types : List SetType) (kept taken : LockName → Option Kept) (list : List Lock) (database : Database)
        → Keeps types kept database → ((name : LockName) → Names list name → taken name ≡ kept name)
        → StandsFor types (holdings_of taken) list database }
{}

/// After changes, each database is kept that they make of the one that was kept.
pub fn changes_rewrite_the_database()
    ensures { (types : List SetType) (changes : List Change) (kept : LockName → Option Kept) (before next : Database)
        → Keeps types kept before → RewritesTo types (rewrites_of changes) before next
        → Keeps types (λ name. changed_by_all changes name (kept name)) next }
{}

/// The look-ups of a store are those of the database that it keeps.
pub fn look_ups_are_those_of_the_database()
    ensures collections { (types : List SetType) (store : Store) (database : Database) (name : List ℕ) → Keeps types (store_kept store) database
        → store_kept store (Collection name) ≡ option_map (λ collection. collection_kept (info_of collection)) (collection_of database name) }
    ensures domains { (types : List SetType) (store : Store) (database : Database) (name : List ℕ) (oid : ℕ) → Keeps types (store_kept store) database
        → store_kept store (Domain name oid) ≡ option_map (λ array. domain_kept array.domain) (array_named database name oid) }
{}

/// Of each array of the database that a store keeps, the store has a tile at each place at which the array
/// has points, and no other. The tile's box is the part of the domain in the grid box at that place, and its
/// cells are those of the array.
pub fn tiles_are_those_of_the_database()
    ensures places { (types : List SetType) (store : Store) (database : Database) (name : List ℕ) (oid : ℕ) (place : Place)
        → AreTypes types → IsValidFor types database → Keeps types (store_kept store) database → (of : SetType) (array : Array)
        → IsArrayThere types database name oid of array
        → Meets of.extents.items place.items array.domain ↔ IsSome (store_kept store (Tile name oid place)) }
    ensures boxes { (types : List SetType) (store : Store) (database : Database) (name : List ℕ) (oid : ℕ) (place : Place)
        → AreTypes types → IsValidFor types database → Keeps types (store_kept store) database → (of : SetType) (array : Array)
        → IsArrayThere types database name oid of array → (tile : TileValue) → IsTile tile
        → store_kept store (Tile name oid place) ≡ Some (tile_kept tile) → tile.region ≡ tile_in of.extents.items array.domain place.items }
    ensures cells { (types : List SetType) (store : Store) (database : Database) (name : List ℕ) (oid : ℕ) (place : Place)
        → AreTypes types → IsValidFor types database → Keeps types (store_kept store) database → (of : SetType) (array : Array)
        → IsArrayThere types database name oid of array → (tile : TileValue) → IsTile tile
        → store_kept store (Tile name oid place) ≡ Some (tile_kept tile)
        → (p : List ℤ) → IsIn p tile.region → tile_cell_at tile p ≡ stored_at array p }
{}
