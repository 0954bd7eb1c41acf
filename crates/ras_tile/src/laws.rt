//! Laws of the definitions, each the contract of a function that does nothing.
ghost use Rattle.std.specs.Prelude.{List, ℤ, ◌≡◌};
ghost use Rattle.ras_domain.specs.Region.{IsIn};
ghost use Rattle.ras_tile.specs.Tile.{TileValue, IsTile, tile_cell_at};

/// Two tiles on one box have the same cells where they have the same cell at each point of it.
pub fn cells_are_those_at_the_points()
    ensures { (a b : TileValue) → IsTile a → IsTile b → a.region ≡ b.region
        → ((p : List ℤ) → IsIn p a.region → tile_cell_at a p ≡ tile_cell_at b p) → a.cells ≡ b.cells }
{}
