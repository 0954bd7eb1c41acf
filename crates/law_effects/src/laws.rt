//! The laws. `specs/` of the crate of statements has the words that they use.
ghost use Rattle.std.specs.Prelude.{ℕ, ◌+◌, List, length};
ghost use Rattle.ras_syntax.specs.declared.statement.Statement.{Statement};
ghost use Rattle.ras_syntax.specs.declared.types.SetType.{SetType};
ghost use Rattle.spec_expressions.specs.Database.{Database};
ghost use Rattle.spec_expressions.specs.SetTypes.{AreTypes};
ghost use Rattle.spec_statements.specs.Machine.{effect_of, machine};
ghost use Rattle.spec_statements.specs.ReachLaw.{LawOfOthers, LawOfParents};
ghost use Rattle.spec_statements.specs.Validity.{HasIdentifiersUpTo, IsValidFor};

/// Whatever a statement does, a valid database stays valid: names and identifiers stay in order and
/// apart, each collection has a declared type, and each array lies within its type's bounds and has
/// a stored cell of the type at each of its points.
pub fn effects_keep_validity()
    ensures { (types : List SetType) (statement : Statement) (database : Database)
        → AreTypes types → IsValidFor types database → IsValidFor types (effect_of types statement database) }
{}

/// Statements that run one after another leave a valid database where they begin with one.
pub fn runs_keep_validity()
    ensures { (types : List SetType) (statements : List Statement) (database : Database)
        → AreTypes types → IsValidFor types database → IsValidFor types (machine types statements database).1 }
{}

/// Where no collection gives out next an identifier beyond a bound, none does so beyond the bound
/// and one after a statement: an insert takes one identifier of its collection, a new collection
/// begins at 1, and no other statement takes any.
pub fn identifiers_grow_by_one()
    ensures { (types : List SetType) (statement : Statement) (database : Database) (bound : ℕ)
        → HasIdentifiersUpTo bound database → HasIdentifiersUpTo (bound + 1) (effect_of types statement database) }
{}

/// Statements that run one after another move that bound by at most as many as they are.
pub fn identifiers_of_runs()
    ensures { (types : List SetType) (statements : List Statement) (database : Database) (bound : ℕ)
        → HasIdentifiersUpTo bound database
        → HasIdentifiersUpTo (bound + length statements) (machine types statements database).1 }
{}

/// A statement that asks for a lock on a tile asks, then or in an earlier phase, for one on the
/// domain of the tile's array too, and one that asks for a domain asks for the collection.
pub fn tiles_have_their_domains_locked()
    ensures { LawOfParents }
{}

/// A statement leaves as it is what it has no exclusive lock on: so it leaves what others share.
pub fn what_others_share_stays()
    ensures { LawOfOthers }
{}
