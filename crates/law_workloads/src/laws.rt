//! The laws. `specs/` of `spec_workloads` has the words that they use.
ghost use Rattle.std.specs.Prelude.{◌≡◌, ℕ, ◌+◌, ◌*◌, ◌≤◌, Ok, count_by};
ghost use Rattle.ras_syntax.specs.declared.limits.TheConstants.{MAX_IDENTIFIER, MAX_STATEMENTS};
ghost use Rattle.spec_grammar.specs.Tokens.{Text};
ghost use Rattle.spec_histories.specs.History.{History};
ghost use Rattle.spec_histories.specs.Legal.{IsLegal, is_begun};
ghost use Rattle.spec_histories.specs.Serializable.{ArePrograms, HasRoom};
ghost use Rattle.spec_views.specs.Sessions.{AreShort};
ghost use Rattle.spec_workloads.specs.Programs.{programs_of};
ghost use Rattle.spec_workloads.specs.Setup.{WorkloadValue, workload_of};

/// A text's workload has types that may be declared, a valid database that gives out small identifiers
/// next, and statements whose numbers are of their atoms: the laws of histories hold of it.
pub fn workloads_are_programs()
    ensures { (text : Text) (found : WorkloadValue × ℕ) → workload_of text ≡ Ok found
        → ArePrograms (programs_of found.0) (1 + MAX_STATEMENTS) }
{}

/// Its sessions are short.
pub fn sessions_are_short()
    ensures { (text : Text) (found : WorkloadValue × ℕ) → workload_of text ≡ Ok found → AreShort (programs_of found.0) MAX_STATEMENTS }
{}

/// So identifiers have room in every legal history of it in which fewer than 2^32 transactions begin.
pub fn identifiers_have_room()
    ensures { (text : Text) (found : WorkloadValue × ℕ) (past : History) → workload_of text ≡ Ok found → IsLegal (programs_of found.0) past
        → count_by is_begun past ≤ 4294967295 → HasRoom (1 + MAX_STATEMENTS) past }
{}
