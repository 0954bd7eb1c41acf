//! Laws of workload texts. `specs/` has the words that they use.
ghost use Rattle.std.specs.Prelude.{◌≡◌, ℕ, Ok};
ghost use Rattle.spec_grammar.specs.Tokens.{Text};
ghost use Rattle.spec_workloads.specs.Outline.{IsOutline, Outline, outline_of};

/// An outline's types may be declared, its sessions have names of their own, and it keeps the limits on
/// types, sessions and statements.
pub fn outlines_keep_the_limits()
    ensures { (text : Text) (found : Outline × ℕ) → outline_of text ≡ Ok found → IsOutline found.0 }
{}
