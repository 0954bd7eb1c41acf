//! Laws of the definitions, each the contract of a function that does nothing.
ghost use Rattle.std.specs.Prelude.{◌≡◌, ℕ, Ok};
ghost use Rattle.spec_commands.specs.Commands.{whole_workload_of};
ghost use Rattle.spec_grammar.specs.Tokens.{Text};
ghost use Rattle.spec_workloads.specs.Setup.{WorkloadValue, workload_of};

/// The workload of a whole text is that of its front: so the laws of workloads hold of it.
pub fn whole_workloads_are_workloads()
    ensures { (text : Text) (value : WorkloadValue) → whole_workload_of text ≡ Ok value
        → (behind : ℕ) × (workload_of text ≡ Ok (value, behind)) }
{}
