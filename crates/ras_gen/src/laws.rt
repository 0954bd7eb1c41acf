//! Laws of the definitions, each the contract of a function that does nothing.
ghost use Rattle.std.specs.Prelude.{◌≡◌, ◌≤◌, ◌+◌, ◌*◌, ◌/◌, ℕ, [], ◌∷◌, length, map};
ghost use Rattle.std.specs.List.{range_with_len};
ghost use Rattle.ras_gen.specs.declared.draws.TheConstants.{LOW_PART};
ghost use Rattle.ras_gen.specs.Draws.{draw, state_after};
ghost use Rattle.ras_gen.specs.Text.{generated_text};
ghost use Rattle.ras_gen.specs.Worked.{text_of_7_and_1};

/// From the seed 1 the generator gives the numbers of the C standard's sample of `rand`.
#[tactic(auto, unfolding(crate::specs::Draws::state_after))]
pub fn the_sample_of_the_standard()
    ensures { map (λ place. state_after place 1 / LOW_PART) (range_with_len 1 10)
        ≡ 16838 ∷ 5758 ∷ 10113 ∷ 17515 ∷ 31051 ∷ 5627 ∷ 23010 ∷ 7419 ∷ 16212 ∷ 4086 ∷ [] }
{}

/// The first three states from the seed 7, and the row, the column and the value that they give.
#[tactic(auto, unfolding(crate::specs::Draws::state_after))]
pub fn the_first_draws_of_seed_7()
    ensures states { map (λ place. state_after place 7) (range_with_len 1 3) ≡ 1282168116 ∷ 642666333 ∷ 712265938 ∷ [] }
    ensures row { draw 7 1 15 ≡ 4 }
    ensures column { draw 7 2 15 ≡ 11 }
    ensures value { draw 7 3 256 ≡ 116 }
{}

/// The whole text of the seed 7 and the size 1.
pub fn the_text_of_7_and_1()
    ensures { generated_text 7 1 ≡ text_of_7_and_1 }
{}

/// Each box lies in the array, and each value is one of a char.
pub fn changes_fit_the_array()
    ensures corners { (seed place : ℕ) → draw seed place 15 + 1 ≤ 15 }
    ensures values { (seed place : ℕ) → draw seed place 256 ≤ 255 }
{}

/// A text is linear in its size.
pub fn texts_are_linear_in_the_size()
    ensures { (seed size : ℕ) → length (generated_text seed size) ≤ 283 + 1176 * size }
{}
