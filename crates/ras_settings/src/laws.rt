//! Laws of the definitions, and worked texts: each the contract of a function that does nothing.
ghost use Rattle.std.specs.Prelude.{◌≡◌, ◌∷◌, [], codes, ℕ, List};
ghost use Rattle.ras_settings.specs.Schedule.{BreaksAt, IsSchedule, ScheduleText, Turns};
ghost use Rattle.ras_settings.specs.Settings.{Mean, Outcome};

/// Words have one meaning: settings or a fault.
pub fn words_mean_one_thing()
    ensures { (words : List ScheduleText) (a b : Outcome) → Mean words a → Mean words b → a ≡ b }
{}

/// A text is a schedule of one list of turns, or it isn't one and breaks at one place.
pub fn a_text_is_one_schedule_or_breaks_at_one_place()
    ensures schedule { (text : ScheduleText) (a b : Turns) → IsSchedule text a → IsSchedule text b → a ≡ b }
    ensures place { (text : ScheduleText) (a b : ℕ) → BreaksAt text a → BreaksAt text b → a ≡ b }
    ensures either { (text : ScheduleText) (turns : Turns) (place : ℕ) → IsSchedule text turns → ¬ BreaksAt text place }
{}

/// Schedules, as texts and as turns.
pub fn schedules_as_texts()
    ensures one { IsSchedule (codes "1") ((1, 1) ∷ []) }
    ensures repeated { IsSchedule (codes "1x5,2x11") ((1, 5) ∷ (2, 11) ∷ []) }
    ensures mixed { IsSchedule (codes "1x5,2x4,1") ((1, 5) ∷ (2, 4) ∷ (1, 1) ∷ []) }
    ensures largest { IsSchedule (codes "64x999999,64") ((64, 999999) ∷ (64, 1) ∷ []) }
{}

/// Texts that are no schedules, and where they break.
pub fn texts_that_break()
    ensures letter { BreaksAt (codes "1y2") 1 }
    ensures session { BreaksAt (codes "65") 1 }
    ensures zero { BreaksAt (codes "0") 0 }
    ensures no_steps { BreaksAt (codes "1x0") 2 }
    ensures leading_zero { BreaksAt (codes "1x01") 2 }
    ensures no_item { BreaksAt (codes "1,") 2 }
    ensures no_count { BreaksAt (codes "1x") 2 }
    ensures too_many { BreaksAt (codes "1x1000001") 8 }
    ensures none_left { BreaksAt (codes "1x1000000,1") 9 }
    ensures one_left { BreaksAt (codes "1x999999,2x2") 11 }
{}
