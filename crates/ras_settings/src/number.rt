ghost use Rattle.std.specs.Prelude.{◌≡◌, ℕ, MatchOption};
ghost use Rattle.ras_settings.specs.Settings.{HasOptionNumber, HasAskedNumbers, IsNumberIn, LacksNumber, LacksNumbers, is_plain};
ghost use Rattle.ras_settings.specs.Values.{options_asked, text_in};

use crate::values::Values;
use crate::{MAX_SEED, MAX_SIZE, MAX_WORKERS, USUAL_SEED, USUAL_SIZE, USUAL_WORKERS};

/// The numbers that the options give.
#[derive(Clone, Copy, Debug, PartialEq, Eq)]
pub struct Numbers {
    pub workers: u32,
    pub seed: u32,
    pub size: u32,
}

/// Whether a text that `parse` reads has no sign and no leading zero.
fn is_plain(text: &str) -> bool
    ensures { result ≡ is_plain text.now }
{
    match text.as_bytes() {
        [first, _, ..] => *first != b'+' && *first != b'0',
        _ => true,
    }
}

/// The number of a range that a text writes in decimal digits, with no sign and no leading zero.
fn read_number(text: &str, least: u32, most: u32) -> Option<u32>
    ensures { MatchOption result ((n : ℕ) → ¬ IsNumberIn least most text.now n) (IsNumberIn least most text.now) }
{
    let Ok(number) = text.parse::<u32>() else {
        return None;
    };
    if !is_plain(text) {
        return None;
    }
    if number < least {
        return None;
    }
    if most < number {
        return None;
    }
    Some(number)
}

/// The number of an option's value, or the usual one where the option isn't given.
fn number_or(value: Option<&str>, least: u32, most: u32, usual: u32) -> Option<u32>
    ensures { MatchOption result (LacksNumber least most (text_in value.entry)) (HasOptionNumber least most usual (text_in value.entry)) }
{
    match value {
        None => Some(usual),
        Some(text) => read_number(text, least, most),
    }
}

/// The numbers of the options, if each value that must be a number of a range is one.
pub(crate) fn read_numbers(values: Values<'_>) -> Option<Numbers>
    ensures { MatchOption result (LacksNumbers (options_asked values.entry)) (HasAskedNumbers (options_asked values.entry)) }
{
    let workers = number_or(values.workers, 1, MAX_WORKERS, USUAL_WORKERS)?;
    let seed = number_or(values.seed, 0, MAX_SEED, USUAL_SEED)?;
    let size = number_or(values.size, 1, MAX_SIZE, USUAL_SIZE)?;
    Some(Numbers {
        workers,
        seed,
        size,
    })
}
